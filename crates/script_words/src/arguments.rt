//! The words after a command's first.
ghost use Rattle.std.specs.Prelude.{◌≡◌, OnErr, false};
ghost use Rattle.script_words.specs.Reading.{GivesWord, ReadsWord};
ghost use Rattle.script_words.specs.Arguments.{ino_of, rank_of, pin_of, client_of, decimal_of, id_of, mode_of, page_size_of, text_of_word, two_texts_of, after_of, name_of, target_of_word, is_dash, word_name_of};

use crate::escapes::{is_escaped, is_plain, unescaped};
use crate::faults::{Fault, NOT_COMMAND, ReadError};
use crate::numbers::{number, octal_mode};
use mds_types::{
    Bytes, EINVAL, ENAMETOOLONG, ENOENT, Ino, Mode, Name, NameFault, PageSize, Rank, Target,
    TargetFault,
};
use std::alloc::Global;

/// INO: lower hexadecimal.
#[tactic(auto, unfolding(crate::specs::Arguments::ino_of))]
pub fn ino(word: &[u8]) -> Result<Ino, ReadError>
    ensures { ReadsWord (λ ino. ino) result (ino_of word.now) }
{
    match number(word, 16) {
        Some(n) => Ok(Ino(n)),
        None => Err(NOT_COMMAND),
    }
}

/// RANK: decimal, 0 to 255.
#[tactic(auto, unfolding(crate::specs::Arguments::rank_of))]
pub fn rank(word: &[u8]) -> Result<Rank, ReadError>
    ensures { ReadsWord (λ rank. rank) result (rank_of word.now) }
{
    match number(word, 10) {
        Some(n) if n <= 255 => Ok(Rank(n as u8)),
        _ => Err(NOT_COMMAND),
    }
}

/// RANK, or `-1` for no pin.
#[tactic(auto, unfolding(crate::specs::Arguments::pin_of))]
pub fn pin(word: &[u8]) -> Result<Option<Rank>, ReadError>
    ensures { ReadsWord (λ pin. pin) result (pin_of word.now) }
{
    if word == b"-1".as_slice() {
        return Ok(None);
    }
    Ok(Some(rank(word)?))
}

/// CLIENT: decimal, at least 1.
#[tactic(auto, unfolding(crate::specs::Arguments::client_of))]
pub fn client(word: &[u8]) -> Result<u64, ReadError>
    ensures { ReadsWord (λ client. client) result (client_of word.now) }
{
    match number(word, 10) {
        Some(n) if 1 <= n => Ok(n),
        _ => Err(NOT_COMMAND),
    }
}

/// TID, OLDEST and the N of an attribute: decimal.
#[tactic(auto, unfolding(crate::specs::Arguments::decimal_of))]
pub fn decimal(word: &[u8]) -> Result<u64, ReadError>
    ensures { ReadsWord (λ n. n) result (decimal_of word.now) }
{
    match number(word, 10) {
        Some(n) => Ok(n),
        None => Err(NOT_COMMAND),
    }
}

/// The N of an owner or a group: decimal, of 32 bits.
#[tactic(auto, unfolding(crate::specs::Arguments::id_of))]
pub fn id(word: &[u8]) -> Result<u32, ReadError>
    ensures { ReadsWord (λ n. n) result (id_of word.now) }
{
    match number(word, 10) {
        Some(n) if n <= 4_294_967_295 => Ok(n as u32),
        _ => Err(NOT_COMMAND),
    }
}

/// MODE: one to four octal digits.
#[tactic(auto, unfolding(crate::specs::Arguments::mode_of))]
pub fn mode(word: &[u8]) -> Result<Mode, ReadError>
    ensures { ReadsWord (λ mode. mode) result (mode_of word.now) }
{
    let Some(n) = octal_mode(word) else {
        return Err(NOT_COMMAND);
    };
    match Mode::new(n as u16) {
        Some(mode) => Ok(mode),
        None => Err(NOT_COMMAND),
    }
}

/// MAX: decimal, 1 to 1024.
#[tactic(auto, unfolding(crate::specs::Arguments::page_size_of))]
pub fn page_size(word: &[u8]) -> Result<PageSize, ReadError>
    ensures { ReadsWord (λ max. max) result (page_size_of word.now) }
{
    let Some(n) = number(word, 10) else {
        return Err(NOT_COMMAND);
    };
    if n > 1024 {
        return Err(NOT_COMMAND);
    }
    match PageSize::new(n as u16) {
        Some(max) => Ok(max),
        None => Err(NOT_COMMAND),
    }
}

/// NAME and TARGET: the bytes that the word stands for.
#[tactic(auto, unfolding(crate::specs::Arguments::text_of_word))]
pub fn text(alloc: Global, word: &[u8]) -> Result<Bytes, ReadError>
    ensures { GivesWord (λ bytes. bytes) result (text_of_word word.now) }
{
    match unescaped(alloc, word)? {
        Some(bytes) => Ok(bytes),
        None => Err(NOT_COMMAND),
    }
}

/// NAME and TARGET, or two names: the bytes that both words stand for.
#[tactic(auto, unfolding(crate::specs::Arguments::two_texts_of))]
pub fn two_texts(alloc: Global, word: &[u8], other: &[u8]) -> Result<(Bytes, Bytes), ReadError>
    ensures { GivesWord (λ both. both) result (two_texts_of word.now other.now) }
{
    match text(alloc, word) {
        Ok(bytes) => Ok((bytes, text(alloc, other)?)),
        Err(ReadError::Fault(fault)) => Err(ReadError::Fault(fault)),
        Err(ReadError::NoMemory) => {
            if is_escaped(other) {
                return Err(ReadError::NoMemory);
            }
            Err(NOT_COMMAND)
        }
    }
}

// Whether the word is `-`.
fn is_dash(word: &[u8]) -> bool
    ensures { result ≡ is_dash word.now }
{
    match word {
        [byte] => *byte == b'-',
        _ => false,
    }
}

// Bytes that are no name,
const BAD_NAME: ReadError = ReadError::Fault(Fault::BadWord(EINVAL));

// and more than a name has.
const LONG_NAME: ReadError = ReadError::Fault(Fault::BadWord(ENAMETOOLONG));

/// The name that these bytes are, or the error number of bytes that are none.
#[tactic(auto, unfolding(crate::specs::Arguments::name_of))]
pub fn name(bytes: Bytes) -> Result<Name, ReadError>
    ensures { ReadsWord (λ name. name) result (name_of bytes) }
{
    match Name::from_text(bytes) {
        Ok(name) => Ok(name),
        Err(NameFault::Invalid) => Err(BAD_NAME),
        Err(NameFault::TooLong) => Err(LONG_NAME),
        // (bytes that are there take no memory)
        Err(NameFault::NoMemory) => unreachable!(),
    }
}

/// NAME: the name that the word stands for, or the error number of bytes that are none.
#[inline(always)]
#[tactic(auto, unfolding(crate::specs::Arguments::word_name_of))]
pub fn word_name(alloc: Global, word: &[u8]) -> Result<Name, ReadError>
    ensures { GivesWord (λ name. name) result (word_name_of word.now) }
{
    // mostly there is no escape, and then the name is made of the word itself, and moved less often
    if is_plain(word) {
        return plain_name(alloc, word);
    }
    escaped_name(alloc, word)
}

// The same, where there may be an escape.
#[inline(never)]
#[tactic(auto, unfolding(crate::specs::Arguments::word_name_of))]
fn escaped_name(alloc: Global, word: &[u8]) -> Result<Name, ReadError>
    ensures { GivesWord (λ name. name) result (word_name_of word.now) }
{
    match text(alloc, word) {
        Ok(bytes) => name(bytes),
        Err(error) => Err(error),
    }
}

// The name that these bytes are, or the error number of bytes that are none.
#[inline(always)]
#[tactic(auto, unfolding(crate::specs::Arguments::name_of))]
fn plain_name(alloc: Global, bytes: &[u8]) -> Result<Name, ReadError>
    ensures { GivesWord (λ name. name) result (name_of bytes.now) }
{
    match Name::from_bytes(alloc, bytes) {
        Ok(name) => Ok(name),
        Err(NameFault::Invalid) => Err(BAD_NAME),
        Err(NameFault::TooLong) => Err(LONG_NAME),
        Err(NameFault::NoMemory) => Err(ReadError::NoMemory),
    }
}

/// AFTER: none for `-` alone, else the name that the word stands for.
#[tactic(auto, unfolding(crate::specs::Arguments::after_of))]
pub fn after(alloc: Global, word: &[u8]) -> Result<Option<Name>, ReadError>
    ensures name { GivesWord (λ name. name) result (after_of word.now) }
    ensures dash { OnErr result (is_dash word.now ≡ false) }
{
    if is_dash(word) {
        return Ok(None);
    }
    match word_name(alloc, word) {
        Ok(name) => Ok(Some(name)),
        Err(error) => Err(error),
    }
}

/// The target that these bytes are, or the error number of bytes that are none.
#[tactic(auto, unfolding(crate::specs::Arguments::target_of_word))]
pub fn target(alloc: Global, bytes: &[u8]) -> Result<Target, ReadError>
    ensures { GivesWord (λ target. target) result (target_of_word bytes.now) }
{
    match Target::from_bytes(alloc, bytes) {
        Ok(target) => Ok(target),
        Err(TargetFault::Empty) => Err(ReadError::Fault(Fault::BadWord(ENOENT))),
        Err(TargetFault::Invalid) => Err(ReadError::Fault(Fault::BadWord(EINVAL))),
        Err(TargetFault::TooLong) => Err(ReadError::Fault(Fault::BadWord(ENAMETOOLONG))),
        Err(TargetFault::NoMemory) => Err(ReadError::NoMemory),
    }
}
