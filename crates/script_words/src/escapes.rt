//! Bytes that a word writes as `%` and two hexadecimal digits.
ghost use Rattle.std.specs.Prelude.{◌≡◌, ◌==◌, ◌<◌, length, not, true, IfOk, IfSome, IfNone, OnErr, Some, None, is_some};
ghost use Rattle.std.specs.List.{list_all};
ghost use Rattle.script_words.specs.Escapes.{bytes_of, onto, hex_byte_of, hex_digit_of};

use crate::numbers::digit;
use mds_types::Bytes;
use std::alloc::{AllocError, Global};

/// The bytes that a word stands for; none where a `%` is not followed by two hexadecimal digits. Takes memory for the
/// bytes; where it is wanting, the word is read once more with nothing kept, so there is an error only for a word that
/// stands for some.
pub fn unescaped(alloc: Global, word: &[u8]) -> Result<Option<Bytes>, AllocError>
    ensures bytes { IfOk result (λ bytes. bytes ≡ bytes_of word.now) }
    ensures memory { OnErr result (is_some (bytes_of word.now) ≡ true) }
{
    match kept_bytes(alloc, word) {
        Ok(bytes) => Ok(bytes),
        Err(error) => {
            if is_escaped(word) {
                return Err(error);
            }
            Ok(None)
        }
    }
}

/// Whether a word stands for bytes: each `%` is followed by two hexadecimal digits. Takes no memory.
pub fn is_escaped(word: &[u8]) -> bool
    ensures { result ≡ is_some (bytes_of word.now) }
{
    let mut rest = word;
    while let Some((_, after)) = next_byte(rest) {
        rest = after;
    }
    rest.is_empty()
}

// The bytes that a word stands for.
fn kept_bytes(alloc: Global, word: &[u8]) -> Result<Option<Bytes>, AllocError>
    ensures { IfOk result (λ bytes. bytes ≡ bytes_of word.now) }
{
    // mostly there is no escape, and then the bytes are taken together
    if is_plain(word) {
        return Ok(Some(Bytes::from_slice(alloc, word)?));
    }
    let mut bytes = Vec::with_capacity(alloc, word.len())?;
    let mut rest = word;
    while let Some((byte, after)) = next_byte(rest) {
        bytes.push(byte)?;
        rest = after;
    }
    if rest.is_empty() {
        Ok(Some(Bytes::from_vec(alloc, bytes)?))
    } else {
        Ok(None)
    }
}

/// Whether each byte of a word stands for itself: none is a `%`.
pub(crate) fn is_plain(word: &[u8]) -> bool
    ensures { result ≡ list_all (λ byte. not (byte == 37)) word.now }
{
    word.iter().all(|byte| *byte != b'%')
}

// The first byte that a word stands for, and what follows it; none at the end and at a `%` that is no escape.
fn next_byte(word: &[u8]) -> Option<(u8, &[u8])>
    ensures found { IfSome result (λ r. bytes_of word.now ≡ onto (Some r.0) (bytes_of r.1.now)) }
    ensures none { IfNone result (0 < length word.now → bytes_of word.now ≡ None) }
    ensures shorter { IfSome result (λ r. length r.1.now < length word.now) }
{
    let (first, rest) = word.split_first()?;
    if *first != b'%' {
        return Some((*first, rest));
    }
    let (high, rest) = rest.split_first()?;
    let (low, rest) = rest.split_first()?;
    Some((hex_byte(*high, *low)?, rest))
}

// The byte that two hexadecimal digits stand for.
fn hex_byte(high: u8, low: u8) -> Option<u8>
    ensures { result ≡ hex_byte_of high low }
{
    let (high, low) = (hex_digit(high), hex_digit(low));
    if high < 16 && low < 16 {
        Some(high * 16 + low)
    } else {
        None
    }
}

// The value of a hexadecimal digit of either case; 16 for a byte that is none.
fn hex_digit(byte: u8) -> u8
    ensures { result ≡ hex_digit_of byte }
{
    match byte {
        b'A'..=b'F' => byte - b'A' + 10,
        _ => digit(byte),
    }
}
