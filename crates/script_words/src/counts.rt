//! A number of words.
ghost use Rattle.script_words.specs.Words.{words_of};
ghost use Rattle.script_words.specs.Reading.{ReadsWord, first_word, four, none, one, two, three};

use crate::faults::{NOT_COMMAND, ReadError};
use crate::words::next_word;

/// The first word, and what follows it.
pub fn first(words: &[u8]) -> Result<(&[u8], &[u8]), ReadError>
    ensures { ReadsWord (λ w. (w.0.now, words_of w.1.now)) result (first_word (words_of words.now)) }
{
    match next_word(words) {
        Some(split) => Ok(split),
        None => Err(NOT_COMMAND),
    }
}

/// No further word.
pub fn none(words: &[u8]) -> Result<(), ReadError>
    ensures { ReadsWord (λ w. w) result (none (words_of words.now)) }
{
    match next_word(words) {
        None => Ok(()),
        Some(_) => Err(NOT_COMMAND),
    }
}

/// Exactly one word.
pub fn one(words: &[u8]) -> Result<&[u8], ReadError>
    ensures { ReadsWord (λ w. w.now) result (one (words_of words.now)) }
{
    let Some((first, rest)) = next_word(words) else {
        return Err(NOT_COMMAND);
    };
    match next_word(rest) {
        None => Ok(first),
        Some(_) => Err(NOT_COMMAND),
    }
}

/// Exactly two words.
pub fn two(words: &[u8]) -> Result<(&[u8], &[u8]), ReadError>
    ensures { ReadsWord (λ w. (w.0.now, w.1.now)) result (two (words_of words.now)) }
{
    let Some((first, rest)) = next_word(words) else {
        return Err(NOT_COMMAND);
    };
    let Some((second, rest)) = next_word(rest) else {
        return Err(NOT_COMMAND);
    };
    match next_word(rest) {
        None => Ok((first, second)),
        Some(_) => Err(NOT_COMMAND),
    }
}

/// Exactly three words.
pub fn three(words: &[u8]) -> Result<(&[u8], &[u8], &[u8]), ReadError>
    ensures { ReadsWord (λ w. (w.0.now, w.1.now, w.2.now)) result (three (words_of words.now)) }
{
    let Some((first, rest)) = next_word(words) else {
        return Err(NOT_COMMAND);
    };
    let Some((second, rest)) = next_word(rest) else {
        return Err(NOT_COMMAND);
    };
    let Some((third, rest)) = next_word(rest) else {
        return Err(NOT_COMMAND);
    };
    match next_word(rest) {
        None => Ok((first, second, third)),
        Some(_) => Err(NOT_COMMAND),
    }
}

/// Exactly four words.
pub fn four(words: &[u8]) -> Result<(&[u8], &[u8], &[u8], &[u8]), ReadError>
    ensures { ReadsWord (λ w. (w.0.now, w.1.now, w.2.now, w.3.now)) result (four (words_of words.now)) }
{
    let Some((first, rest)) = next_word(words) else {
        return Err(NOT_COMMAND);
    };
    let Some((second, rest)) = next_word(rest) else {
        return Err(NOT_COMMAND);
    };
    let Some((third, rest)) = next_word(rest) else {
        return Err(NOT_COMMAND);
    };
    let Some((fourth, rest)) = next_word(rest) else {
        return Err(NOT_COMMAND);
    };
    match next_word(rest) {
        None => Ok((first, second, third, fourth)),
        Some(_) => Err(NOT_COMMAND),
    }
}
