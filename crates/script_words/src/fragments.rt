//! Fragments in words, and the number of bits of a split.
ghost use Rattle.std.specs.Prelude.{◌≡◌, ◌*◌, ◌^◌, ◌<◌, ◌≤◌};
ghost use Rattle.mds_types.specs.Frag.{span};
ghost use Rattle.script_words.specs.Reading.{ReadsWord};
ghost use Rattle.script_words.specs.Fragments.{frag_of, fragment_of_digits, split_bits_of};

use crate::faults::{NOT_COMMAND, ReadError};
use crate::numbers::{number, value};
use mds_types::Frag;

// The most digits of a fragment.
const FRAG_DIGITS: usize = 24;

/// FRAG: up to 24 digits 0 or 1, and a star.
#[tactic(auto, unfolding(crate::specs::Fragments::frag_of))]
pub fn frag(word: &[u8]) -> Result<Frag, ReadError>
    ensures { ReadsWord (λ frag. frag) result (frag_of word.now) }
{
    let [digits @ .., b'*'] = word else {
        return Err(NOT_COMMAND);
    };
    match frag_from(digits) {
        Some(frag) => Ok(frag),
        None => Err(NOT_COMMAND),
    }
}

// The fragment whose bits are these digits, if they are such.
fn frag_from(digits: &[u8]) -> Option<Frag>
    ensures { result ≡ fragment_of_digits digits.now }
{
    if digits.len() > FRAG_DIGITS {
        return None;
    }
    let bits = digits.len() as u8;
    let Some(number) = value(digits, 2) else {
        return None;
    };
    Frag::new(justified(number, bits), bits)
}

// A number of so many bits, left-justified in 24 bits.
fn justified(number: u64, bits: u8) -> u32
    requires few { bits ≤ 24 }
    requires fits { number < 2 ^ bits }
    ensures { result ≡ number * span bits }
{
    number as u32 * (1 << (24 - bits))
}

/// NB: decimal, 0 to 255.
#[tactic(auto, unfolding(crate::specs::Fragments::split_bits_of))]
pub fn split_bits(word: &[u8]) -> Result<u8, ReadError>
    ensures { ReadsWord (λ bits. bits) result (split_bits_of word.now) }
{
    match number(word, 10) {
        Some(n) if n <= 255 => Ok(n as u8),
        _ => Err(NOT_COMMAND),
    }
}
