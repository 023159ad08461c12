//! Short texts, put together from their end.
ghost use Rattle.std.specs.Prelude.{◌≡◌, ◌+◌, ◌≤◌, ◌++◌, [], length};
ghost use Rattle.std.specs.Fmt.{decimal};
ghost use Rattle.script_output.specs.Texts.{hexadecimal, octal};

use itoa::write_digits;
use mds_types::{Mode, write_digits_in};
use std::marker::Model;

// The most bytes of such a text: those of an entry's line and its LF, with the longest numbers, are fewer.
const ROOM: usize = 256;

/// The end of a text. It grows at its front, since the digits of a number come from the last to the first, so nothing
/// is moved, and no memory is taken.
#[derive(Drop)]
pub struct TextEnd {
    bytes: [u8; ROOM],
    start: usize,
}

impl Model for TextEnd {
    ghost use Rattle.std.specs.Prelude.{ℕ, ◌≤◌, List, drop};

    ghost Value = { List ℕ };

    ghost view = { λ text. drop text.start text.bytes };

    ghost invariant = { λ text. text.start ≤ 256 };
}

impl TextEnd {
    /// No text.
    pub fn new() -> TextEnd
        ensures { result ≡ [] }
    {
        TextEnd {
            bytes: [0; ROOM],
            start: ROOM,
        }
    }

    /// The text.
    pub fn as_bytes(&self) -> &[u8]
        ensures { result.now ≡ self.now }
    {
        &self.bytes[self.start..]
    }

    /// Puts bytes before the text.
    #[inline(always)]
    pub fn put(&mut self, bytes: &[u8])
        requires { length bytes.now + length self.old ≤ 256 }
        ensures text { self.new ≡ bytes.now ++ self.old }
        ensures long { length self.new ≡ length bytes.now + length self.old }
    {
        let start = self.start - bytes.len();
        self.bytes[start..self.start].copy_from_slice(bytes);
        self.start = start;
    }

    /// Puts a number before the text, in decimal.
    pub fn put_decimal(&mut self, n: u64)
        requires { 20 + length self.old ≤ 256 }
        ensures text { self.new ≡ decimal n ++ self.old }
        ensures long { length self.new ≤ 20 + length self.old }
    {
        self.start = write_digits(n, &mut self.bytes, self.start);
    }

    /// Puts a number before the text, in lower hexadecimal.
    pub fn put_hexadecimal(&mut self, n: u64)
        requires { 16 + length self.old ≤ 256 }
        ensures text { self.new ≡ hexadecimal n ++ self.old }
        ensures long { length self.new ≤ 16 + length self.old }
    {
        self.start = write_digits_in(16, n, &mut self.bytes, self.start);
    }

    /// Puts a mode before the text, in octal.
    pub fn put_mode(&mut self, mode: Mode)
        requires { 4 + length self.old ≤ 256 }
        ensures text { self.new ≡ octal mode ++ self.old }
        ensures long { length self.new ≤ 4 + length self.old }
    {
        let bits = mode.bits();
        self.start = write_digits_in(8, bits as u64, &mut self.bytes, self.start);
    }
}
