//! Memory for one line.
ghost use Rattle.std.specs.Prelude.{◌≡◌, ◌+◌, ◌≤◌, length, take, drop, [], ◌++◌, true, false, IfOk};

use std::alloc::{AllocError, Global};
use std::io;
use std::marker::Model;

/// The most bytes that a line has, its LF not counted.
pub const MAX_LINE_LEN: usize = 16_384;

/// Room for one line, the line that was read into it last, and whether a reader of it has failed. Its memory never
/// grows.
#[derive(Drop)]
pub struct LineBuffer {
    // as many bytes as the longest line has; the line is the first `len` of them
    room: Vec<u8>,
    len: usize,
    has_failed: bool,
}

impl Model for LineBuffer {
    ghost use Rattle.std.specs.Prelude.{◌≡◌, ◌≤◌, length, take};
    ghost use Rattle.std.specs.Coded.{codes};
    ghost use Rattle.script_text.specs.Input.{Buffered};

    ghost Value = { Buffered };

    ghost coded = { Prim.hlevel codes };

    ghost view = { λ line. record { line = take line.len line.room.items; failed = line.has_failed } };

    ghost invariant = { λ line. (line.len ≤ 16384) × (length line.room.items ≡ 16384) };
}

impl LineBuffer {
    /// A buffer with an empty line, of which no reader has failed. Takes all the memory that reading lines takes.
    pub fn new(alloc: Global) -> Result<LineBuffer, AllocError>
        ensures { IfOk result (λ buffer. buffer ≡ record { line = []; failed = false }) }
    {
        let mut room = Vec::new(alloc);
        room.resize(MAX_LINE_LEN, 0)?;
        Ok(LineBuffer {
            room,
            len: 0,
            has_failed: false,
        })
    }

    /// The line.
    pub fn as_bytes(&self) -> &[u8]
        ensures bytes { result.now ≡ self.now.line }
        ensures short { length self.now.line ≤ 16384 }
    {
        &self.room[..self.len]
    }

    /// Makes the line empty.
    pub(crate) fn clear(&mut self)
        ensures { self.new ≡ record self.old { line = [] } }
    {
        self.len = 0;
    }

    /// Notes that the reader has failed, with this error of its own.
    pub(crate) fn fail(&mut self, _error: io::Error)
        ensures { self.new ≡ record self.old { failed = true } }
    {
        self.has_failed = true;
    }

    /// Puts bytes at the end of the line.
    pub(crate) fn append(&mut self, bytes: &[u8])
        requires { length self.old.line + length bytes.now ≤ 16384 }
        ensures { self.new ≡ record self.old { line = self.old.line ++ bytes.now } }
    {
        put_in(self.room.as_mut_slice(), self.len, bytes);
        self.len += bytes.len();
    }
}

// Puts bytes at a place of the room, in place of as many.
fn put_in(room: &mut [u8], at: usize, bytes: &[u8])
    requires { at + length bytes.now ≤ length room.old }
    ensures { room.new ≡ take at room.old ++ bytes.now ++ drop (at + length bytes.now) room.old }
{
    let (_, behind) = room.split_at_mut(at);
    let (place, _) = behind.split_at_mut(bytes.len());
    place.copy_from_slice(bytes);
}
