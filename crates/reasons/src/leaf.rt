//! A leaf of a directory, as a sentence has it.

use mds_types::{Frag, Ino};
use std::fmt;

/// A leaf of a directory, or a fragment that may be one.
#[derive(Clone, Copy)]
pub(crate) struct Leaf {
    pub(crate) dir: Ino,
    pub(crate) frag: Frag,
}

/// `INO:FRAG`
impl fmt::Display for Leaf {
    fn fmt<W: fmt::Write>(&self, f: &mut fmt::Formatter<W>) -> fmt::Result {
        let dir = self.dir.0;
        let frag = self.frag;
        write!(f, "{dir:x}:{frag}")
    }
}

/// The same as words of a line, `INO FRAG`.
#[derive(Clone, Copy)]
pub(crate) struct Words<'a>(pub(crate) &'a Leaf);

impl fmt::Display for Words<'_> {
    fn fmt<W: fmt::Write>(&self, f: &mut fmt::Formatter<W>) -> fmt::Result {
        let dir = self.0.dir.0;
        let frag = self.0.frag;
        write!(f, "{dir:x} {frag}")
    }
}
