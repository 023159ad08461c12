//! Dirfrags: where a leaf of a directory lies.

use crate::frags::Frag;
use crate::ids::{Ino, Rank};

/// A leaf of a directory, and the rank that holds it: in its cache the fragment lies, if it is cached.
#[derive(Clone, Copy, Debug, PartialEq, Eq)]
pub struct Dirfrag {
    pub dir: Ino,
    pub frag: Frag,
    pub rank: Rank,
}
