//! Numbers that name things: inodes and ranks.

/// The number of an inode. The root directory is `Ino::ROOT`; every other number comes from a rank's range.
#[derive(Clone, Copy, Debug, PartialEq, Eq, PartialOrd, Ord, Hash)]
pub struct Ino(pub u64);

impl Ino {
    /// The root directory, which has no entry and is never removed.
    pub const ROOT: Ino = Ino(1);
}

/// The number of a metadata server rank: 0 to 15 in a book, any byte in an event.
#[derive(Clone, Copy, Debug, PartialEq, Eq, PartialOrd, Ord, Hash)]
pub struct Rank(pub u8);
