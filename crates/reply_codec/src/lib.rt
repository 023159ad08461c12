//! A reply as bytes and back, each reply in a single spelling: how a store can keep what a client was told. The bytes
//! are a row of their own, so nothing follows them. Numbers are little endian. The first byte is the reply's kind, and
//! the rest depends on it:
//!
//! - 1, an entry: the inode.
//! - 2, entries: a byte, 1 if further names follow and 0 if none do; the count of the names in 8 bytes; each name
//!   behind its length in 1 byte, with its inode.
//! - 3, a target: its length in 2 bytes, and the target.
//! - 4, done: nothing.
//! - 5, an error: its number in 2 bytes.
//!
//! An inode is a kind in 1 byte (1 for a file, 2 for a directory, 3 for a link); number, size and time of the last
//! change in 8 bytes each; owner and group in 4 each; mode in 2; pin in 2 (0 for none, else the rank's number and 1);
//! the length of the link's target in 2 (0 for the other kinds); and the target. Each reply has bytes, even if no
//! record of `dirfrag_codec` allows its inodes.
#![tactic(auto)]

pub mod laws;
mod reading;
mod writing;

pub use reading::decode_reply;
pub use writing::encode_reply;
