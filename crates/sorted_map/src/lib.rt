//! An ordered map that is kept as a vector in the order of its keys, and as vectors of bounded length where it is
//! large.
//!
//! Memory is taken by `reserve`, by a clone and by `overlay` alone. What changes a map after that cannot fail, so a
//! caller reserves all the room of a step first, and then makes changes that are sure to be made.
#![tactic(auto)]

mod chunked;
mod chunks;
mod clones;
mod compare;
mod edits;
mod fingers;
mod flat;
mod growth;
mod keys;
mod lends;
mod map;
mod places;
mod ranges;
mod removals;

pub use chunks::{IntoIter, Iter};
pub use fingers::Finger;
pub use keys::{ExactOrd, Probe};
pub use map::SortedMap;
