//! A map in chunks: vectors of bounded length in the order of their keys, and a row that leads to them.

pub mod changes;
pub mod clones;
pub mod fingers;
pub mod lends;
pub mod map;
pub mod places;
pub mod ranges;
pub mod removals;
