//! A map in one vector, in the order of its keys.

pub mod changes;
pub mod clones;
pub mod lends;
pub mod map;
pub mod ranges;
pub mod removals;
