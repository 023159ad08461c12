//! Lines from a reader, one after the other, in memory that is taken once.

pub mod buffer;
pub mod input;
