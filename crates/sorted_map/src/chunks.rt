//! Pairs in a row of chunks, of at most 64 pairs each, in whatever order their caller keeps: what an edit at a place of
//! one chunk is among all the pairs, and how many more pairs the row has room for.
//!
//! Memory is taken by `Chunks::grow` alone. Edits cannot fail, so a caller makes room first. `vectors` has the edits of
//! one vector that take no memory either.

mod chunk;
mod edits;
mod into_iters;
mod iters;
mod row;
pub mod vectors;

pub use chunk::{Chunk, HALF, MOST};
pub use edits::{put_new, put_value, take_out};
pub use into_iters::IntoIter;
pub use iters::Iter;
pub use row::Chunks;
