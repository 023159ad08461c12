//! What an object of the store is, read by its bytes alone, and which objects there are.
mod entries;
mod fragments;
mod laws;
mod lines;
mod trees;

pub use laws::object_has_one_line;
pub use lines::{object_line, objects_line};
