//! A fragment that has names, or room for them: its maps, its counts and the calls that work on them.

pub mod copying;
pub mod edits;
pub mod fragments;
pub mod loading;
pub mod moving;
pub mod settling;
pub mod taking;
