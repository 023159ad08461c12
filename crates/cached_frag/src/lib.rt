//! One cached fragment of a directory: its names as they were fetched, the dirty names over them, and how many entries
//! it shows. And what a commit carries: the dirty names as a snapshot, the job that takes it out, and the one atomic
//! write that brings it back, whose type keeps that it is the write of its snapshot.
#![tactic(auto)]

mod bases;
mod copying;
mod counting;
mod dirty_names;
mod edits;
mod encoded;
mod fragments;
mod jobs;
pub mod laws;
mod loading;
mod marks;
mod moving;
mod named;
mod rows;
mod settling;
mod snapshots;
mod taking;
mod writes;

pub use bases::{Base, EntryCounts};
pub use dirty_names::DirtyNames;
pub use encoded::Encoded;
pub use fragments::CachedFrag;
pub use jobs::Job;
pub use marks::Mark;
pub use rows::Rows;
pub use snapshots::Snapshot;
