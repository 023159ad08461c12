//! The caches of the ranks: of each the whole fragments of directories that it holds, the least recently used of which
//! goes where a place is needed. What isn't clean stays. A fragment that isn't there is read from its object in the
//! store.
#![tactic(auto)]

// what a dirfrag's object says, read as a cached fragment: its header, then its omap in pages, pair by pair
mod loading;
mod pairs;

// one rank's cache
mod cache;
mod candidates;
mod committing;
mod dividing;
mod editing;
mod eviction;
mod fetching;
mod gathering;
mod holding;
pub mod laws;
mod leaf_set;
mod parts;
mod place_iters;
mod place_lru;
mod reading;
mod splitting;
mod unclean;

// the caches of all ranks, each with the same number of places, as one map of fragments
mod caches;
mod ending;
mod handing;
mod next_candidates;
mod splits;
mod walking;

pub use caches::Caches;
pub use loading::load;
pub use parts::{Part, Parts};
pub use walking::PlacesByUse;
