//! What a store says on its own: a walk over its objects from directory 1 on finds all entries and directories, names
//! an object that is faulty, and tells which objects it didn't reach. It writes nothing.
#![tactic(auto)]

// what was found so far
mod found;

// the walk: directory by directory, leaf by leaf, name by name
mod reading;
mod walking;

// what it ends in: the names of other objects beside what was found, and each rank's next number
mod remaining;
mod walked;

// what follows from the definition
pub mod laws;

pub use walked::Walked;
pub use walking::walk;
