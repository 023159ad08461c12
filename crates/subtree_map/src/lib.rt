//! Whose fragment it is: the subtree roots, each with its rank, and the authority of every leaf, which is that of its
//! nearest root.
#![tactic(auto)]

mod bounds;
mod climb;
mod entries;
mod filling;
mod hints;
pub mod laws;
mod list_changes;
mod list_firsts;
mod list_learning;
mod list_rows;
mod lists;
mod merges;
mod moves;
mod next_roots;
mod promises;
mod removals;
mod roots;
mod splits;
mod subtrees;

pub use moves::end_of;
pub use roots::Roots;
pub use subtrees::Subtrees;
