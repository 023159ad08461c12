//! The leaves of one directory: fragments that cover every 24-bit hash exactly once, kept as splits from `*` on. A leaf
//! is split into its children, and the leaves inside a fragment are merged into it.
#![tactic(auto)]

mod closing;
mod compare;
mod descents;
mod iters;
pub mod laws;
mod making;
mod merge;
mod split;
mod tree;

pub use iters::Iter;
pub use tree::FragTree;
