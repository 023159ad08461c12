//! Fragments in memory, kept in the plainest way: a second implementation of `namespace_ops::Frags`, under the same
//! clauses as that of the cache over a store. Tests of the operations run over it, and no crate of the program.
#![tactic(auto)]

mod changes;
mod frags;
mod listing;

pub use frags::PlainFrags;
