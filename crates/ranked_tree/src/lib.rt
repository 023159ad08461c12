//! The tree with its subtrees: whose each leaf is (CephFS's subtree map), kept together with the directories and leaves
//! that it speaks of, and with the exports that stand (CephFS's Migrator). No change of the tree gives a leaf that
//! stays another authority or another holder. Each leaf is cached by the rank that holds it alone.
#![tactic(auto)]

mod authorities;
mod changing;
mod commits;
mod ending_jobs;
mod exporting;
mod finishing;
mod flushing;
mod formatting;
mod frags;
mod hints;
mod holding;
mod importing;
mod inside;
mod listing;
mod mounting;
mod ranked_tree;
mod reading;
mod regions;
mod regrouping;
mod sending;
mod sent_bytes;
mod sights;

pub use inside::leaf_inside;
pub use ranked_tree::RankedTree;
