//! Inode numbers and the directory table: which numbers each rank hands out, and where each directory stands.
#![tactic(auto)]

mod boxed_tree;
mod counting;
mod dirs;
mod next_pinned;
mod next_tree;
mod numbers;
mod set_leaves;
mod settings;
mod table_changes;

pub use boxed_tree::BoxedTree;
pub use counting::count_entries;
pub use dirs::{Dirs, Home, LeafAt};
pub use numbers::Numbers;
pub use table_changes::{adopt_dir, count_move, drop_dir, relocate_dir};
