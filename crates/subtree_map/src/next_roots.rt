//! The roots one behind the other.
ghost use Rattle.subtree_map.specs.Lists.{is_leaf_after};
ghost use Rattle.subtree_map.specs.Rows.{IsFirst};

use crate::subtrees::Subtrees;
use mds_types::{Frag, Ino};

impl Subtrees {
    /// The first root behind a leaf, or of all, by directory and then as fragments. Takes no memory, and a search in
    /// the list of each rank.
    pub fn next_root(&self, after: &Option<(Ino, Frag)>) -> Option<(Ino, Frag)>
        ensures { IsFirst self.now.roots (is_leaf_after after.now) result }
    {
        match after {
            Some(leaf) => self.lists.first_after(leaf.0, leaf.1),
            None => self.lists.first(),
        }
    }
}
