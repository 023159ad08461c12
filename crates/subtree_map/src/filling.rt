//! All leaves of a directory as roots.
ghost use Rattle.std.specs.Prelude.{◌≡◌, ◌≤◌, length};
ghost use Rattle.inode_table.specs.Dirs.{leaves_of};
ghost use Rattle.subtree_map.specs.Changes.{AreFilled};

use crate::moves::fill;
use crate::subtrees::Subtrees;
use inode_table::Dirs;
use mds_types::{Ino, Rank};

impl Subtrees {
    /// Makes each leaf of a directory that is no root one of this rank. There has to be room for as many roots as it
    /// has leaves. Takes no memory, and a search of the directory table for each leaf.
    pub fn fill(&mut self, dirs: &Dirs, dir: Ino, rank: Rank)
        requires room { length (leaves_of dirs.now.trees dir.0) ≤ self.old.room }
        ensures filled { AreFilled self.old.roots self.new.roots dir.0 (leaves_of dirs.now.trees dir.0) rank }
        ensures promises { self.new.promises ≡ self.old.promises }
    {
        fill(&mut self.lists, dirs, dir, rank);
    }
}
