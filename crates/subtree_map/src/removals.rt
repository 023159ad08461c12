//! The roots where a directory goes.
ghost use Rattle.std.specs.Prelude.{◌≤◌};
ghost use Rattle.subtree_map.specs.Changes.{AreGone, DropsSoundly};

use crate::subtrees::Subtrees;
use mds_types::Ino;

impl Subtrees {
    /// A directory goes: none of its leaves is a root any more, and no promise of one is left. Takes no memory.
    pub fn drop(&mut self, dir: Ino)
        ensures roots { AreGone self.old.roots self.new.roots dir.0 }
        ensures promises { AreGone self.old.promises self.new.promises dir.0 }
        ensures authority { DropsSoundly self.old.roots self.new.roots dir.0 }
        ensures room { self.old.room ≤ self.new.room }
    {
        self.lists.drop_dir(dir);
    }
}
