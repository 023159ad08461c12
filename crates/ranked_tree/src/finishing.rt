//! The end of an export: the importer, which holds the region, is its authority.
ghost use Rattle.std.specs.Prelude.{◌≡◌, Some};
ghost use Rattle.export_steps.specs.Standing.{Finishes};
ghost use Rattle.mdcache.specs.Core.{state_of};
ghost use Rattle.ranked_tree.specs.Ranked.{held_roots};
ghost use Rattle.ranked_tree.specs.Subtrees.{AreRoots, KeepsOutside};

use crate::ranked_tree::RankedTree;
use mds_types::{Frag, Ino, Refusal};
use objstore::Store;

impl<S: Store + Drop> RankedTree<S> {
    /// Finish: the importer of an imported region is its authority, and the export is over, so that the region thaws,
    /// as `Exports::finish` does and refuses. The tree stays, and so does which rank holds each region. Takes no
    /// memory.
    pub fn finish(&mut self, dir: Ino, frag: Frag) -> Result<(), Refusal>
        ensures finished { Finishes self.old.exports self.new.exports self.old.subtrees self.new.subtrees
            (dir, frag) result }
        ensures tree { self.new.tree ≡ self.old.tree }
        ensures holders { held_roots self.new ≡ held_roots self.old }
        ensures others { KeepsOutside (Some (dir, frag)) (state_of self.old.tree)
            (state_of self.new.tree) self.old.subtrees.roots self.new.subtrees.roots }
        ensures valid { AreRoots (state_of self.new.tree) self.new.subtrees.roots }
    {
        self.regions
            .exports
            .finish(&mut self.regions.roots, dir, frag)
    }
}
