//! The steps of an export before Send: each leaves every leaf its holder.
ghost use Rattle.std.specs.Prelude.{◌≡◌, ◌≢◌, ◌<◌, ◌≤◌, Some, OnOk, OnErr, length};
ghost use Rattle.std.specs.FinMap as map;
ghost use Rattle.inode_table.specs.Dirs.{IsLive};
ghost use Rattle.export_steps.specs.declared.exports.StandingExport.{StandingExport};
ghost use Rattle.export_steps.specs.Standing.{Cancels, Freezes, Preps, Starts};
ghost use Rattle.mdcache.specs.Core.{state_of};
ghost use Rattle.ranked_tree.specs.Exported.{EndsRegion};
ghost use Rattle.ranked_tree.specs.Ranked.{IsFrozenLeaf, held_roots};
ghost use Rattle.ranked_tree.specs.Subtrees.{AreRoots, KeepsAuthorities, Rules};

use crate::ending_jobs::end_region;
use crate::ranked_tree::RankedTree;
use mds_types::{Frag, Ino, Rank, Refusal};
use objstore::Store;
use std::alloc::Global;

impl<S: Store + Drop> RankedTree<S> {
    /// Start: records the exporter and the importer of a root's region, which are two ranks that there are, as
    /// `Exports::start` does and refuses. The tree and the roots stay, and so does which rank holds each region.
    pub fn start(
        &mut self,
        dir: Ino,
        frag: Frag,
        exporter: Rank,
        importer: Rank,
    ) -> Result<(), Refusal>
        requires exporter { exporter.0 < length self.old.tree.caches.used }
        requires importer { importer.0 < length self.old.tree.caches.used }
        requires few { length self.old.tree.caches.used ≤ 16 }
        requires apart { exporter.0 ≢ importer.0 }
        ensures started { Starts self.old.exports self.new.exports (dir, frag) exporter importer result }
        ensures tree { self.new.tree ≡ self.old.tree }
        ensures roots { self.new.subtrees ≡ self.old.subtrees }
        ensures holders { held_roots self.new ≡ held_roots self.old }
    {
        self.regions.exports.start(dir, frag, exporter, importer)
    }

    /// Freeze: a leaf of a started export, whose authority is the exporter and which isn't frozen, is a subtree root of
    /// the exporter, as `Exports::freeze` makes it and refuses. Its region changes no more from now on: the jobs of its
    /// leaves end. No leaf gets another authority, nor another rank that holds it.
    pub fn freeze(&mut self, dir: Ino, frag: Frag) -> Result<(), Refusal>
        requires live { IsLive self.old.tree.homes self.old.tree.covers (dir, frag) }
        requires thawed { IsFrozenLeaf self.old (dir, frag) → ⊥ }
        requires mine { (export : StandingExport) → map.get self.old.exports (dir, frag) ≡ Some export
            → Rules (state_of self.old.tree) self.old.subtrees.roots (dir, frag) export.exporter }
        ensures frozen { Freezes self.old.exports self.new.exports self.old.subtrees self.new.subtrees
            (dir, frag) result }
        ensures ended { OnOk result
            (EndsRegion (state_of self.old.tree) (state_of self.new.tree) self.new.subtrees.roots (dir, frag)) }
        ensures left { OnErr result (self.new.tree ≡ self.old.tree) }
        ensures caches { self.new.tree.caches ≡ self.old.tree.caches }
        ensures faults { self.new.tree.faults ≡ self.old.tree.faults }
        ensures authorities { KeepsAuthorities (state_of self.old.tree)
            (state_of self.new.tree) self.old.subtrees.roots self.new.subtrees.roots }
        ensures holders { KeepsAuthorities (state_of self.old.tree) (state_of self.new.tree)
            (held_roots self.old) (held_roots self.new) }
        ensures valid { AreRoots (state_of self.new.tree) self.new.subtrees.roots }
    {
        self.regions
            .exports
            .freeze(&mut self.regions.roots, dir, frag)?;
        end_region(&mut self.tree, &self.regions.roots, &(dir, frag));
        Ok(())
    }

    /// Prep: the importer of a frozen region gets to know its bounds, and its root is promised to it, as
    /// `Exports::prep` does and refuses. The tree and the roots stay, and so does which rank holds each region.
    pub fn prep(&mut self, alloc: Global, dir: Ino, frag: Frag) -> Result<(), Refusal>
        ensures prepared { Preps self.old.exports self.new.exports self.old.subtrees self.new.subtrees
            (dir, frag) result }
        ensures tree { self.new.tree ≡ self.old.tree }
        ensures roots { self.new.subtrees.roots ≡ self.old.subtrees.roots }
        ensures holders { held_roots self.new ≡ held_roots self.old }
    {
        self.regions.exports.prep(&mut self.regions.roots, alloc, self.tree.dirs(), dir, frag)
    }

    /// Cancel: an export that isn't sent yet is over, and its region thaws, as `Exports::cancel` does and refuses. The
    /// tree and the roots stay, and so does which rank holds each region. Takes no memory.
    pub fn cancel(&mut self, dir: Ino, frag: Frag) -> Result<(), Refusal>
        ensures cancelled { Cancels self.old.exports self.new.exports self.old.subtrees self.new.subtrees
            (dir, frag) result }
        ensures tree { self.new.tree ≡ self.old.tree }
        ensures roots { self.new.subtrees.roots ≡ self.old.subtrees.roots }
        ensures holders { held_roots self.new ≡ held_roots self.old }
    {
        self.regions
            .exports
            .cancel(&mut self.regions.roots, dir, frag)
    }
}
