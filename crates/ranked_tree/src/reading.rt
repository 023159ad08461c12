//! Reads that ask the tree alone, and no fragment. None takes memory.
ghost use Rattle.std.specs.Prelude.{◌≡◌, true, IsTrue, ◌↔◌, OnOk, IfErr, IfOk, length};
ghost use Rattle.mds_types.specs.Tree.{is_directory};
ghost use Rattle.fragtree.specs.FragTree.{CanMerge, CanSplit, RefusesMerge, RefusesSplit};
ghost use Rattle.inode_table.specs.Dirs.{IsLive, RefusesLeaves, is_known, leaves_of};
ghost use Rattle.dentry_cache.specs.CacheMap.{AreCaches};
ghost use Rattle.mdcache.specs.Core.{state_of};
ghost use Rattle.mdcache.specs.Shown.{shown_tree};
ghost use Rattle.mdcache.specs.Sound.{IsSound};
ghost use Rattle.ranked_tree.specs.Exported.{StandSoundly};
ghost use Rattle.ranked_tree.specs.Held.{IsOwned};
ghost use Rattle.ranked_tree.specs.Ranked.{held_roots};
ghost use Rattle.ranked_tree.specs.Subtrees.{Rules};

use crate::authorities::holder_to_split;
use crate::ranked_tree::RankedTree;
use inode_table::Dirs;
use mds_types::{Frag, Ino, Rank, Refusal};
use objstore::Store;

impl<S: Store + Drop> RankedTree<S> {
    /// Tells what every tree keeps: it is sound, the roots are its own, a rank caches only leaves that it holds and has
    /// places of no other live leaf, the exports stand soundly, and each rank caches at most as many as it has places.
    pub fn is_sound(&self)
        ensures owned { IsOwned self.now.tree (held_roots self.now) }
        ensures stand { StandSoundly (state_of self.now.tree)
            (length self.now.tree.caches.used) self.now.subtrees self.now.exports }
        ensures caches { AreCaches self.now.tree.caches }
    {
        // The contract of `ranks` is what says it of the caches.
        let _ = self.tree.ranks();
    }

    /// The store.
    pub fn store(&self) -> &S
        ensures objects { S.objects result.now ≡ self.now.tree.objects }
        ensures faults { S.faults result.now ≡ self.now.tree.faults }
    {
        self.tree.store()
    }

    /// Which directories there are, and the leaves and the pin of each.
    pub fn dirs(&self) -> &Dirs
        ensures homes { result.now.homes ≡ self.now.tree.homes }
        ensures trees { result.now.trees ≡ self.now.tree.covers }
        ensures pins { result.now.pins ≡ self.now.tree.pins }
    {
        self.tree.dirs()
    }

    /// Whether this is the number of a directory of the tree now.
    pub fn is_dir(&self, dir: Ino) -> bool
        ensures { result ≡ is_directory (shown_tree (state_of self.now.tree)) dir.0 }
    {
        self.tree.is_dir(dir)
    }

    /// Whether there is such a directory, and it has this leaf.
    pub fn has_leaf(&self, dir: Ino, frag: Frag) -> bool
        ensures { IsTrue result ↔ IsLive self.now.tree.homes self.now.tree.covers (dir, frag) }
    {
        self.tree.has_leaf(dir, frag)
    }

    /// The rank that holds a leaf which can be split by so many bits; `rank` is asked first. Refused as
    /// `Dirs::check_split` is. Takes one search of the directory table, and for a leaf that the rank doesn't cache one
    /// more for each directory up to the nearest root.
    pub fn check_split(&self, rank: Rank, dir: Ino, frag: Frag, bits: u8) -> Result<Rank, Refusal>
        ensures known { OnOk result (is_known self.now.tree.homes dir.0 ≡ true) }
        ensures can { OnOk result (CanSplit (leaves_of self.now.tree.covers dir.0) frag bits) }
        ensures holder { IfOk result (Rules (state_of self.now.tree) (held_roots self.now) (dir, frag)) }
        ensures refused { IfErr result
            (RefusesLeaves (RefusesSplit (leaves_of self.now.tree.covers dir.0) frag bits) self.now.tree.homes dir) }
        ensures sound { IsSound (state_of self.now.tree) }
    {
        holder_to_split(&self.tree, &self.regions, rank, dir, frag, bits)
    }

    /// Whether there is such a directory, and leaves of it can be merged at a fragment, as `MdCache::check_merge` tells
    /// and refuses.
    pub fn check_merge(&self, dir: Ino, frag: Frag) -> Result<(), Refusal>
        ensures known { OnOk result (is_known self.now.tree.homes dir.0 ≡ true) }
        ensures can { OnOk result (CanMerge (leaves_of self.now.tree.covers dir.0) frag) }
        ensures refused { IfErr result
            (RefusesLeaves (RefusesMerge (leaves_of self.now.tree.covers dir.0) frag) self.now.tree.homes dir) }
        ensures sound { IsSound (state_of self.now.tree) }
    {
        self.tree.check_merge(dir, frag)
    }
}
