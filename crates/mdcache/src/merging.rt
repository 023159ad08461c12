//! Leaves of a directory are merged: all is made ready for it first, and then it is done, which can't fail.
ghost use Rattle.std.specs.Prelude.{◌≡◌, ◌⊎◌, ◌+◌, ◌-◌, ◌<◌, ◌^◌, true, None, Some, length, OnOk, OnErr, IfOk, IfErr};
ghost use Rattle.std.specs.Result.{result_err};
ghost use Rattle.std.specs.FinMap as map;
ghost use Rattle.std.specs.List.{Contains};
ghost use Rattle.mds_types.specs.Leaf.{leaf_of};
ghost use Rattle.objstore.specs.Objects.{faults_told};
ghost use Rattle.fragtree.specs.FragTree.{CanMerge, RefusesMerge};
ghost use Rattle.dentry_cache.specs.Cache.{Leaf};
ghost use Rattle.dentry_cache.specs.CacheCalls.{KeepsNone};
ghost use Rattle.dentry_cache.specs.CacheSplits.{IsKeptFor};
ghost use Rattle.dentry_cache.specs.Came.{Came, NoneEnds};
ghost use Rattle.inode_table.specs.Dirs.{RefusesLeaves, is_known, leaves_of};
ghost use Rattle.mdcache.specs.Core.{IsSoundCore, LacksPlacesAt, ReadsCore, state_of};
ghost use Rattle.mdcache.specs.Joining.{IsAmongOr};
ghost use Rattle.mdcache.specs.Ranks.{KeepsOnlyAt, MayHold};
ghost use Rattle.mdcache.specs.Reads.{MayNotFind};
ghost use Rattle.mdcache.specs.Regrouping.{IsMergeReady, ending_at, merged_in};
ghost use Rattle.mdcache.specs.Regroups.{LacksCounts};
ghost use Rattle.mdcache.specs.Splits.{IsMergedInto, KeepsShownTree};
ghost use Rattle.mdcache.specs.SplitsAndMerges.{IsUndone, MergesFrags, merged_leaves};

use crate::mdcache::MdCache;
use crate::merge_plan::MergePlan;
use crate::regrouping::{object_name, take_counts};
use cached_frag::CachedFrag;
use inode_table::Dirs;
use mds_types::{Dirfrag, Frag, Ino, Refusal};
use objstore::Store;
use std::alloc::Global;

/// What a merge needs: what was planned, and the fragment that has the leaves' names.
#[derive(Drop)]
pub struct Merge {
    pub plan: MergePlan,
    pub joined: CachedFrag,
}

impl<S: Store + Drop> MdCache<S> {
    /// Whether there is such a directory, and leaves of it lie properly inside the fragment, not too many to merge
    /// them: as `merge` asks for. Takes no memory.
    ///
    /// Refused `NoSuchFrag` where no leaf lies properly inside the fragment, and `TooManyFrags` where too many do.
    pub fn check_merge(&self, dir: Ino, frag: Frag) -> Result<(), Refusal>
        ensures known { OnOk result (is_known self.now.homes dir.0 ≡ true) }
        ensures can { OnOk result (CanMerge (leaves_of self.now.covers dir.0) frag) }
        ensures refused { IfErr result
            (RefusesLeaves (RefusesMerge (leaves_of self.now.covers dir.0) frag) self.now.homes dir) }
    {
        can_merge(&self.dirs, dir, frag)
    }

    /// Merges the leaves of a directory properly inside a fragment, which can be merged, at the one rank that holds
    /// them: the fragment stands in their place, with all their names. It is of the next generation, no object counts
    /// for it, and its names are dirty, all at the next version. The jobs of the leaves end, and their objects are to
    /// be removed. The leaves are fetched one after the other. Takes memory for copies of their names, and for a leaf
    /// that is read. All this is in the cache of that rank.
    ///
    /// Refused `NoInodes` exactly where no numbers are left, and then `NothingToEvict` where no place of the cache is
    /// free and none can become so, `StoreFault`, and `NoMemory`.
    pub fn merge(&mut self, alloc: Global, at: &Dirfrag) -> Result<(), Refusal>
        requires sound { IsSoundCore self.old }
        requires there { at.now.rank.0 < length self.old.caches.used }
        requires holds { (q : Leaf) → Contains (ending_at self.old at.now) q → MayHold self.old.caches at.now.rank q }
        requires known { is_known self.old.homes at.now.dir.0 ≡ true }
        requires can { CanMerge (leaves_of self.old.covers at.now.dir.0) at.now.frag }
        ensures merged { MergesFrags
            (LacksPlacesAt 1 self.old at.now.rank) self.old self.new at.now.dir at.now.frag result }
        ensures numbers { OnOk result (LacksCounts 1 (state_of self.old) → ⊥) }
        ensures came { Came (IsAmongOr at.now.rank.0 (ending_at self.old at.now) (leaf_of at.now))
            (λ r q. Contains (ending_at self.old at.now) q) self.old.caches self.new.caches }
        ensures counted { self.new.faults ≡ self.old.faults + faults_told (result_err result) }
        ensures sound { IsSoundCore self.new }
    {
        if let Err(refusal) = self.check_numbers(1) {
            return Err(refusal);
        }
        self.merge_leaves(alloc, at)
    }

    // Merges leaves that can be merged, where numbers are left.
    fn merge_leaves(&mut self, alloc: Global, at: &Dirfrag) -> Result<(), Refusal>
        requires sound { IsSoundCore self.old }
        requires there { at.now.rank.0 < length self.old.caches.used }
        requires holds { (q : Leaf) → Contains (ending_at self.old at.now) q → MayHold self.old.caches at.now.rank q }
        requires known { is_known self.old.homes at.now.dir.0 ≡ true }
        requires can { CanMerge (leaves_of self.old.covers at.now.dir.0) at.now.frag }
        requires generation { self.old.next_generation + 1 < 2 ^ 64 }
        requires version { self.old.next_version < 2 ^ 64 - 1 }
        ensures merged { OnOk result (IsMergedInto (state_of self.old) (state_of self.new) at.now.dir at.now.frag) }
        ensures tree { OnOk result
            (KeepsShownTree (state_of self.old) (state_of self.new) at.now.dir
            (merged_leaves self.old at.now.dir at.now.frag)) }
        ensures undone { OnErr result (IsUndone self.old self.new) }
        ensures came { Came (IsAmongOr at.now.rank.0 (ending_at self.old at.now) (leaf_of at.now))
            (λ r q. Contains (ending_at self.old at.now) q) self.old.caches self.new.caches }
        ensures refused { IfErr result
            (MayNotFind (LacksPlacesAt 1 self.old at.now.rank) self.old.faults self.new.faults) }
        ensures counted { self.new.faults ≡ self.old.faults + faults_told (result_err result) }
        ensures sound { IsSoundCore self.new }
    {
        match self.prepare_merge(alloc, at) {
            Ok(merge) => {
                self.commit_merge(at, merge);
                Ok(())
            }
            Err(refusal) => Err(refusal),
        }
    }

    // Makes all ready for a merge of leaves that can be merged. Takes memory for all this, and for a leaf that is read.
    //
    // Refused `NothingToEvict` where no place is free and none can become so, `StoreFault`, and `NoMemory`. No place is
    // kept then.
    fn prepare_merge(&mut self, alloc: Global, at: &Dirfrag) -> Result<Merge, Refusal>
        requires sound { IsSoundCore self.old }
        requires there { at.now.rank.0 < length self.old.caches.used }
        requires holds { (q : Leaf) → Contains (ending_at self.old at.now) q → MayHold self.old.caches at.now.rank q }
        requires known { is_known self.old.homes at.now.dir.0 ≡ true }
        requires can { CanMerge (leaves_of self.old.covers at.now.dir.0) at.now.frag }
        ensures ready { IfOk result (IsMergeReady self.new at.now) }
        ensures only { OnOk result (KeepsOnlyAt (Some (at.now.rank, leaf_of at.now)) self.new.caches) }
        ensures reads { ReadsCore
            (IsAmongOr at.now.rank.0 (ending_at self.old at.now) (leaf_of at.now)) NoneEnds self.old self.new }
        ensures sound { OnErr result (IsSoundCore self.new) }
        ensures undone { OnErr result (IsUndone self.old self.new) }
        ensures refused { IfErr result
            (MayNotFind (LacksPlacesAt 1 self.old at.now.rank) self.old.faults self.new.faults) }
        ensures counted { self.new.faults ≡ self.old.faults + faults_told (result_err result) }
    {
        let plan = match self.plan_merge(alloc, at) {
            Ok(plan) => plan,
            Err(refusal) => return Err(refusal),
        };
        match self.join_names(alloc, at, &plan.leaves) {
            Ok(joined) => Ok(Merge { plan, joined }),
            Err(refusal) => {
                drop(plan);
                Err(refusal)
            }
        }
    }

    // Merges leaves for which all is ready, and takes the numbers of the fragment that comes and of its names. Takes no
    // memory, and can't fail.
    fn commit_merge(&mut self, at: &Dirfrag, merge: Merge)
        requires there { at.now.rank.0 < length self.old.caches.used }
        requires ready { IsMergeReady self.old at.now merge }
        requires only { KeepsOnlyAt (Some (at.now.rank, leaf_of at.now)) self.old.caches }
        requires known { is_known self.old.homes at.now.dir.0 ≡ true }
        requires generation { self.old.next_generation + 1 < 2 ^ 64 }
        requires version { self.old.next_version < 2 ^ 64 - 1 }
        ensures merged { self.new ≡ merged_in self.old at.now merge.plan merge.joined self.new.room }
        ensures none { KeepsNone self.new.caches }
    {
        let Merge { plan, joined } = merge;
        let MergePlan { leaves, cover } = plan;
        let empty = joined.len() == 0;
        self.dirs.set_tree(at.dir, cover);
        self.caches.fill(*at, joined);
        self.end_leaves(at.dir, &leaves);
        drop(leaves);
        self.purge.remove(&object_name(at.dir, at.frag));
        take_counts(&mut self.next, 1, empty);
    }
}

// Whether there is such a directory, and leaves of it can be merged at a fragment. Takes no memory.
fn can_merge(dirs: &Dirs, dir: Ino, frag: Frag) -> Result<(), Refusal>
    ensures known { OnOk result (is_known dirs.now.homes dir.0 ≡ true) }
    ensures can { OnOk result (CanMerge (leaves_of dirs.now.trees dir.0) frag) }
    ensures refused { IfErr result
        (RefusesLeaves (RefusesMerge (leaves_of dirs.now.trees dir.0) frag) dirs.now.homes dir) }
{
    if !dirs.contains(dir) {
        return Err(Refusal::NoSuchFrag);
    }
    match dirs.check_merge(dir, frag) {
        Ok(()) => Ok(()),
        Err(refusal) => Err(refusal),
    }
}
