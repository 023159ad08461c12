//! A leaf of a directory is split: all is made ready for it first, and then it is done. The leaves of the directory are
//! set as the last thing that may be refused; what was made ready is given up then.
ghost use Rattle.std.specs.Prelude.{◌≡◌, ◌⊎◌, ◌+◌, ◌-◌, ◌≤◌, ◌<◌, ◌^◌, ◌∷◌, [], ℕ, Bool, true, None, length, map as each, OnOk, OnErr, IfOk, IfErr};
ghost use Rattle.std.specs.Result.{result_err};
ghost use Rattle.std.specs.FinMap as map;
ghost use Rattle.std.specs.List.{IsDistinct};
ghost use Rattle.mds_types.specs.Frag.{child_of};
ghost use Rattle.mds_types.specs.Leaf.{leaf_of};
ghost use Rattle.objstore.specs.Objects.{faults_told};
ghost use Rattle.mds_types.specs.declared.refusals.Refusal.TheVariants.{NoMemory};
ghost use Rattle.fragtree.specs.FragTree.{CanSplit, IsSplit, IsTree};
ghost use Rattle.cached_frag.specs.Cached.{Cached, shown_names};
ghost use Rattle.dentry_cache.specs.Cache.{HasCached, IsThere, Leaf, leaf_is};
ghost use Rattle.dentry_cache.specs.CacheCalls.{HasNoKeptPlace, KeepsNone};
ghost use Rattle.dentry_cache.specs.CacheMap.{here, order};
ghost use Rattle.dentry_cache.specs.CacheSplits.{HaveKeptPlaces, IsChildAt, IsFamilyAt, IsReadyAt, SplitsInto, without_children};
ghost use Rattle.dentry_cache.specs.Came.{Came};
ghost use Rattle.dentry_cache.specs.Divided.{AreNumbered};
ghost use Rattle.inode_table.specs.Dirs.{is_known, leaves_of};
ghost use Rattle.mdcache.specs.CacheReads.{LacksPlacesIn};
ghost use Rattle.mdcache.specs.Core.{IsSoundCore, LacksPlacesAt, MayFetch, ReadsCore, state_of};
ghost use Rattle.mdcache.specs.Ranks.{MayHold};
ghost use Rattle.mdcache.specs.Reads.{MayNotFind, has_none};
ghost use Rattle.mdcache.specs.Regrouping.{IsSplitReady, split_in};
ghost use Rattle.mdcache.specs.Regroups.{LacksCounts};
ghost use Rattle.mdcache.specs.Splits.{IsSplitInto, KeepsShownTree, without_objects};
ghost use Rattle.mdcache.specs.SplitsAndMerges.{IsUndone, SplitsFrag};

use crate::mdcache::MdCache;
use crate::purge_list::PurgeList;
use crate::regrouping::{child_count, take_counts};
use crate::split_plan::SplitPlan;
use dentry_cache::{Caches, Parts};
use mds_types::{Dirfrag, ObjText, Refusal};
use objstore::Store;
use std::alloc::Global;

/// What a split needs: what was planned, and its children with room for their names.
#[derive(Drop)]
pub struct Split {
    pub plan: SplitPlan,
    pub parts: Parts,
}

impl<S: Store + Drop> MdCache<S> {
    /// Splits a leaf that can be split by so many bits, at the rank that holds it: its children stand in its place,
    /// each with those of its names that it contains. They are fragments of the next generations, for which no object
    /// counts, and their names are dirty, all at the next version. The leaf's job ends, and its object is to be
    /// removed. Takes memory for the children and their names, and for the leaf, if it is read. All this is in the
    /// cache of that rank.
    ///
    /// Refused `NoInodes` exactly where no numbers are left, and then `NothingToEvict` where no more places of the
    /// cache are free or can become so than there would be children, `StoreFault`, and `NoMemory`.
    pub fn split(&mut self, alloc: Global, at: &Dirfrag, nb: u8) -> Result<(), Refusal>
        requires sound { IsSoundCore self.old }
        requires holds { MayHold self.old.caches at.now.rank (leaf_of at.now) }
        requires known { is_known self.old.homes at.now.dir.0 ≡ true }
        requires can { CanSplit (leaves_of self.old.covers at.now.dir.0) at.now.frag nb }
        ensures split { SplitsFrag
            (LacksPlacesAt (2 ^ nb + 1) self.old at.now.rank) self.old self.new at.now.dir at.now.frag nb result }
        ensures numbers { OnOk result (LacksCounts (2 ^ nb) (state_of self.old) → ⊥) }
        ensures came { Came (IsFamilyAt at.now.rank.0 at.now.dir at.now.frag nb)
            (IsFamilyAt at.now.rank.0 at.now.dir at.now.frag nb) self.old.caches self.new.caches }
        ensures counted { self.new.faults ≡ self.old.faults + faults_told (result_err result) }
        ensures sound { IsSoundCore self.new }
    {
        if let Err(refusal) = self.check_numbers(u64::from(child_count(nb))) {
            return Err(refusal);
        }
        self.split_leaf(alloc, at, nb)
    }

    // Splits a leaf that can be split, where numbers are left.
    fn split_leaf(&mut self, alloc: Global, at: &Dirfrag, nb: u8) -> Result<(), Refusal>
        requires sound { IsSoundCore self.old }
        requires holds { MayHold self.old.caches at.now.rank (leaf_of at.now) }
        requires known { is_known self.old.homes at.now.dir.0 ≡ true }
        requires can { CanSplit (leaves_of self.old.covers at.now.dir.0) at.now.frag nb }
        requires generations { self.old.next_generation + 2 ^ nb < 2 ^ 64 }
        requires version { self.old.next_version < 2 ^ 64 - 1 }
        ensures split { OnOk result (IsSplitInto (state_of self.old) (state_of self.new) at.now.dir at.now.frag nb) }
        ensures tree { OnOk result (KeepsShownTree (state_of self.old) (state_of self.new) at.now.dir (at.now.frag ∷ [])) }
        ensures undone { OnErr result (IsUndone self.old self.new) }
        ensures came { Came (IsFamilyAt at.now.rank.0 at.now.dir at.now.frag nb)
            (IsFamilyAt at.now.rank.0 at.now.dir at.now.frag nb) self.old.caches self.new.caches }
        ensures refused { IfErr result
            (MayNotFind (LacksPlacesAt (2 ^ nb + 1) self.old at.now.rank) self.old.faults self.new.faults) }
        ensures counted { self.new.faults ≡ self.old.faults + faults_told (result_err result) }
        ensures sound { IsSoundCore self.new }
    {
        let split = match self.prepare_split(alloc, at, nb) {
            Ok(split) => split,
            Err(refusal) => return Err(refusal),
        };
        if let Err(refusal) = self.commit_split(alloc, at, nb, split) {
            return Err(refusal);
        }
        Ok(())
    }

    // Makes all ready for a split of a leaf that can be split. Takes memory for all this, and for the leaf, if it is
    // read.
    //
    // Refused `NothingToEvict` where no more places are free or can become so than there will be children,
    // `StoreFault`, and `NoMemory`. No place is kept then.
    fn prepare_split(&mut self, alloc: Global, at: &Dirfrag, nb: u8) -> Result<Split, Refusal>
        requires sound { IsSoundCore self.old }
        requires holds { MayHold self.old.caches at.now.rank (leaf_of at.now) }
        requires known { is_known self.old.homes at.now.dir.0 ≡ true }
        requires can { CanSplit (leaves_of self.old.covers at.now.dir.0) at.now.frag nb }
        requires generations { self.old.next_generation + 2 ^ nb < 2 ^ 64 }
        ensures ready { IfOk result (IsSplitReady self.new at.now nb) }
        ensures only { OnOk result ((r : ℕ) (q : Leaf) → HasNoKeptPlace self.new.caches r q
            ⊎ IsChildAt at.now.rank.0 at.now.dir at.now.frag nb r q) }
        ensures distinct { OnOk result (IsDistinct leaf_is (order self.new.caches at.now.rank.0)) }
        ensures reads { ReadsCore (IsFamilyAt at.now.rank.0 at.now.dir at.now.frag nb)
            (IsFamilyAt at.now.rank.0 at.now.dir at.now.frag nb) self.old self.new }
        ensures sound { OnErr result (IsSoundCore self.new) }
        ensures undone { OnErr result (IsUndone self.old self.new) }
        ensures refused { IfErr result
            (MayNotFind (LacksPlacesAt (2 ^ nb + 1) self.old at.now.rank) self.old.faults self.new.faults) }
        ensures counted { self.new.faults ≡ self.old.faults + faults_told (result_err result) }
    {
        let plan = match self.plan_split(alloc, at, nb) {
            Ok(plan) => plan,
            Err(refusal) => return Err(refusal),
        };
        match self.ready_children(alloc, at, nb) {
            Ok(parts) => Ok(Split { plan, parts }),
            Err(refusal) => {
                drop(plan);
                Err(refusal)
            }
        }
    }

    // Makes sure that a leaf is cached, and keeps a place for each of its children, which have room for its names and the next
    // generations.
    fn ready_children(&mut self, alloc: Global, at: &Dirfrag, nb: u8) -> Result<Parts, Refusal>
        requires may { MayFetch self.old at.now }
        requires none { KeepsNone self.old.caches }
        requires absent { (i : ℕ) → i < 2 ^ nb → map.get self.old.caches.held
            (at.now.dir, child_of at.now.frag i nb) ≡ None }
        requires some { 1 ≤ nb }
        requires few { nb ≤ 8 }
        requires deep { at.now.frag.bits + nb ≤ 24 }
        requires generations { self.old.next_generation + 2 ^ nb < 2 ^ 64 }
        ensures ready { IfOk result (IsReadyAt at.now.rank.0 at.now.dir at.now.frag nb self.new.caches) }
        ensures numbered { IfOk result (AreNumbered self.new.next_generation) }
        ensures kept { OnOk result (HaveKeptPlaces self.new.caches at.now.rank.0 at.now.dir at.now.frag nb) }
        ensures only { OnOk result ((r : ℕ) (q : Leaf) → HasNoKeptPlace self.new.caches r q
            ⊎ IsChildAt at.now.rank.0 at.now.dir at.now.frag nb r q) }
        ensures none { OnErr result (KeepsNone self.new.caches) }
        ensures reads { ReadsCore (IsFamilyAt at.now.rank.0 at.now.dir at.now.frag nb)
            (IsFamilyAt at.now.rank.0 at.now.dir at.now.frag nb) self.old self.new }
        ensures absent { OnErr result
            ((i : ℕ) → i < 2 ^ nb → map.get self.new.caches.held (at.now.dir, child_of at.now.frag i nb) ≡ None) }
        ensures distinct { IsDistinct leaf_is (order self.new.caches at.now.rank.0) }
        ensures refused { IfErr result
            (MayNotFind (LacksPlacesIn (2 ^ nb + 1) self.old.caches at.now.rank.0) self.old.faults self.new.faults) }
        ensures counted { self.new.faults ≡ self.old.faults + faults_told (result_err result) }
    {
        if let Err(refusal) = self.bring(alloc, at) {
            return Err(refusal);
        }
        self.caches
            .ready_split(alloc, *at, nb, self.next.generation)
    }

    // Splits a leaf for which all is ready, in the directory table first: its names go to its children, its job ends,
    // the name of its object comes on the purge list, and those of the children's objects leave it. Takes memory for
    // the table's leaves, and one search. Refused for want of it alone; the children's places are given up then.
    fn commit_split(
        &mut self,
        alloc: Global,
        at: &Dirfrag,
        nb: u8,
        split: Split,
    ) -> Result<(), Refusal>
        requires there { at.now.rank.0 < length self.old.caches.used }
        requires ready { IsSplitReady self.old at.now nb split }
        requires known { is_known self.old.homes at.now.dir.0 ≡ true }
        requires can { CanSplit (leaves_of self.old.covers at.now.dir.0) at.now.frag nb }
        requires generations { self.old.next_generation + 2 ^ nb < 2 ^ 64 }
        requires version { self.old.next_version < 2 ^ 64 - 1 }
        ensures places { OnOk result
            (SplitsInto at.now.rank.0 at.now.dir at.now.frag nb split.parts self.old.next_version
            self.old.caches self.new.caches) }
        ensures divided { OnOk result
            (IsSplit (leaves_of self.old.covers at.now.dir.0) (leaves_of self.new.covers at.now.dir.0) at.now.frag nb) }
        ensures whole { OnOk result (IsTree (leaves_of self.new.covers at.now.dir.0)) }
        ensures split { OnOk result
            ((empty : Bool) × HasCached (here self.old.caches at.now.rank.0 (leaf_of at.now))
            (λ (f : Cached). empty ≡ has_none (shown_names f))
            × (self.new ≡ split_in self.old at.now nb split.plan
            (leaves_of self.new.covers at.now.dir.0) empty self.new.caches self.new.room)) }
        ensures left { OnErr result
            (self.new ≡ record self.old
            { caches = without_children at.now.rank.0 at.now.dir at.now.frag nb (2 ^ nb) self.old.caches }) }
        ensures refused { IfErr result (λ reason. reason ≡ NoMemory) }
    {
        if let Err(refusal) = self.dirs.split(alloc, at.dir, at.frag, nb) {
            self.caches.drop_children(*at, nb);
            drop(split);
            return Err(refusal);
        }
        let empty = is_cached_empty(&self.caches, at);
        let version = self.next.version;
        let Split { plan, parts } = split;
        let SplitPlan { object, children } = plan;
        self.caches.split_into(*at, nb, parts, version);
        self.jobs.end(at.dir, at.frag);
        self.purge.put(object);
        unlist(&mut self.purge, &children);
        take_counts(&mut self.next, u64::from(child_count(nb)), empty);
        Ok(())
    }
}

// Takes these names off the list.
fn unlist(purge: &mut PurgeList, names: &Vec<ObjText>)
    ensures { purge.new.names ≡ without_objects purge.old.names names.now.items }
{
    for name in names {
        purge.remove(name);
    }
}

// Whether a cached fragment shows no name.
fn is_cached_empty(caches: &Caches, at: &Dirfrag) -> bool
    requires there { at.now.rank.0 < length caches.now.used }
    requires cached { IsThere (here caches.now at.now.rank.0 (leaf_of at.now)) }
    ensures { HasCached (here caches.now at.now.rank.0 (leaf_of at.now)) (λ (f : Cached). result ≡ has_none (shown_names f)) }
{
    match caches.get(*at) {
        Some(fragment) => fragment.len() == 0,
        None => true,
    }
}
