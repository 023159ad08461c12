//! Leaves made ready for changes of their names, and places kept for leaves that will come.
ghost use Rattle.std.specs.Prelude.{◌≡◌, ◌+◌, ◌⊎◌, ◌<◌, ◌≤◌, None, Some, OnOk, OnErr, IfErr};
ghost use Rattle.std.specs.Result.{result_err};
ghost use Rattle.std.specs.FinMap as map;
ghost use Rattle.mds_types.specs.Leaf.{leaf_of};
ghost use Rattle.objstore.specs.Objects.{faults_told};
ghost use Rattle.cached_frag.specs.Cached.{Cached};
ghost use Rattle.dentry_cache.specs.Cache.{HasCached, HasRoom, Leaf};
ghost use Rattle.dentry_cache.specs.CacheCalls.{KeepsNone};
ghost use Rattle.dentry_cache.specs.CacheMap.{here};
ghost use Rattle.dentry_cache.specs.CacheSplits.{IsKeptFor};
ghost use Rattle.dentry_cache.specs.Came.{IsThat, NoneEnds};
ghost use Rattle.mdcache.specs.CacheReads.{LacksPlacesIn};
ghost use Rattle.mdcache.specs.Core.{MayFetch, ReadsCore};
ghost use Rattle.mdcache.specs.Ranks.{KeepsOnlyAt};
ghost use Rattle.mdcache.specs.Reads.{MayNotFind};

use crate::mdcache::MdCache;
use mds_types::{Dirfrag, Refusal};
use objstore::Store;
use std::alloc::Global;

impl<S: Store + Drop> MdCache<S> {
    /// Makes sure that a leaf is cached at its rank and has room for so many changes (`bring`). Takes memory for a leaf
    /// that is read, and for the room.
    ///
    /// Refused as `fetch` is.
    pub(crate) fn ready_names(
        &mut self,
        alloc: Global,
        at: &Dirfrag,
        changes: usize,
    ) -> Result<(), Refusal>
        requires may { MayFetch self.old at.now }
        requires none { KeepsNone self.old.caches }
        ensures room { OnOk result
            (HasCached (here self.new.caches at.now.rank.0 (leaf_of at.now)) (λ (f : Cached). changes ≤ f.room)) }
        ensures reads { ReadsCore (IsThat at.now.rank.0 (leaf_of at.now)) NoneEnds self.old self.new }
        ensures none { KeepsNone self.new.caches }
        ensures refused { IfErr result
            (MayNotFind (LacksPlacesIn 1 self.old.caches at.now.rank.0) self.old.faults self.new.faults) }
        ensures counted { self.new.faults ≡ self.old.faults + faults_told (result_err result) }
    {
        if let Err(refusal) = self.bring(alloc, at) {
            return Err(refusal);
        }
        self.caches.reserve(*at, changes)?;
        Ok(())
    }

    /// Makes two leaves ready, which may be one: the first has room for two changes then, and the second for one; the
    /// first stays where it is while the second comes. Takes memory for leaves that are read, and for the room.
    ///
    /// Refused `NothingToEvict` where a rank has no place free and no fragment but the first can go, `StoreFault`, and
    /// `NoMemory`.
    pub(crate) fn ready_pair(
        &mut self,
        alloc: Global,
        from: &Dirfrag,
        to: &Dirfrag,
    ) -> Result<(), Refusal>
        requires from { MayFetch self.old from.now }
        requires to { MayFetch self.old to.now }
        requires one { ◌≡◌ {A = Leaf} (leaf_of from.now) (leaf_of to.now) → from.now.rank ≡ to.now.rank }
        requires none { KeepsNone self.old.caches }
        ensures source { OnOk result
            (HasCached (here self.new.caches from.now.rank.0 (leaf_of from.now)) (λ (f : Cached). 1 < f.room)) }
        ensures target { OnOk result (HasRoom (here self.new.caches to.now.rank.0 (leaf_of to.now))) }
        ensures reads { ReadsCore (λ r q. IsThat from.now.rank.0 (leaf_of from.now) r q
            ⊎ IsThat to.now.rank.0 (leaf_of to.now) r q) NoneEnds self.old self.new }
        ensures none { KeepsNone self.new.caches }
        ensures refused { IfErr result (MayNotFind (LacksPlacesIn 2 self.old.caches from.now.rank.0
            ⊎ LacksPlacesIn 2 self.old.caches to.now.rank.0) self.old.faults self.new.faults) }
        ensures counted { self.new.faults ≡ self.old.faults + faults_told (result_err result) }
    {
        if let Err(refusal) = self.ready_names(alloc, from, 2) {
            return Err(refusal);
        }
        self.ready_beside(alloc, to, from)
    }

    // Makes a leaf ready for one change, beside another one that is so for two and stays where it is.
    fn ready_beside(&mut self, alloc: Global, at: &Dirfrag, first: &Dirfrag) -> Result<(), Refusal>
        requires may { MayFetch self.old at.now }
        requires none { KeepsNone self.old.caches }
        requires first { HasCached (here self.old.caches first.now.rank.0 (leaf_of first.now))
            (λ (f : Cached). 1 < f.room) }
        ensures room { OnOk result (HasRoom (here self.new.caches at.now.rank.0 (leaf_of at.now))) }
        ensures stays { OnOk result
            (HasCached (here self.new.caches first.now.rank.0 (leaf_of first.now)) (λ (f : Cached). 1 < f.room)) }
        ensures reads { ReadsCore (λ r q. IsThat first.now.rank.0 (leaf_of first.now) r q
            ⊎ IsThat at.now.rank.0 (leaf_of at.now) r q) NoneEnds self.old self.new }
        ensures none { KeepsNone self.new.caches }
        ensures refused { IfErr result
            (MayNotFind (LacksPlacesIn 2 self.old.caches at.now.rank.0) self.old.faults self.new.faults) }
        ensures counted { self.new.faults ≡ self.old.faults + faults_told (result_err result) }
    {
        if let Err(refusal) = self.bring_beside(alloc, at, first) {
            return Err(refusal);
        }
        self.caches.reserve(*at, 1)?;
        Ok(())
    }

    /// Makes a leaf ready for one change, and keeps a place of the same rank for a leaf that will come, which isn't
    /// cached. The first stays where it is. Takes memory for both.
    ///
    /// Refused `NothingToEvict` where no place is free and no other fragment can go, `StoreFault`, and `NoMemory`. No
    /// place is kept then.
    pub(crate) fn ready_first(
        &mut self,
        alloc: Global,
        at: &Dirfrag,
        first: &Dirfrag,
    ) -> Result<(), Refusal>
        requires may { MayFetch self.old at.now }
        requires none { KeepsNone self.old.caches }
        requires rank { first.now.rank ≡ at.now.rank }
        requires absent { map.get self.old.caches.held (leaf_of first.now) ≡ None }
        requires apart { ◌≡◌ {A = Leaf} (leaf_of first.now) (leaf_of at.now) → ⊥ }
        ensures room { OnOk result (HasRoom (here self.new.caches at.now.rank.0 (leaf_of at.now))) }
        ensures place { OnOk result (IsKeptFor self.new.caches first.now.rank.0 (leaf_of first.now)) }
        ensures reads { ReadsCore (λ r q. IsThat at.now.rank.0 (leaf_of at.now) r q
            ⊎ IsThat first.now.rank.0 (leaf_of first.now) r q) NoneEnds self.old self.new }
        ensures only { OnOk result (KeepsOnlyAt (Some (first.now.rank, leaf_of first.now)) self.new.caches) }
        ensures absent { map.get self.new.caches.held (leaf_of first.now) ≡ None }
        ensures none { OnErr result (KeepsNone self.new.caches) }
        ensures refused { IfErr result
            (MayNotFind (LacksPlacesIn 2 self.old.caches at.now.rank.0) self.old.faults self.new.faults) }
        ensures counted { self.new.faults ≡ self.old.faults + faults_told (result_err result) }
    {
        if let Err(refusal) = self.ready_names(alloc, at, 1) {
            return Err(refusal);
        }
        self.caches.keep(alloc, *first, Some((at.dir, at.frag)))
    }
}
