//! Leaves come into the cache of the rank that holds them, and their names are looked up.
ghost use Rattle.std.specs.Prelude.{◌≡◌, ◌+◌, ◌⊎◌, OnOk, IfOk, IfErr, OnErr};
ghost use Rattle.std.specs.Result.{result_err};
ghost use Rattle.std.specs.FinMap as map;
ghost use Rattle.mds_types.specs.Leaf.{leaf_of};
ghost use Rattle.objstore.specs.Objects.{faults_told};
ghost use Rattle.cached_frag.specs.Cached.{Cached, shown_names};
ghost use Rattle.dentry_cache.specs.Cache.{HasCached, IsThere};
ghost use Rattle.dentry_cache.specs.CacheCalls.{KeepsNone};
ghost use Rattle.dentry_cache.specs.CacheMap.{AreCaches, here};
ghost use Rattle.dentry_cache.specs.Came.{IsThat, NoneEnds};
ghost use Rattle.mdcache.specs.CacheReads.{IsNewestOf, LacksPlacesIn};
ghost use Rattle.mdcache.specs.Core.{MayFetch, ReadsCore};
ghost use Rattle.mdcache.specs.Reads.{MayNotFind};

use crate::mdcache::MdCache;
use mds_types::{Dirfrag, Inode, Name, Refusal};
use objstore::Store;
use std::alloc::Global;

impl<S: Store + Drop> MdCache<S> {
    /// Makes sure that a leaf is cached at its rank, and makes it the most recently used there. A clean one that isn't
    /// there is read from the store. Takes memory for a leaf that is read.
    ///
    /// Refused `NothingToEvict` where no place of the rank is free and no fragment can go, `StoreFault`, and
    /// `NoMemory`.
    pub(crate) fn fetch(&mut self, alloc: Global, at: &Dirfrag) -> Result<(), Refusal>
        requires may { MayFetch self.old at.now }
        requires none { KeepsNone self.old.caches }
        ensures there { OnOk result (IsThere (here self.new.caches at.now.rank.0 (leaf_of at.now))) }
        ensures newest { OnOk result (IsNewestOf self.new.caches at.now.rank.0 (leaf_of at.now)) }
        ensures reads { ReadsCore (IsThat at.now.rank.0 (leaf_of at.now)) NoneEnds self.old self.new }
        ensures none { KeepsNone self.new.caches }
        ensures refused { IfErr result
            (MayNotFind (LacksPlacesIn 1 self.old.caches at.now.rank.0) self.old.faults self.new.faults) }
        ensures counted { self.new.faults ≡ self.old.faults + faults_told (result_err result) }
        ensures valid { AreCaches self.old.caches }
    {
        self.caches.fetch(alloc, &mut self.store, *at, None)
    }

    /// Makes sure that a leaf is cached at its rank, as `fetch` does, but one that is there stays where it is in the order
    /// of use: the operation looked into it before, and that was its use.
    pub(crate) fn bring(&mut self, alloc: Global, at: &Dirfrag) -> Result<(), Refusal>
        requires may { MayFetch self.old at.now }
        requires none { KeepsNone self.old.caches }
        ensures there { OnOk result (IsThere (here self.new.caches at.now.rank.0 (leaf_of at.now))) }
        ensures reads { ReadsCore (IsThat at.now.rank.0 (leaf_of at.now)) NoneEnds self.old self.new }
        ensures none { KeepsNone self.new.caches }
        ensures refused { IfErr result
            (MayNotFind (LacksPlacesIn 1 self.old.caches at.now.rank.0) self.old.faults self.new.faults) }
        ensures counted { self.new.faults ≡ self.old.faults + faults_told (result_err result) }
        ensures valid { AreCaches self.old.caches }
    {
        if self.caches.is_cached(*at) {
            return Ok(());
        }
        self.fetch(alloc, at)
    }

    /// As `fetch`, beside another leaf that is cached, at the same rank or not, and stays as it is.
    pub(crate) fn fetch_beside(
        &mut self,
        alloc: Global,
        at: &Dirfrag,
        first: &Dirfrag,
    ) -> Result<(), Refusal>
        requires may { MayFetch self.old at.now }
        requires none { KeepsNone self.old.caches }
        requires first { IsThere (here self.old.caches first.now.rank.0 (leaf_of first.now)) }
        ensures there { OnOk result (IsThere (here self.new.caches at.now.rank.0 (leaf_of at.now))) }
        ensures stays { here self.new.caches first.now.rank.0
            (leaf_of first.now) ≡ here self.old.caches first.now.rank.0 (leaf_of first.now) }
        ensures reads { ReadsCore (λ r q. IsThat first.now.rank.0 (leaf_of first.now) r q
            ⊎ IsThat at.now.rank.0 (leaf_of at.now) r q) NoneEnds self.old self.new }
        ensures none { KeepsNone self.new.caches }
        ensures refused { IfErr result
            (MayNotFind (LacksPlacesIn 2 self.old.caches at.now.rank.0) self.old.faults self.new.faults) }
        ensures counted { self.new.faults ≡ self.old.faults + faults_told (result_err result) }
    {
        let stay = Some((first.dir, first.frag));
        self.caches.fetch(alloc, &mut self.store, *at, stay)
    }

    /// As `bring`, beside another leaf that is cached, at the same rank or not, and stays as it is.
    pub(crate) fn bring_beside(
        &mut self,
        alloc: Global,
        at: &Dirfrag,
        first: &Dirfrag,
    ) -> Result<(), Refusal>
        requires may { MayFetch self.old at.now }
        requires none { KeepsNone self.old.caches }
        requires first { IsThere (here self.old.caches first.now.rank.0 (leaf_of first.now)) }
        ensures there { OnOk result (IsThere (here self.new.caches at.now.rank.0 (leaf_of at.now))) }
        ensures stays { here self.new.caches first.now.rank.0
            (leaf_of first.now) ≡ here self.old.caches first.now.rank.0 (leaf_of first.now) }
        ensures reads { ReadsCore (λ r q. IsThat first.now.rank.0 (leaf_of first.now) r q
            ⊎ IsThat at.now.rank.0 (leaf_of at.now) r q) NoneEnds self.old self.new }
        ensures none { KeepsNone self.new.caches }
        ensures refused { IfErr result
            (MayNotFind (LacksPlacesIn 2 self.old.caches at.now.rank.0) self.old.faults self.new.faults) }
        ensures counted { self.new.faults ≡ self.old.faults + faults_told (result_err result) }
    {
        if self.caches.is_cached(*at) {
            return Ok(());
        }
        self.fetch_beside(alloc, at, first)
    }

    /// The inode that a name of a leaf stands for, if it is there; the leaf is fetched. Takes memory for a leaf that is
    /// read, and for a link's target.
    ///
    /// Refused as `fetch` is.
    pub(crate) fn find(
        &mut self,
        alloc: Global,
        at: &Dirfrag,
        name: &Name,
    ) -> Result<Option<Inode>, Refusal>
        requires may { MayFetch self.old at.now }
        requires none { KeepsNone self.old.caches }
        ensures found { IfOk result
            (λ found. HasCached (here self.new.caches at.now.rank.0 (leaf_of at.now))
            (λ (f : Cached). found ≡ map.get (shown_names f) name.now)) }
        ensures newest { OnOk result (IsNewestOf self.new.caches at.now.rank.0 (leaf_of at.now)) }
        ensures reads { ReadsCore (IsThat at.now.rank.0 (leaf_of at.now)) NoneEnds self.old self.new }
        ensures none { KeepsNone self.new.caches }
        ensures refused { IfErr result
            (MayNotFind (LacksPlacesIn 1 self.old.caches at.now.rank.0) self.old.faults self.new.faults) }
        ensures counted { self.new.faults ≡ self.old.faults + faults_told (result_err result) }
    {
        if let Err(refusal) = self.fetch(alloc, at) {
            return Err(refusal);
        }
        match self.caches.look(*at, name) {
            Ok(found) => Ok(found),
            Err(_) => Err(Refusal::NoMemory),
        }
    }
}
