//! `Caches`: a contract sees one map of the fragments that are there, each with its rank, and each rank's leaves by
//! use.
ghost use Rattle.std.specs.Prelude.{◌≡◌, ◌<◌, ◌≤◌, ◌+◌, ◌^◌, true, false, Some, None, [], length, replicate, IsOk, is_some, OnOk, OnErr, IfOk, IfErr, option_copied};
ghost use Rattle.std.specs.FinMap as map;
ghost use Rattle.std.specs.Result.{result_err};
ghost use Rattle.lru.specs.LruCache.{lru_cache};
ghost use Rattle.dirfrag_codec.specs.EntryRecord.{IsRecordable};
ghost use Rattle.objstore.specs.Objects.{MayRefuse, faults_told, written};
ghost use Rattle.dentry_cache.specs.Commits.{IsCommitted, job_leaf, leaf_text};
ghost use Rattle.cached_frag.specs.Cached.{Cached, shown_names, snapshot_of};
ghost use Rattle.cached_frag.specs.Snap.{IsBelowEnd};
ghost use Rattle.cached_frag.specs.Moving.{TakesIn};
ghost use Rattle.mds_types.specs.declared.refusals.Refusal.TheVariants.{NothingToEvict};
ghost use Rattle.mds_types.specs.Leaf.{leaf_of};
ghost use Rattle.dentry_cache.specs.Cache.{HasCached, HasRoom, IsThere, shows_in};
ghost use Rattle.dentry_cache.specs.CacheCalls.{Edits, FetchesAt, IsAbsent, IsRefusedAt, HasNoKeptPlace, KeepsAt, MakesRoomAt, MayNotFetchAt, MayNotKeepAt, Rewrites};
ghost use Rattle.dentry_cache.specs.CacheMap.{AreCaches, IsFreeFor, evicted, cached_at, given_up, has_place, here, no_caches, order, used_at, with_frag, with_mark};
ghost use Rattle.dentry_cache.specs.CacheSplits.{IsButPlaces, IsReadyAt};
ghost use Rattle.dentry_cache.specs.Divided.{AreNumbered};
ghost use Rattle.dentry_cache.specs.Calls.{AreCalls, AreFetchCalls, calls_to_load};
ghost use Rattle.dentry_cache.specs.Loading.{object_of};

use crate::cache::Cache;
use crate::parts::Parts;
use cached_frag::{CachedFrag, Encoded, Snapshot};
use mds_types::{Dirfrag, Frag, Ino, Inode, Name, Rank, Refusal};
use objstore::Store;
use std::alloc::{AllocError, Global};
use std::marker::Model;

/// A cache for each rank, rank 0 first, each with as many places. No leaf's fragment is at two ranks.
#[derive(Drop)]
pub struct Caches {
    pub(crate) caches: Vec<Cache>,
    places: usize,
}

impl Model for Caches {
    ghost use Rattle.std.specs.Coded.{codes};
    ghost use Rattle.std.specs.FinMap as map;
    ghost use Rattle.dentry_cache.specs.CacheMap.{AreAtOneRank, CacheMap, cache_map};

    ghost Value = { CacheMap };

    ghost coded = { Prim.hlevel (codes, map.code) };

    ghost view = { λ c. cache_map c.caches.items c.places };

    ghost invariant = { λ c. AreAtOneRank c.places c.caches.items };
}

impl Caches {
    /// A cache with so many places for each of so many ranks, none of them taken. Takes little memory.
    pub fn new(alloc: Global, ranks: u8, places: usize) -> Result<Caches, AllocError>
        requires few { 512 ≤ places }
        requires many { places ≤ 65536 }
        ensures { IfOk result (λ caches. caches ≡ no_caches ranks places) }
    {
        let caches = empty_caches(alloc, ranks, places)?;
        Ok(Caches { caches, places })
    }

    /// How many ranks there are. Of the caches it tells that a fragment which a rank has stands in its order of use,
    /// where no leaf stands twice, and that no more places are taken than there are.
    pub fn ranks(&self) -> usize
        ensures ranks { result ≡ length self.now.used }
        ensures valid { AreCaches self.now }
    {
        self.caches.len()
    }

    /// Whether a leaf has a place at its rank, be there a fragment in it or not.
    pub fn has_place(&self, at: Dirfrag) -> bool
        requires { at.rank.0 < length self.now.used }
        ensures { result ≡ has_place self.now at.rank.0 (leaf_of at) }
    {
        self.caches[at.rank.0 as usize].has_place(at.dir, at.frag)
    }

    /// The cached fragment of a leaf at its rank. The order of use stays.
    pub fn get(&self, at: Dirfrag) -> Option<&CachedFrag>
        requires { at.rank.0 < length self.now.used }
        ensures { option_copied result ≡ here self.now at.rank.0 (leaf_of at) }
    {
        self.caches[at.rank.0 as usize].get(at.dir, at.frag)
    }

    /// Whether the fragment of a leaf is there at its rank. The order of use stays.
    pub fn is_cached(&self, at: Dirfrag) -> bool
        requires { at.rank.0 < length self.now.used }
        ensures there { result ≡ is_some (here self.now at.rank.0 (leaf_of at)) }
        ensures valid { AreCaches self.now }
    {
        self.caches[at.rank.0 as usize]
            .get(at.dir, at.frag)
            .is_some()
    }

    /// The inode that a name of a fragment stands for, if it is there. Takes memory for a link's target alone.
    pub fn look(&mut self, at: Dirfrag, name: &Name) -> Result<Option<Inode>, AllocError>
        requires there { at.rank.0 < length self.old.used }
        requires cached { IsThere (here self.old at.rank.0 (leaf_of at)) }
        ensures found { IfOk result
            (λ found. HasCached (here self.old at.rank.0 (leaf_of at))
            (λ (f : Cached). found ≡ map.get (shown_names f) name.now)) }
        ensures used { self.new ≡ used_at self.old at.rank.0 (leaf_of at) }
    {
        self.caches[at.rank.0 as usize].look(at.dir, at.frag, name)
    }

    /// Whether a leaf's fragment is there at its rank and shows a name. The order of use stays. Takes no memory.
    pub fn shows(&self, at: Dirfrag, name: &Name) -> bool
        requires { at.rank.0 < length self.now.used }
        ensures { result ≡ shows_in (here self.now at.rank.0 (leaf_of at)) name.now }
    {
        self.caches[at.rank.0 as usize].shows(at.dir, at.frag, name)
    }

    /// Gives a name of a fragment this inode, whether it was there or not. The name is dirty then, at this version.
    /// The order of use stays. Takes no memory.
    pub fn put(&mut self, at: Dirfrag, name: Name, inode: Inode, version: u64)
        requires there { at.rank.0 < length self.old.used }
        requires recordable { IsRecordable inode }
        requires room { HasRoom (here self.old at.rank.0 (leaf_of at)) }
        ensures { self.new ≡ with_mark self.old at.rank.0 (leaf_of at) name
            (record { version = version; inode = Some inode }) }
    {
        self.caches[at.rank.0 as usize].put(at.dir, at.frag, name, inode, version);
    }

    /// Removes a name of a fragment, whether it was there or not. The name is dirty then, at this version. The order of
    /// use stays. Takes no memory.
    pub fn erase(&mut self, at: Dirfrag, name: Name, version: u64)
        requires there { at.rank.0 < length self.old.used }
        requires room { HasRoom (here self.old at.rank.0 (leaf_of at)) }
        ensures { self.new ≡ with_mark self.old at.rank.0 (leaf_of at) name
            (record { version = version; inode = None }) }
    {
        self.caches[at.rank.0 as usize].erase(at.dir, at.frag, name, version);
    }

    /// Makes room for so many changes of names of a fragment. The order of use stays.
    pub fn reserve(&mut self, at: Dirfrag, changes: usize) -> Result<(), AllocError>
        requires there { at.rank.0 < length self.old.used }
        requires cached { IsThere (here self.old at.rank.0 (leaf_of at)) }
        ensures same { Rewrites (λ (f now : Cached). (now ≡ record f { room = now.room })
            × (f.room ≤ now.room)) at.rank.0 (leaf_of at) self.old self.new }
        ensures room { OnOk result
            (Rewrites (λ (f now : Cached). changes ≤ now.room) at.rank.0 (leaf_of at) self.old self.new) }
        ensures ready { HasCached (here self.old at.rank.0 (leaf_of at))
            (λ (f : Cached). changes ≤ f.room) → IsOk result }
    {
        self.caches[at.rank.0 as usize].reserve(at.dir, at.frag, changes)
    }

    /// Makes sure that a fragment is there, and makes it the most recently used of its rank. One that isn't there is
    /// read from the store (`load`). Where no place of the rank is free the least recently used of its clean fragments
    /// goes, but for the one that is to stay. Takes memory for a fragment that is read.
    ///
    /// Refused `NothingToEvict` where no fragment can go, `Damaged` where the object is absent or isn't one that spells
    /// a fragment of this leaf, `StoreFault` and `NoMemory`. The fragment isn't there then; a clean one may have gone.
    /// The store is called as `load` calls it, once there is a place; for a fragment that is there it isn't called.
    pub fn fetch<S: Store>(
        &mut self,
        alloc: Global,
        store: &mut S,
        at: Dirfrag,
        stay: Option<(Ino, Frag)>,
    ) -> Result<(), Refusal>
        requires there { at.rank.0 < length self.old.used }
        requires free { IsFreeFor self.old at.rank.0 (leaf_of at) }
        requires whole { HasNoKeptPlace self.old at.rank.0 (leaf_of at) }
        ensures cached { OnOk result (IsThere (here self.new at.rank.0 (leaf_of at))) }
        ensures fetched { OnOk result
            (FetchesAt at.rank.0 (leaf_of at) stay (object_of (S.objects store.old) at.dir at.frag)
            (has_place self.old at.rank.0 (leaf_of at)) self.old self.new) }
        ensures absent { OnErr result (IsAbsent self.old at.rank.0 (leaf_of at)) }
        ensures left { OnErr result (MakesRoomAt at.rank.0 stay self.old self.new) }
        ensures room { IfErr result (IsRefusedAt at.rank.0 stay self.old self.new) }
        ensures refused { IfErr result
            (MayNotFetchAt at.rank.0 (leaf_of at) stay (object_of (S.objects store.old) at.dir at.frag) self.old) }
        ensures same { S.objects store.new ≡ S.objects store.old }
        ensures counted { S.faults store.new ≡ S.faults store.old + faults_told (result_err result) }
        ensures called { AreFetchCalls S.IsCall (has_place self.old at.rank.0 (leaf_of at))
            (calls_to_load at.frag (object_of (S.objects store.old) at.dir at.frag)) store.old (result_err result)
            store.new }
        ensures valid { AreCaches self.old }
    {
        self.caches[at.rank.0 as usize].fetch(alloc, store, at.dir, at.frag, stay)
    }

    /// Keeps a place of a rank for a fragment that will be made. Where no place is free the least recently used of the
    /// rank's clean fragments goes, but for the one that is to stay. Takes memory for the place.
    ///
    /// Refused `NothingToEvict` where no fragment can go, and `NoMemory`. The leaf has no place then; a clean fragment
    /// may have gone.
    pub fn keep(
        &mut self,
        alloc: Global,
        at: Dirfrag,
        stay: Option<(Ino, Frag)>,
    ) -> Result<(), Refusal>
        requires there { at.rank.0 < length self.old.used }
        requires absent { has_place self.old at.rank.0 (leaf_of at) ≡ false }
        ensures kept { OnOk result (KeepsAt at.rank.0 (leaf_of at) stay self.old self.new) }
        ensures left { OnErr result (MakesRoomAt at.rank.0 stay self.old self.new) }
        ensures room { IfErr result (IsRefusedAt at.rank.0 stay self.old self.new) }
        ensures refused { IfErr result (MayNotKeepAt at.rank.0 stay self.old) }
        ensures valid { AreCaches self.old }
    {
        self.caches[at.rank.0 as usize].keep(alloc, at.dir, at.frag, stay)
    }

    /// Puts a fragment into the place that is kept for it, as the most recently used of its rank. Takes no memory.
    pub fn fill(&mut self, at: Dirfrag, fragment: CachedFrag)
        requires there { at.rank.0 < length self.old.used }
        requires place { has_place self.old at.rank.0 (leaf_of at) ≡ true }
        requires absent { map.get self.old.held (leaf_of at) ≡ None }
        ensures { self.new ≡ with_frag self.old at.rank.0 (leaf_of at) fragment }
    {
        self.caches[at.rank.0 as usize].fill(at.dir, at.frag, fragment);
    }

    /// Takes a fragment out of its place, which is given up. So is one that is kept. Takes no memory.
    pub fn take(&mut self, at: Dirfrag) -> Option<CachedFrag>
        requires { at.rank.0 < length self.old.used }
        ensures taken { result ≡ here self.old at.rank.0 (leaf_of at) }
        ensures without { self.new ≡ given_up self.old at.rank.0 (leaf_of at) }
    {
        self.caches[at.rank.0 as usize].take(at.dir, at.frag)
    }

    /// Gives up a leaf's place at its rank, with the fragment that is in it. A leaf that has none changes nothing.
    /// Takes no memory.
    pub fn forget(&mut self, at: Dirfrag)
        requires { at.rank.0 < length self.old.used }
        ensures { self.new ≡ given_up self.old at.rank.0 (leaf_of at) }
    {
        drop(self.take(at));
    }

    /// A snapshot of a fragment as it stands, for which a commit version is left. Takes memory for the dirty names.
    pub fn begin_commit(&mut self, at: Dirfrag) -> Result<Snapshot, AllocError>
        requires there { at.rank.0 < length self.old.used }
        requires begins { HasCached (here self.old at.rank.0 (leaf_of at)) (λ (f : Cached). IsBelowEnd f.base) }
        ensures taken { IfOk result
            (λ snapshot. HasCached (here self.old at.rank.0 (leaf_of at))
            (λ (f : Cached). snapshot ≡ snapshot_of f)) }
        ensures used { self.new ≡ used_at self.old at.rank.0 (leaf_of at) }
    {
        self.caches[at.rank.0 as usize].begin_commit(at.dir, at.frag)
    }

    /// Writes a snapshot of a rank's fragment to its object, in one operation. What was dirty at the snapshot's
    /// versions is clean then; what changed since stays dirty. Takes memory before it writes.
    ///
    /// Refused as the store refuses the write, and `NoMemory`. Object and names stay as they were then. The store is
    /// called once, and not where memory lacks before.
    pub fn end_commit<S: Store>(
        &mut self,
        alloc: Global,
        store: &mut S,
        rank: Rank,
        encoded: &Encoded,
    ) -> Result<(), Refusal>
        requires there { rank.0 < length self.old.used }
        requires cached { IsThere (here self.old rank.0 (job_leaf encoded.now)) }
        ensures written { OnOk result
            (S.objects store.new ≡ written (S.objects store.old)
            (leaf_text encoded.now.job.ino encoded.now.job.frag) encoded.now.op) }
        ensures settled { OnOk result
            (Edits (IsCommitted encoded.now.job.snapshot) rank.0 (job_leaf encoded.now) self.old self.new) }
        ensures same { OnErr result (S.objects store.new ≡ S.objects store.old) }
        ensures kept { OnErr result
            (Edits (λ (f now : Cached). now ≡ record f { places = now.places }) rank.0
            (job_leaf encoded.now) self.old self.new) }
        ensures refused { IfErr result (MayRefuse (S.faults store.old) (S.faults store.new)) }
        ensures counted { S.faults store.new ≡ S.faults store.old + faults_told (result_err result) }
        ensures called { AreCalls S.IsCall 1 store.old (result_err result) store.new }
    {
        self.caches[rank.0 as usize].end_commit(alloc, store, encoded)
    }

    /// Puts a copy of each name that a fragment shows into another one, dirty there at this version. The order of use
    /// stays. Takes memory for the copies and their room, before it changes a name.
    pub fn copy_names(
        &self,
        at: Dirfrag,
        into: &mut CachedFrag,
        version: u64,
    ) -> Result<(), AllocError>
        requires there { at.rank.0 < length self.now.used }
        requires cached { IsThere (here self.now at.rank.0 (leaf_of at)) }
        ensures copied { OnOk result
            (HasCached (cached_at self.now at) (λ f. TakesIn into.old into.new (shown_names f) version)) }
        ensures kept { OnErr result (into.new ≡ record into.old { room = into.new.room }) }
    {
        self.caches[at.rank.0 as usize].copy_names(at.dir, at.frag, into, version)
    }

    // Makes room for a fragment's names in its children, whose generations follow one another. Takes memory for them.
    pub(crate) fn ready_parts(
        &mut self,
        alloc: Global,
        at: &Dirfrag,
        bits: u8,
        generation: u64,
    ) -> Result<Parts, AllocError>
        requires there { at.now.rank.0 < length self.old.used }
        requires few { bits ≤ 8 }
        requires deep { at.now.frag.bits + bits ≤ 24 }
        requires numbers { generation + 2 ^ bits ≤ 2 ^ 64 }
        requires cached { IsThere (here self.old at.now.rank.0 (leaf_of at.now)) }
        ensures same { Rewrites IsButPlaces at.now.rank.0 (leaf_of at.now) self.old self.new }
        ensures ready { IfOk result (IsReadyAt at.now.rank.0 at.now.dir at.now.frag bits self.new) }
        ensures numbered { IfOk result (λ parts. AreNumbered generation parts) }
        ensures before { AreCaches self.old }
        ensures valid { AreCaches self.new }
    {
        self.caches[at.rank.0 as usize].ready_parts(alloc, at.dir, at.frag, bits, generation)
    }

    /// Drops the least recently used of a rank's clean fragments. Takes no memory.
    ///
    /// Refused `NothingToEvict` where no fragment of the rank is clean.
    pub fn evict(&mut self, rank: Rank) -> Result<(), Refusal>
        requires { rank.0 < length self.old.used }
        ensures evicted { OnOk result (evicted self.old rank.0 None ≡ Some self.new) }
        ensures none { OnErr result (evicted self.old rank.0 None ≡ None) }
        ensures same { OnErr result (self.new ≡ self.old) }
        ensures refused { IfErr result (λ refusal. refusal ≡ NothingToEvict) }
        ensures valid { AreCaches self.old }
    {
        self.caches[rank.0 as usize].evict()
    }
}

// So many caches with so many places each, none of them taken.
fn empty_caches(alloc: Global, ranks: u8, places: usize) -> Result<Vec<Cache>, AllocError>
    requires few { 512 ≤ places }
    requires many { places ≤ 65536 }
    ensures { IfOk result (λ caches. caches.items ≡ replicate ranks (lru_cache [] places)) }
{
    let mut caches = Vec::with_capacity(alloc, usize::from(ranks))?;
    for _ in 0..ranks {
        caches.push(Cache::new(alloc, places)?)?;
    }
    Ok(caches)
}
