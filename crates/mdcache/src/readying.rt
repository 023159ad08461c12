//! What each kind of change needs is made ready: numbers, leaves, places and room.
ghost use Rattle.std.specs.Prelude.{◌≡◌, ◌⊎◌, ◌+◌, ◌-◌, ◌<◌, ◌≤◌, ◌^◌, ℕ, List, true, false, Some, None, option_map, length, OnErr, OnOk, IfOk, IfErr, IfSome};
ghost use Rattle.std.specs.Result.{result_err};
ghost use Rattle.std.specs.FinMap as map;
ghost use Rattle.mds_types.specs.declared.refusals.Refusal.TheVariants.{NoInodes, NoMemory};
ghost use Rattle.mds_types.specs.Leaf.{leaf_of};
ghost use Rattle.objstore.specs.Objects.{faults_told};
ghost use Rattle.dirfrag_codec.specs.EntryRecord.{IsRecordable};
ghost use Rattle.cached_frag.specs.Cached.{Cached, shown_names};
ghost use Rattle.dentry_cache.specs.Cache.{HasCached, HasRoom, IsThere, Leaf};
ghost use Rattle.dentry_cache.specs.CacheMap.{here, unclean};
ghost use Rattle.dentry_cache.specs.Came.{IsThat, NoneEnds};
ghost use Rattle.inode_table.specs.Dirs.{is_known};
ghost use Rattle.mdcache.specs.Changes.{first_leaf};
ghost use Rattle.mdcache.specs.Core.{AllCachedIn, IsSoundCore, LacksPlacesAt, ReadsCore, state_of};
ghost use Rattle.mdcache.specs.Frags.{HasListRoom, IsDirectoryReady, IsNameReady};
ghost use Rattle.mdcache.specs.Ranks.{KeepsOnlyAt, MayHold};
ghost use Rattle.mdcache.specs.Ready.{LacksNumbers, MayNotBeReady};
ghost use Rattle.mdcache.specs.Shown.{names_of};
ghost use Rattle.mdcache.specs.State.{IsLive};

use crate::mdcache::MdCache;
use crate::purge_list::PurgeList;
use dentry_cache::Caches;
use inode_table::Dirs;
use mds_types::{Dirfrag, Frag, Ino, Name, Refusal};
use namespace_ops::Spot;
use objstore::Store;
use std::alloc::Global;

impl<S: Store + Drop> MdCache<S> {
    /// Makes ready that a name of a leaf gets an inode or loses it: the leaf is fetched, where it isn't cached, and has
    /// room for a change then. Takes memory for a leaf that is read, and for the room.
    ///
    /// Refused `NoInodes` exactly where no version is left for the name; otherwise `NothingToEvict` where no place of
    /// the cache is free and no fragment can go, `StoreFault`, and `NoMemory`.
    pub(crate) fn ready_name(&mut self, alloc: Global, at: &Dirfrag) -> Result<(), Refusal>
        requires sound { IsSoundCore self.old }
        requires live { IsLive self.old.homes self.old.covers (leaf_of at.now) }
        requires holds { MayHold self.old.caches at.now.rank (leaf_of at.now) }
        ensures ready { OnOk result (IsNameReady self.new at.now.rank (leaf_of at.now)) }
        ensures reads { ReadsCore (IsThat at.now.rank.0 (leaf_of at.now)) NoneEnds self.old self.new }
        ensures sound { IsSoundCore self.new }
        ensures counted { self.new.faults ≡ self.old.faults + faults_told (result_err result) }
        ensures refused { IfErr result
            (MayNotBeReady (LacksNumbers 1 self.old.next_version)
            (LacksPlacesAt 1 self.old at.now.rank) self.old.faults self.new.faults) }
    {
        if let Err(refusal) = check_left(self.next.version) {
            return Err(refusal);
        }
        self.ready_names(alloc, at, 1)
    }

    /// Makes ready that a new directory of this number comes to a dentry: beside what its name needs a place is kept
    /// for the directory's leaf `*`, at the rank that holds the dentry's leaf, and there is room for the directory. Gives
    /// its name once more. Takes memory for all this.
    ///
    /// Refused `NoInodes` exactly where no version is left for the name, or no generation for the leaf; otherwise
    /// `NothingToEvict` where no place of the cache is free and no fragment but the dentry's can go, `StoreFault`, and
    /// `NoMemory`.
    pub(crate) fn ready_directory(
        &mut self,
        alloc: Global,
        spot: &Spot,
        dir: Ino,
    ) -> Result<Name, Refusal>
        requires sound { IsSoundCore self.old }
        requires live { IsLive self.old.homes self.old.covers (leaf_of spot.now.at) }
        requires holds { MayHold self.old.caches spot.now.at.rank (leaf_of spot.now.at) }
        requires unused { is_known self.old.homes dir.0 ≡ false }
        ensures ready { OnOk result (IsNameReady self.new spot.now.at.rank (leaf_of spot.now.at)) }
        ensures place { OnOk result (IsDirectoryReady self.new spot.now.at.rank dir) }
        ensures named { IfOk result (λ name. name ≡ spot.now.name) }
        ensures only { OnOk result (KeepsOnlyAt (Some (spot.now.at.rank, first_leaf dir)) self.new.caches) }
        ensures cached { OnOk result (AllCachedIn (state_of self.new) self.new.caches) }
        ensures reads { ReadsCore (λ r q. IsThat spot.now.at.rank.0 (leaf_of spot.now.at) r q
            ⊎ IsThat spot.now.at.rank.0 (first_leaf dir) r q) NoneEnds self.old self.new }
        ensures sound { OnErr result (IsSoundCore self.new) }
        ensures counted { self.new.faults ≡ self.old.faults + faults_told (result_err result) }
        ensures refused { IfErr result (MayNotBeReady (LacksNumbers 1 self.old.next_version
            ⊎ LacksNumbers 1 self.old.next_generation)
            (LacksPlacesAt 2 self.old spot.now.at.rank) self.old.faults self.new.faults) }
    {
        if let Err(refusal) = check_left(self.next.version) {
            return Err(refusal);
        }
        if let Err(refusal) = check_left(self.next.generation) {
            return Err(refusal);
        }
        if let Err(refusal) = self.dirs.reserve() {
            return Err(refusal);
        }
        let name = spot.name.try_clone()?;
        let first = Dirfrag {
            dir,
            frag: Frag::ROOT,
            rank: spot.at.rank,
        };
        match self.ready_first(alloc, &spot.at, &first) {
            Ok(()) => Ok(name),
            Err(refusal) => {
                drop(name);
                Err(refusal)
            }
        }
    }

    /// Makes ready that the entry of a name gets other attributes, and tells that a record allows the inode that stands
    /// there, so that it allows its number and kind with other attributes too. Otherwise as `ready_name`.
    pub(crate) fn ready_set(&mut self, alloc: Global, spot: &Spot) -> Result<(), Refusal>
        requires sound { IsSoundCore self.old }
        requires live { IsLive self.old.homes self.old.covers (leaf_of spot.now.at) }
        requires holds { MayHold self.old.caches spot.now.at.rank (leaf_of spot.now.at) }
        ensures ready { OnOk result (IsNameReady self.new spot.now.at.rank (leaf_of spot.now.at)) }
        ensures recorded { OnOk result
            (IfSome (map.get (names_of (unclean self.old.caches) self.old.objects (leaf_of spot.now.at)) spot.now.name)
            IsRecordable) }
        ensures reads { ReadsCore (IsThat spot.now.at.rank.0 (leaf_of spot.now.at)) NoneEnds self.old self.new }
        ensures sound { IsSoundCore self.new }
        ensures counted { self.new.faults ≡ self.old.faults + faults_told (result_err result) }
        ensures refused { IfErr result
            (MayNotBeReady (LacksNumbers 1 self.old.next_version)
            (LacksPlacesAt 1 self.old spot.now.at.rank) self.old.faults self.new.faults) }
    {
        if let Err(refusal) = self.ready_name(alloc, &spot.at) {
            return Err(refusal);
        }
        has_records(&self.caches, &spot.at);
        Ok(())
    }

    /// Makes ready that the entry of a name goes. `gone` is its number, if it is a directory: the purge list has room
    /// for the names of that one's objects. Otherwise as `ready_name`.
    pub(crate) fn ready_removal(
        &mut self,
        alloc: Global,
        at: &Dirfrag,
        gone: Option<Ino>,
    ) -> Result<(), Refusal>
        requires sound { IsSoundCore self.old }
        requires live { IsLive self.old.homes self.old.covers (leaf_of at.now) }
        requires holds { MayHold self.old.caches at.now.rank (leaf_of at.now) }
        ensures ready { OnOk result (IsNameReady self.new at.now.rank (leaf_of at.now)) }
        ensures list { OnOk result (HasListRoom self.new.covers self.new.room.purge gone) }
        ensures reads { ReadsCore (IsThat at.now.rank.0 (leaf_of at.now)) NoneEnds self.old self.new }
        ensures sound { IsSoundCore self.new }
        ensures counted { self.new.faults ≡ self.old.faults + faults_told (result_err result) }
        ensures refused { IfErr result
            (MayNotBeReady (LacksNumbers 1 self.old.next_version)
            (LacksPlacesAt 1 self.old at.now.rank) self.old.faults self.new.faults) }
    {
        if let Err(refusal) = check_left(self.next.version) {
            return Err(refusal);
        }
        if let Err(refusal) = ready_list(&self.dirs, &mut self.purge, gone) {
            return Err(refusal);
        }
        match self.ready_names(alloc, at, 1) {
            Ok(()) => Ok(()),
            Err(refusal) => Err(refusal),
        }
    }

    /// Makes ready that the inode of one name moves to another, in a leaf that may be the same: the first has room for
    /// two changes then, and the second for one. Gives the new name once more. `gone` is the number of what is replaced,
    /// if that is a directory: the purge list has room for the names of its objects. Takes memory for leaves that are
    /// read, for the room, and for the copy.
    ///
    /// Refused `NoInodes` exactly where no two versions are left; otherwise `NothingToEvict` where no place of the
    /// cache is free and no fragment but the first can go, `StoreFault`, and `NoMemory`.
    pub(crate) fn ready_move(
        &mut self,
        alloc: Global,
        from: &Spot,
        to: &Spot,
        gone: Option<Ino>,
    ) -> Result<Name, Refusal>
        requires sound { IsSoundCore self.old }
        requires from_live { IsLive self.old.homes self.old.covers (leaf_of from.now.at) }
        requires from_holds { MayHold self.old.caches from.now.at.rank (leaf_of from.now.at) }
        requires to_live { IsLive self.old.homes self.old.covers (leaf_of to.now.at) }
        requires to_holds { MayHold self.old.caches to.now.at.rank (leaf_of to.now.at) }
        requires one { ◌≡◌ {A = Leaf} (leaf_of from.now.at) (leaf_of to.now.at) → from.now.at.rank ≡ to.now.at.rank }
        ensures source { OnOk result
            (HasCached (here self.new.caches from.now.at.rank.0 (leaf_of from.now.at)) (λ (f : Cached). 1 < f.room)) }
        ensures target { OnOk result (HasRoom (here self.new.caches to.now.at.rank.0 (leaf_of to.now.at))) }
        ensures number { OnOk result (self.new.next_version < 2 ^ 64 - 2) }
        ensures named { IfOk result (λ name. name ≡ to.now.name) }
        ensures list { OnOk result (HasListRoom self.new.covers self.new.room.purge gone) }
        ensures reads { ReadsCore (λ r q. IsThat from.now.at.rank.0 (leaf_of from.now.at) r q
            ⊎ IsThat to.now.at.rank.0 (leaf_of to.now.at) r q) NoneEnds self.old self.new }
        ensures sound { IsSoundCore self.new }
        ensures counted { self.new.faults ≡ self.old.faults + faults_told (result_err result) }
        ensures refused { IfErr result
            (MayNotBeReady (LacksNumbers 2 self.old.next_version) (LacksPlacesAt 2 self.old from.now.at.rank
            ⊎ LacksPlacesAt 2 self.old to.now.at.rank) self.old.faults self.new.faults) }
    {
        if let Err(refusal) = check_two_left(self.next.version) {
            return Err(refusal);
        }
        if let Err(refusal) = ready_list(&self.dirs, &mut self.purge, gone) {
            return Err(refusal);
        }
        let name = to.name.try_clone()?;
        match self.ready_pair(alloc, &from.at, &to.at) {
            Ok(()) => Ok(name),
            Err(refusal) => {
                drop(name);
                Err(refusal)
            }
        }
    }
}

/// Whether a number is left of a counter. Refused `NoInodes` exactly where none is.
fn check_left(next: u64) -> Result<(), Refusal>
    ensures ok { OnOk result (next < 2 ^ 64 - 1) }
    ensures err { IfErr result (λ reason. (reason ≡ NoInodes) × LacksNumbers 1 next) }
{
    if next == u64::MAX {
        return Err(Refusal::NoInodes);
    }
    Ok(())
}

// Whether two numbers are left of a counter.
fn check_two_left(next: u64) -> Result<(), Refusal>
    ensures ok { OnOk result (next < 2 ^ 64 - 2) }
    ensures err { IfErr result (λ reason. (reason ≡ NoInodes) × LacksNumbers 2 next) }
{
    if next >= u64::MAX - 1 {
        return Err(Refusal::NoInodes);
    }
    Ok(())
}

/// A record allows what each name of a cached fragment stands for: a law of the type, so nothing is done.
pub(crate) fn has_records(caches: &Caches, at: &Dirfrag)
    requires there { at.now.rank.0 < length caches.now.used }
    requires cached { IsThere (here caches.now at.now.rank.0 (leaf_of at.now)) }
    ensures { HasCached (here caches.now at.now.rank.0 (leaf_of at.now))
        (λ (f : Cached). (name : List ℕ) → IfSome (map.get (shown_names f) name) IsRecordable) }
{
    if let Some(fragment) = caches.get(*at) {
        fragment.has_records();
    }
}

// Where a directory goes there is room on the purge list for the names of its objects then. Takes memory for it, and is
// refused for want of it alone.
fn ready_list(dirs: &Dirs, purge: &mut PurgeList, gone: Option<Ino>) -> Result<(), Refusal>
    ensures list { OnOk result (HasListRoom dirs.now.trees purge.new.room gone) }
    ensures same { purge.new.names ≡ purge.old.names }
    ensures grows { purge.old.room ≤ purge.new.room }
    ensures refused { IfErr result (λ reason. reason ≡ NoMemory) }
{
    let Some(dir) = gone else {
        return Ok(());
    };
    let Some(names) = dirs.leaf_count(dir).checked_add(1) else {
        return Err(Refusal::NoMemory);
    };
    match purge.reserve(names) {
        Ok(()) => Ok(()),
        Err(_) => Err(Refusal::NoMemory),
    }
}
