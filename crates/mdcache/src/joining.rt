//! The names of leaves are joined in one fragment, leaf by leaf.
ghost use Rattle.std.specs.Prelude.{◌≡◌, ◌⊎◌, ◌+◌, ◌<◌, ◌∷◌, [], true, None, Some, length, OnOk, OnErr, IfOk, IfErr};
ghost use Rattle.std.specs.Result.{result_err};
ghost use Rattle.std.specs.FinMap as map;
ghost use Rattle.std.specs.List.{Contains};
ghost use Rattle.mds_types.specs.Leaf.{leaf_of};
ghost use Rattle.objstore.specs.Objects.{faults_told};
ghost use Rattle.dentry_cache.specs.Cache.{Leaf};
ghost use Rattle.dentry_cache.specs.CacheCalls.{KeepsNone};
ghost use Rattle.dentry_cache.specs.CacheMap.{unclean};
ghost use Rattle.dentry_cache.specs.CacheSplits.{IsKeptFor};
ghost use Rattle.dentry_cache.specs.Came.{IsThat, NoneEnds};
ghost use Rattle.mdcache.specs.CacheReads.{LacksPlacesIn};
ghost use Rattle.mdcache.specs.Core.{IsSoundCore, ReadsCore};
ghost use Rattle.mdcache.specs.Changes.{leaves_in};
ghost use Rattle.mdcache.specs.Joining.{HasJoined, IsAmong, IsAmongOr};
ghost use Rattle.mdcache.specs.Ranks.{KeepsOnlyAt, MayHold};
ghost use Rattle.mdcache.specs.Reads.{MayNotFind};
ghost use Rattle.mdcache.specs.Regrouping.{IsJoined};
ghost use Rattle.mdcache.specs.Shown.{names_of};
ghost use Rattle.mdcache.specs.State.{IsLive};

use crate::mdcache::MdCache;
use cached_frag::CachedFrag;
use mds_types::{Dirfrag, Frag, Refusal};
use objstore::Store;
use std::alloc::Global;

impl<S: Store + Drop> MdCache<S> {
    /// The fragment of the next generation that has the names of all these leaves of a directory, dirty at the next
    /// version, and a place that is kept for it. The leaves are fetched one after the other, at the rank of that
    /// fragment. Takes memory for copies of their names, and for a leaf that is read.
    ///
    /// Refused `NothingToEvict` where no place of the rank is free and none can become so, `StoreFault`, and
    /// `NoMemory`. No place is kept then.
    pub(crate) fn join_names(
        &mut self,
        alloc: Global,
        at: &Dirfrag,
        leaves: &[Frag],
    ) -> Result<CachedFrag, Refusal>
        requires sound { IsSoundCore self.old }
        requires none { KeepsNone self.old.caches }
        requires there { at.now.rank.0 < length self.old.caches.used }
        requires live { (q : Leaf) → Contains (leaves_in at.now.dir leaves.now) q
            → IsLive self.old.homes self.old.covers q × MayHold self.old.caches at.now.rank q }
        requires absent { map.get self.old.caches.held (leaf_of at.now) ≡ None }
        requires apart { Contains (leaves_in at.now.dir leaves.now) (leaf_of at.now) → ⊥ }
        ensures joined { IfOk result (IsJoined self.new (leaves_in at.now.dir leaves.now)) }
        ensures kept { OnOk result (IsKeptFor self.new.caches at.now.rank.0 (leaf_of at.now)) }
        ensures only { OnOk result (KeepsOnlyAt (Some (at.now.rank, leaf_of at.now)) self.new.caches) }
        ensures none { OnErr result (KeepsNone self.new.caches) }
        ensures absent { map.get self.new.caches.held (leaf_of at.now) ≡ None }
        ensures reads { ReadsCore
            (IsAmongOr at.now.rank.0 (leaves_in at.now.dir leaves.now) (leaf_of at.now)) NoneEnds self.old self.new }
        ensures refused { IfErr result
            (MayNotFind (LacksPlacesIn 1 self.old.caches at.now.rank.0) self.old.faults self.new.faults) }
        ensures counted { self.new.faults ≡ self.old.faults + faults_told (result_err result) }
    {
        let mut joined = CachedFrag::fresh(alloc, self.next.generation);
        if let Err(refusal) = self.join_leaves(alloc, at, leaves, &mut joined) {
            return Err(refusal);
        }
        if let Err(refusal) = self.caches.keep(alloc, *at, None) {
            return Err(refusal);
        }
        Ok(joined)
    }

    // Takes the names of these leaves into a fragment, leaf by leaf.
    fn join_leaves(
        &mut self,
        alloc: Global,
        at: &Dirfrag,
        leaves: &[Frag],
        joined: &mut CachedFrag,
    ) -> Result<(), Refusal>
        requires sound { IsSoundCore self.old }
        requires none { KeepsNone self.old.caches }
        requires live { (q : Leaf) → Contains (leaves_in at.now.dir leaves.now) q
            → IsLive self.old.homes self.old.covers q × MayHold self.old.caches at.now.rank q }
        ensures joined { OnOk result
            (HasJoined (names_of (unclean self.old.caches) self.old.objects) self.old.next_version
            (leaves_in at.now.dir leaves.now) joined.old joined.new) }
        ensures reads { ReadsCore (IsAmong at.now.rank.0 (leaves_in at.now.dir leaves.now)) NoneEnds self.old self.new }
        ensures none { KeepsNone self.new.caches }
        ensures refused { IfErr result
            (MayNotFind (LacksPlacesIn 1 self.old.caches at.now.rank.0) self.old.faults self.new.faults) }
        ensures counted { self.new.faults ≡ self.old.faults + faults_told (result_err result) }
    {
        for part in leaves {
            let leaf = Dirfrag {
                dir: at.dir,
                frag: *part,
                rank: at.rank,
            };
            if let Err(refusal) = self.join_leaf(alloc, &leaf, joined) {
                return Err(refusal);
            }
        }
        Ok(())
    }

    // Takes the names of a leaf into a fragment; the leaf is fetched.
    fn join_leaf(
        &mut self,
        alloc: Global,
        at: &Dirfrag,
        joined: &mut CachedFrag,
    ) -> Result<(), Refusal>
        requires sound { IsSoundCore self.old }
        requires none { KeepsNone self.old.caches }
        requires live { IsLive self.old.homes self.old.covers (leaf_of at.now) }
        requires holds { MayHold self.old.caches at.now.rank (leaf_of at.now) }
        ensures joined { OnOk result
            (HasJoined (names_of (unclean self.old.caches) self.old.objects) self.old.next_version
            (leaf_of at.now ∷ []) joined.old joined.new) }
        ensures reads { ReadsCore (IsThat at.now.rank.0 (leaf_of at.now)) NoneEnds self.old self.new }
        ensures sound { IsSoundCore self.new }
        ensures none { KeepsNone self.new.caches }
        ensures refused { IfErr result
            (MayNotFind (LacksPlacesIn 1 self.old.caches at.now.rank.0) self.old.faults self.new.faults) }
        ensures counted { self.new.faults ≡ self.old.faults + faults_told (result_err result) }
    {
        if let Err(refusal) = self.fetch(alloc, at) {
            return Err(refusal);
        }
        self.caches.copy_names(*at, joined, self.next.version)?;
        Ok(())
    }
}
