//! Fetches, and places kept for fragments that will be made.
ghost use Rattle.std.specs.Result.{result_err};
ghost use Rattle.objstore.specs.Objects.{faults_told};
ghost use Rattle.std.specs.Prelude.{◌≡◌, ◌+◌, ◌≤◌, ◌<◌, ◌∷◌, length, false, is_some, None, OnOk, OnErr, IfErr};
ghost use Rattle.std.specs.Map.{lookup};
ghost use Rattle.lru.specs.LruCache.{lru_cache};
ghost use Rattle.mds_types.specs.declared.refusals.Refusal.TheVariants.{NoMemory};
ghost use Rattle.dentry_cache.specs.Calls.{AreFetchCalls, calls_to_load};
ghost use Rattle.dentry_cache.specs.Loading.{object_of};
ghost use Rattle.dentry_cache.specs.Cache.{leaf_is};
ghost use Rattle.dentry_cache.specs.Fetches.{IsFetched, IsNotFetched, IsRefusedIn, MayNotFetch};

use crate::cache::{Cache, Place};
use crate::loading::load;
use cached_frag::CachedFrag;
use mds_types::{Frag, Ino, Refusal};
use objstore::Store;
use std::alloc::{AllocError, Global};

impl Cache {
    /// Makes sure that a fragment is there, and makes it the most recently used. One that isn't there is read from the
    /// store (`load`). Where no place is free the least recently used of the clean fragments goes, but for the one that
    /// is to stay. Takes memory for a fragment that is read.
    ///
    /// Refused `NothingToEvict` where no fragment can go, `Damaged` where the object is absent or isn't one that spells
    /// a fragment of this leaf, `StoreFault` and `NoMemory`. The fragment isn't there then; a clean one may have gone.
    /// The store is called as `load` calls it, once there is a place; for a fragment that is there it isn't called.
    pub fn fetch<S: Store>(
        &mut self,
        alloc: Global,
        store: &mut S,
        dir: Ino,
        frag: Frag,
        stay: Option<(Ino, Frag)>,
    ) -> Result<(), Refusal>
        ensures fetched { OnOk result
            (IsFetched stay self.old (dir, frag) (object_of (S.objects store.old) dir frag)
            (lookup (leaf_is (dir, frag)) self.old.entries) self.new) }
        ensures left { OnErr result
            (IsNotFetched stay self.old (lookup (leaf_is (dir, frag)) self.old.entries) self.new) }
        ensures room { IfErr result (IsRefusedIn stay self.old self.new) }
        ensures refused { IfErr result
            (MayNotFetch stay self.old (dir, frag) (object_of (S.objects store.old) dir frag)
            (S.faults store.old) (S.faults store.new)) }
        ensures same { S.objects store.new ≡ S.objects store.old }
        ensures counted { S.faults store.new ≡ S.faults store.old + faults_told (result_err result) }
        ensures called { AreFetchCalls S.IsCall (is_some (lookup (leaf_is (dir, frag)) self.old.entries))
            (calls_to_load frag (object_of (S.objects store.old) dir frag)) store.old (result_err result) store.new }
    {
        if self.touch(dir, frag) {
            return Ok(());
        }
        self.fetch_absent(alloc, store, dir, frag, stay)
    }

    // Reads a fragment that isn't there.
    fn fetch_absent<S: Store>(
        &mut self,
        alloc: Global,
        store: &mut S,
        dir: Ino,
        frag: Frag,
        stay: Option<(Ino, Frag)>,
    ) -> Result<(), Refusal>
        requires absent { lookup (leaf_is (dir, frag)) self.old.entries ≡ None }
        ensures fetched { OnOk result
            (IsFetched stay self.old (dir, frag) (object_of (S.objects store.old) dir frag) None self.new) }
        ensures left { OnErr result (IsNotFetched stay self.old None self.new) }
        ensures room { IfErr result (IsRefusedIn stay self.old self.new) }
        ensures refused { IfErr result
            (MayNotFetch stay self.old (dir, frag) (object_of (S.objects store.old) dir frag)
            (S.faults store.old) (S.faults store.new)) }
        ensures same { S.objects store.new ≡ S.objects store.old }
        ensures counted { S.faults store.new ≡ S.faults store.old + faults_told (result_err result) }
        ensures called { AreFetchCalls S.IsCall false
            (calls_to_load frag (object_of (S.objects store.old) dir frag)) store.old (result_err result) store.new }
    {
        self.make_room(stay)?;
        let loaded = load(alloc, store, dir, frag)?;
        self.hold(
            dir,
            frag,
            Place {
                frag: loaded,
                kept: false,
            },
        )
    }

    // Gives a leaf that has no place one that is free. Takes memory for it.
    pub(crate) fn hold(&mut self, dir: Ino, frag: Frag, place: Place) -> Result<(), Refusal>
        requires absent { lookup (leaf_is (dir, frag)) self.old.entries ≡ None }
        requires room { length self.old.entries < self.old.cap }
        ensures ok { OnOk result (self.new ≡ lru_cache (((dir, frag), place) ∷ self.old.entries) self.old.cap) }
        ensures err { OnErr result (self.new ≡ self.old) }
        ensures refused { IfErr result (λ refusal. refusal ≡ NoMemory) }
    {
        let count = self.places.len() + 1;
        self.candidates.reserve(count)?;
        let now = place.size();
        match self.places.put(&(dir, frag), place) {
            Ok(()) => {
                self.candidates
                    .resize(&self.places, &(dir, frag), None, now);
                Ok(())
            }
            Err(_) => Err(Refusal::NoMemory),
        }
    }
}
