//! The names of a leaf, gathered into a page of its directory.
ghost use Rattle.std.specs.Prelude.{◌≡◌, ◌+◌, ◌<◌, List, IfErr, OnOk, length};
ghost use Rattle.std.specs.Result.{result_err};
ghost use Rattle.std.specs.Option.{option_copied};
ghost use Rattle.std.specs.FinMap as map;
ghost use Rattle.mds_types.specs.declared.refusals.Refusal.TheVariants.{NoMemory};
ghost use Rattle.objstore.specs.Omap.{key_cmp};
ghost use Rattle.objstore.specs.Objects.{faults_told};
ghost use Rattle.sorted_map.specs.Places.{puts};
ghost use Rattle.mds_types.specs.Leaf.{leaf_of};
ghost use Rattle.cached_frag.specs.Cached.{Cached, shown_names};
ghost use Rattle.cached_frag.specs.Rows.{NamedInode, rows_after};
ghost use Rattle.dentry_cache.specs.Cache.{HasCached, IsThere};
ghost use Rattle.dentry_cache.specs.CacheCalls.{KeepsNone};
ghost use Rattle.dentry_cache.specs.CacheMap.{here, unclean};
ghost use Rattle.dentry_cache.specs.Came.{IsThat, NoneEnds};
ghost use Rattle.mdcache.specs.CacheReads.{LacksPlacesIn};
ghost use Rattle.mdcache.specs.Core.{IsSoundCore, LacksPlacesAt, MayFetch, ReadsCore};
ghost use Rattle.mdcache.specs.Pages.{IsPageOf};
ghost use Rattle.mdcache.specs.Ranks.{MayHold};
ghost use Rattle.mdcache.specs.Reads.{MayNotFind};
ghost use Rattle.mdcache.specs.Shown.{names_of};
ghost use Rattle.mdcache.specs.State.{IsLive};

use crate::mdcache::MdCache;
use crate::page::Page;
use dentry_cache::Caches;
use mds_types::{Dirfrag, Name, Refusal};
use objstore::Store;
use std::alloc::Global;

impl<S: Store + Drop> MdCache<S> {
    /// Takes the names of a leaf greater than `after`, or all where none is given, into a page of its directory, up to
    /// the first that can't be in it. The leaf is fetched into the cache of the rank that holds it, where it isn't
    /// cached. Takes memory for the page, and for a leaf that is read.
    ///
    /// Refused `NothingToEvict` where no place of the cache is free and no fragment can go, `StoreFault`, and
    /// `NoMemory`.
    pub fn gather(
        &mut self,
        alloc: Global,
        at: &Dirfrag,
        after: Option<&Name>,
        page: &mut Page,
    ) -> Result<(), Refusal>
        requires sound { IsSoundCore self.old }
        requires live { IsLive self.old.homes self.old.covers (leaf_of at.now) }
        requires holds { MayHold self.old.caches at.now.rank (leaf_of at.now) }
        ensures page { (whole : List NamedInode) → IsPageOf whole page.old
            → OnOk result (IsPageOf (puts key_cmp whole (rows_after (option_copied after.entry)
            (map.entries (names_of (unclean self.old.caches) self.old.objects (leaf_of at.now))))) page.new) }
        ensures most { page.new.most ≡ page.old.most }
        ensures reads { ReadsCore (IsThat at.now.rank.0 (leaf_of at.now)) NoneEnds self.old self.new }
        ensures sound { IsSoundCore self.new }
        ensures counted { self.new.faults ≡ self.old.faults + faults_told (result_err result) }
        ensures refused { IfErr result
            (MayNotFind (LacksPlacesAt 1 self.old at.now.rank) self.old.faults self.new.faults) }
    {
        self.gather_at(alloc, at, after, page)
    }

    // Takes the names of a leaf, which is fetched, into a page.
    fn gather_at(
        &mut self,
        alloc: Global,
        at: &Dirfrag,
        after: Option<&Name>,
        page: &mut Page,
    ) -> Result<(), Refusal>
        requires may { MayFetch self.old at.now }
        requires none { KeepsNone self.old.caches }
        ensures page { OnOk result
            (HasCached (here self.new.caches at.now.rank.0 (leaf_of at.now))
            (λ (f : Cached). (whole : List NamedInode) → IsPageOf whole page.old
            → IsPageOf (puts key_cmp whole (rows_after (option_copied after.entry) (map.entries (shown_names f))))
            page.new)) }
        ensures most { page.new.most ≡ page.old.most }
        ensures reads { ReadsCore (IsThat at.now.rank.0 (leaf_of at.now)) NoneEnds self.old self.new }
        ensures none { KeepsNone self.new.caches }
        ensures refused { IfErr result
            (MayNotFind (LacksPlacesIn 1 self.old.caches at.now.rank.0) self.old.faults self.new.faults) }
        ensures counted { self.new.faults ≡ self.old.faults + faults_told (result_err result) }
    {
        if let Err(refusal) = self.fetch(alloc, at) {
            return Err(refusal);
        }
        gather_cached(&self.caches, at, after, page)
    }
}

// Takes the names of a cached fragment greater than `after` into a page.
fn gather_cached(
    caches: &Caches,
    at: &Dirfrag,
    after: Option<&Name>,
    page: &mut Page,
) -> Result<(), Refusal>
    requires there { at.now.rank.0 < length caches.now.used }
    requires cached { IsThere (here caches.now at.now.rank.0 (leaf_of at.now)) }
    ensures page { OnOk result
        (HasCached (here caches.now at.now.rank.0 (leaf_of at.now))
        (λ (f : Cached). (whole : List NamedInode) → IsPageOf whole page.old
        → IsPageOf (puts key_cmp whole (rows_after (option_copied after.entry) (map.entries (shown_names f)))) page.new)) }
    ensures most { page.new.most ≡ page.old.most }
    ensures refused { IfErr result (λ reason. reason ≡ NoMemory) }
{
    let fragment = caches.get(*at).unwrap();
    match page.take_rows(fragment.rows_after(after)) {
        Ok(()) => Ok(()),
        Err(_) => Err(Refusal::NoMemory),
    }
}
