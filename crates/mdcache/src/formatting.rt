//! A tree over a store that has no object.
ghost use Rattle.std.specs.Prelude.{◌≡◌, ◌+◌, ◌<◌, ◌≤◌, ◌==◌, ◌↔◌, [], None, length, not, IsTrue, IfOk, OnOk, IfErr};
ghost use Rattle.std.specs.Result.{result_err};
ghost use Rattle.std.specs.FinMap as map;
ghost use Rattle.mds_types.specs.declared.refusals.Refusal.TheVariants.{NoMemory};
ghost use Rattle.objstore.specs.Objects.{MayRefuse, faults_in, faults_told};
ghost use Rattle.dentry_cache.specs.CacheMap.{order, with_frag};
ghost use Rattle.mdcache.specs.Core.{IsSoundCore, state_of};
ghost use Rattle.mdcache.specs.New.{MayNotFormat, cached_root, new_caches, new_tree_state, root_leaf};

use crate::counters::Counters;
use crate::mdcache::MdCache;
use crate::purge_list::PurgeList;
use crate::standing_jobs::StandingJobs;
use cached_frag::CachedFrag;
use dentry_cache::Caches;
use inode_table::Dirs;
use mds_types::{Dirfrag, Frag, Ino, Limit, Rank, Refusal};
use objstore::{NamePage, Store};
use std::alloc::Global;

impl<S: Store + Drop> MdCache<S> {
    /// The empty tree over a store, as `new` makes it, where the store has no object; it is asked for its first name.
    /// Takes little memory.
    ///
    /// Refused `NotClean` exactly where the store has objects, unless it refuses to tell, and `NoMemory`; the store is
    /// handed back then, with its objects as they were.
    pub fn format(
        alloc: Global,
        mut store: S,
        ranks: u8,
        places: usize,
        limit: Limit,
    ) -> Result<MdCache<S>, (Refusal, S)>
        requires some { 0 < ranks }
        requires few { 512 ≤ places }
        requires many { places ≤ 65536 }
        ensures empty { OnOk result (S.objects store ≡ map.empty) }
        ensures state { IfOk result (λ m. state_of m ≡ new_tree_state limit) }
        ensures caches { IfOk result (λ m. m.caches ≡ new_caches ranks places) }
        ensures sound { IfOk result IsSoundCore }
        ensures refused { IfErr result
            (λ back. MayNotFormat (S.objects store) (S.faults store) (S.faults back.1) back.0) }
        ensures left { IfErr result (λ back. S.objects back.1 ≡ S.objects store) }
        ensures faults { IfOk result (λ m. m.faults ≡ S.faults store) }
        ensures counted { IfErr result (λ back. S.faults back.1 ≡ S.faults store + faults_in back.0) }
    {
        match has_objects(alloc, &mut store) {
            Err(refusal) => Err((refusal, store)),
            Ok(true) => Err((Refusal::NotClean, store)),
            Ok(false) => match MdCache::new(alloc, store, ranks, places, limit) {
                Ok(made) => Ok(made),
                Err(store) => Err((Refusal::NoMemory, store)),
            },
        }
    }

    /// The empty tree over a store that has no object, with a cache of so many places for each of so many ranks, and a
    /// limit of the entries of each directory. The root's leaf `*` is the first fragment made; it is cached at rank 0,
    /// and no object counts for it. Takes little memory; where that is refused the store is handed back as it was.
    pub fn new(
        alloc: Global,
        store: S,
        ranks: u8,
        places: usize,
        limit: Limit,
    ) -> Result<MdCache<S>, S>
        requires some { 0 < ranks }
        requires few { 512 ≤ places }
        requires many { places ≤ 65536 }
        requires empty { S.objects store ≡ map.empty }
        ensures state { IfOk result (λ m. state_of m ≡ new_tree_state limit) }
        ensures caches { IfOk result (λ m. m.caches ≡ new_caches ranks places) }
        ensures sound { IfOk result IsSoundCore }
        ensures left { IfErr result (λ back. back ≡ store) }
        ensures faults { IfOk result (λ m. m.faults ≡ S.faults store) }
    {
        match root_caches(alloc, ranks, places) {
            Ok(caches) => Ok(MdCache {
                limit,
                dirs: Dirs::new(alloc),
                caches,
                store,
                jobs: StandingJobs::new(alloc),
                purge: PurgeList::new(alloc),
                next: Counters {
                    job: 1,
                    generation: 2,
                    version: 1,
                },
                alloc,
            }),
            Err(_) => Err(store),
        }
    }
}

// Caches of so many ranks, with the root's leaf alone, at rank 0.
fn root_caches(alloc: Global, ranks: u8, places: usize) -> Result<Caches, Refusal>
    requires some { 0 < ranks }
    requires few { 512 ≤ places }
    requires many { places ≤ 65536 }
    ensures ok { IfOk result (λ caches. caches ≡ new_caches ranks places) }
    ensures refused { IfErr result (λ reason. reason ≡ NoMemory) }
{
    let mut caches = Caches::new(alloc, ranks, places)?;
    match put_root(alloc, &mut caches) {
        Ok(()) => Ok(caches),
        Err(refusal) => Err(refusal),
    }
}

// Puts the root's leaf into the cache of rank 0; no place of it is taken.
fn put_root(alloc: Global, caches: &mut Caches) -> Result<(), Refusal>
    requires some { 0 < length caches.old.used }
    requires empty { order caches.old 0 ≡ [] }
    requires none { map.get caches.old.held root_leaf ≡ None }
    requires places { 0 < caches.old.cap }
    ensures ok { OnOk result (caches.new ≡ with_frag caches.old 0 root_leaf cached_root) }
    ensures refused { IfErr result (λ reason. reason ≡ NoMemory) }
{
    let root = &Dirfrag {
        dir: Ino::ROOT,
        frag: Frag::ROOT,
        rank: Rank(0),
    };
    if caches.keep(alloc, *root, None).is_err() {
        return Err(Refusal::NoMemory);
    }
    caches.fill(*root, CachedFrag::fresh(alloc, 1));
    Ok(())
}

/// Whether a store has objects.
pub(crate) fn has_objects<S: Store>(alloc: Global, store: &mut S) -> Result<bool, Refusal>
    ensures found { IfOk result (λ some. IsTrue some ↔ (S.objects store.old ≡ map.empty → ⊥)) }
    ensures same { S.objects store.new ≡ S.objects store.old }
    ensures refused { IfErr result (MayRefuse (S.faults store.old) (S.faults store.new)) }
    ensures counted { S.faults store.new ≡ S.faults store.old + faults_told (result_err result) }
{
    match store.names_page(alloc, None, 1) {
        Ok(page) => Ok(has_names(&page)),
        Err(refusal) => Err(refusal),
    }
}

// Whether a page has names.
fn has_names(page: &NamePage) -> bool
    ensures { result ≡ not (length page.now.names == 0) }
{
    !page.names().is_empty()
}
