//! A tree over a store as it is found.
ghost use Rattle.std.specs.Prelude.{◌≡◌, ◌+◌, ◌<◌, ◌≤◌, IfOk, IfErr};
ghost use Rattle.std.specs.FinMap as map;
ghost use Rattle.sorted_map.specs.SortedMap.{contents};
ghost use Rattle.mds_types.specs.Tree.{dentry_cmp};
ghost use Rattle.mds_types.specs.declared.refusals.Refusal.TheVariants.{NoMemory};
ghost use Rattle.objstore.specs.Omap.{key_cmp};
ghost use Rattle.objstore.specs.Objects.{faults_in};
ghost use Rattle.dentry_cache.specs.CacheMap.{no_caches, unclean};
ghost use Rattle.inode_table.specs.TreeTable.{IsCounted};
ghost use Rattle.cold_store.specs.ColdTree.{IsColdTree};
ghost use Rattle.cold_store.specs.Walked.{IsWalked};
ghost use Rattle.mdcache.specs.Core.{IsSoundCore, shown_in, state_of};
ghost use Rattle.mdcache.specs.Mounted.{AreNumbers, IsMounted, IsNewTree, MayNotMount, Mounts, mounted};

use crate::counters::Counters;
use crate::formatting::has_objects;
use crate::mdcache::MdCache;
use crate::purge_list::PurgeList;
use crate::standing_jobs::StandingJobs;
use cold_store::{Walked, walk};
use dentry_cache::Caches;
use inode_table::{Dirs, Numbers};
use mds_types::{Dentry, Inode, Limit, Rank, Refusal};
use objstore::Store;
use sorted_map::SortedMap;
use std::alloc::{AllocError, Global};

/// What a mount finds in a store beside the tree over it: all entries, and for each rank the numbers that it hands out.
#[derive(Drop)]
pub struct Opening {
    pub entries: SortedMap<Dentry, Inode>,
    pub numbers: Vec<Numbers>,
}

impl<S: Store + Drop> MdCache<S> {
    /// The tree over a store as it is found: where the store has no object that of `format`; otherwise what `walk`
    /// finds, with no fragment cached, and the objects that it doesn't reach on the purge list. Nothing is written, and
    /// a directory may have more entries than the limit. Memory is linear in the names and the objects.
    ///
    /// Refused `Damaged`, with the name of a faulty object, where the store has objects; otherwise as the store refuses
    /// a call (`StoreFault`), and `NoMemory`; the store is handed back then, with its objects as they were.
    pub fn mount(
        alloc: Global,
        mut store: S,
        ranks: u8,
        places: usize,
        limit: Limit,
    ) -> Result<(MdCache<S>, Opening), (Refusal, S)>
        requires some { 0 < ranks }
        requires ranked { ranks ≤ 16 }
        requires few { 512 ≤ places }
        requires many { places ≤ 65536 }
        ensures mounted { IfOk result
            (λ m. Mounts limit (S.objects store) ranks places (contents dentry_cmp m.1.entries) m.0) }
        ensures cold { IfOk result (λ m. IsColdTree (S.objects store) (shown_in m.0)) }
        ensures opening { IfOk result (λ m. contents dentry_cmp m.1.entries ≡ shown_in m.0) }
        ensures numbers { IfOk result (λ m. AreNumbers (shown_in m.0) ranks m.1.numbers.items) }
        ensures sound { IfOk result (λ m. IsSoundCore m.0) }
        ensures faults { IfOk result (λ m. m.0.faults ≡ S.faults store) }
        ensures refused { IfErr result
            (λ back. MayNotMount (S.objects store) (S.faults store) (S.faults back.1) back.0) }
        ensures left { IfErr result (λ back. S.objects back.1 ≡ S.objects store) }
        ensures counted { IfErr result (λ back. S.faults back.1 ≡ S.faults store + faults_in back.0) }
    {
        match has_objects(alloc, &mut store) {
            Err(refusal) => Err((refusal, store)),
            Ok(false) => MdCache::mount_new(alloc, store, ranks, places, limit),
            Ok(true) => match walk(alloc, &mut store) {
                Ok(walked) => MdCache::mount_walked(alloc, store, walked, ranks, places, limit),
                Err(refusal) => Err((refusal, store)),
            },
        }
    }

    /// The store, handed back; all else is dropped.
    pub fn into_store(self) -> S
        ensures objects { S.objects result ≡ self.objects }
        ensures faults { S.faults result ≡ self.faults }
    {
        let MdCache {
            limit: _,
            dirs,
            caches,
            store,
            jobs,
            purge,
            next: _,
            alloc: _,
        } = self;
        drop(dirs);
        drop(caches);
        drop(jobs);
        drop(purge);
        store
    }

    // The tree over a store that has no object.
    fn mount_new(
        alloc: Global,
        store: S,
        ranks: u8,
        places: usize,
        limit: Limit,
    ) -> Result<(MdCache<S>, Opening), (Refusal, S)>
        requires some { 0 < ranks }
        requires ranked { ranks ≤ 16 }
        requires few { 512 ≤ places }
        requires many { places ≤ 65536 }
        requires empty { S.objects store ≡ map.empty }
        ensures made { IfOk result (λ m. IsNewTree limit ranks places (contents dentry_cmp m.1.entries) m.0) }
        ensures numbers { IfOk result (λ m. AreNumbers (contents dentry_cmp m.1.entries) ranks m.1.numbers.items) }
        ensures sound { IfOk result (λ m. IsSoundCore m.0) }
        ensures faults { IfOk result (λ m. m.0.faults ≡ S.faults store) }
        ensures refused { IfErr result (λ back. back ≡ (NoMemory, store)) }
    {
        match empty_opening(alloc, ranks) {
            Err(_) => Err((Refusal::NoMemory, store)),
            Ok(opening) => match MdCache::new(alloc, store, ranks, places, limit) {
                Ok(tree) => Ok((tree, opening)),
                Err(store) => {
                    drop(opening);
                    Err((Refusal::NoMemory, store))
                }
            },
        }
    }

    // The tree over a store that was walked.
    fn mount_walked(
        alloc: Global,
        store: S,
        walked: Walked,
        ranks: u8,
        places: usize,
        limit: Limit,
    ) -> Result<(MdCache<S>, Opening), (Refusal, S)>
        requires ranked { ranks ≤ 16 }
        requires few { 512 ≤ places }
        requires many { places ≤ 65536 }
        requires walked { IsWalked (S.objects store)
            (contents dentry_cmp walked.entries) walked.dirs.homes walked.dirs.trees (contents key_cmp walked.left) }
        requires counted { IsCounted (contents dentry_cmp walked.entries) walked.dirs.counts walked.dirs.pins }
        ensures made { IfOk result
            (λ m. IsMounted limit (S.objects store) ranks places (contents dentry_cmp m.1.entries) m.0) }
        ensures numbers { IfOk result (λ m. AreNumbers (contents dentry_cmp m.1.entries) ranks m.1.numbers.items) }
        ensures faults { IfOk result (λ m. m.0.faults ≡ S.faults store) }
        ensures refused { IfErr result (λ back. back ≡ (NoMemory, store)) }
    {
        match parts_of(alloc, &walked, ranks, places) {
            Err(_) => {
                drop(walked);
                Err((Refusal::NoMemory, store))
            }
            Ok((caches, numbers)) => Ok(MdCache::of_walked(
                alloc, store, walked, caches, numbers, limit,
            )),
        }
    }

    // The tree over a store that was walked, with these caches.
    fn of_walked(
        alloc: Global,
        store: S,
        walked: Walked,
        caches: Caches,
        numbers: Vec<Numbers>,
        limit: Limit,
    ) -> (MdCache<S>, Opening)
        ensures state { state_of result.0 ≡ record
            (mounted limit (S.objects store) walked.dirs.homes walked.dirs.trees walked.dirs.counts walked.dirs.pins
            (contents key_cmp walked.left)) { unsaved = unclean caches } }
        ensures caches { result.0.caches ≡ caches }
        ensures faults { result.0.faults ≡ S.faults store }
        ensures entries { result.1.entries ≡ walked.entries }
        ensures numbers { result.1.numbers ≡ numbers }
    {
        let Walked {
            entries,
            dirs,
            left,
        } = walked;
        let tree = MdCache {
            limit,
            dirs,
            caches,
            store,
            jobs: StandingJobs::new(alloc),
            purge: PurgeList::of(left),
            next: Counters {
                job: 1,
                generation: 1,
                version: 1,
            },
            alloc,
        };
        (tree, Opening { entries, numbers })
    }
}

// What a store with no object has.
fn empty_opening(alloc: Global, ranks: u8) -> Result<Opening, AllocError>
    requires { ranks ≤ 16 }
    ensures entries { IfOk result (λ opening. contents dentry_cmp opening.entries ≡ map.empty) }
    ensures numbers { IfOk result
        (λ opening. AreNumbers (contents dentry_cmp opening.entries) ranks opening.numbers.items) }
{
    let nothing = Walked {
        entries: SortedMap::new(alloc),
        dirs: Dirs::new(alloc),
        left: SortedMap::new(alloc),
    };
    match numbers_of(alloc, &nothing, ranks) {
        Ok(numbers) => Ok(opening_of(nothing, numbers)),
        Err(refusal) => {
            drop(nothing);
            Err(refusal)
        }
    }
}

// The entries of a walk, with these numbers.
fn opening_of(walked: Walked, numbers: Vec<Numbers>) -> Opening
    ensures entries { result.entries ≡ walked.entries }
    ensures numbers { result.numbers ≡ numbers }
{
    let Walked {
        entries,
        dirs,
        left,
    } = walked;
    drop(dirs);
    drop(left);
    Opening { entries, numbers }
}

// Empty caches, and each rank's numbers beside what a walk found.
fn parts_of(
    alloc: Global,
    walked: &Walked,
    ranks: u8,
    places: usize,
) -> Result<(Caches, Vec<Numbers>), AllocError>
    requires ranked { ranks ≤ 16 }
    requires few { 512 ≤ places }
    requires many { places ≤ 65536 }
    ensures caches { IfOk result (λ parts. parts.0 ≡ no_caches ranks places) }
    ensures numbers { IfOk result (λ parts. AreNumbers (contents dentry_cmp walked.now.entries) ranks parts.1.items) }
{
    let numbers = numbers_of(alloc, walked, ranks)?;
    let caches = Caches::new(alloc, ranks, places)?;
    Ok((caches, numbers))
}

// The numbers that each of so many ranks hands out.
fn numbers_of(alloc: Global, walked: &Walked, ranks: u8) -> Result<Vec<Numbers>, AllocError>
    requires { ranks ≤ 16 }
    ensures { IfOk result (λ numbers. AreNumbers (contents dentry_cmp walked.now.entries) ranks numbers.items) }
{
    let mut numbers = Vec::new(alloc);
    for rank in 0..ranks {
        numbers.push(walked.numbers(Rank(rank)))?;
    }
    Ok(numbers)
}
