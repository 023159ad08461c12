//! `MdCache`, and what a contract sees of it.
ghost use Rattle.std.specs.Prelude.{◌≡◌, length, IfErr, IfOk};
ghost use Rattle.dentry_cache.specs.CacheMap.{AreCaches};

use crate::counters::Counters;
use crate::purge_list::PurgeList;
use crate::standing_jobs::StandingJobs;
use dentry_cache::Caches;
use inode_table::Dirs;
use keeping::{Keep, RowEdit, Unkept};
use mds_types::Limit;
use objstore::Store;
use std::alloc::Global;
use std::marker::Model;
use std::snapshot::Snapshot;

/// A directory table, a cache of fragments over a store for each rank, the commits that were begun, and the purge list;
/// and how many entries a directory may have.
///
/// Nothing is promised of these together: what a sound tree is (`IsSoundCore`) each call asks, and leaves.
#[derive(Drop)]
pub struct MdCache<S: Store + Drop> {
    pub(crate) limit: Limit,
    pub(crate) dirs: Dirs,
    pub(crate) caches: Caches,
    pub(crate) store: S,
    pub(crate) jobs: StandingJobs,
    pub(crate) purge: PurgeList,
    pub(crate) next: Counters,
    /// For the leaves of directories that come.
    pub(crate) alloc: Global,
}

impl<S: Store + Drop> Model for MdCache<S> {
    ghost use Rattle.std.specs.Coded.{codes};
    ghost use Rattle.std.specs.FinMap as map;
    ghost use Rattle.mdcache.specs.Core.{Core};

    ghost Value = { Core };

    ghost coded = { Prim.hlevel (codes, map.code) };

    ghost view = { λ m. record {
      limit = m.limit;
      homes = m.dirs.homes;
      covers = m.dirs.trees;
      counts = m.dirs.counts;
      pins = m.dirs.pins;
      caches = m.caches;
      objects = S.objects m.store;
      faults = S.faults m.store;
      jobs = m.jobs.jobs;
      purge = m.purge.names;
      next_job = m.next.job;
      next_generation = m.next.generation;
      next_version = m.next.version;
      room = record { dirs = m.dirs.room; jobs = m.jobs.room; purge = m.purge.room };
    } };
}

impl<S: Store + Drop> MdCache<S> {
    /// The store, to read.
    pub fn store(&self) -> &S
        ensures objects { S.objects result.now ≡ self.now.objects }
        ensures faults { S.faults result.now ≡ self.now.faults }
    {
        &self.store
    }

    /// How many entries a directory may have.
    pub fn limit(&self) -> Limit
        ensures { result ≡ self.now.limit }
    {
        self.limit
    }

    /// How many ranks there are. Of their caches it tells what `Caches::ranks` does.
    pub fn ranks(&self) -> usize
        ensures ranks { result ≡ length self.now.caches.used }
        ensures valid { AreCaches self.now.caches }
    {
        self.caches.ranks()
    }

    /// The ranks' caches, to read.
    pub fn caches(&self) -> &Caches
        ensures { result.now ≡ self.now.caches }
    {
        &self.caches
    }

    /// The commits that were begun and not ended, to read.
    pub fn jobs(&self) -> &StandingJobs
        ensures { result.now.jobs ≡ self.now.jobs }
    {
        &self.jobs
    }

    /// The names of the objects that are to be removed, to read.
    pub fn purge_list(&self) -> &PurgeList
        ensures { result.now.names ≡ self.now.purge }
    {
        &self.purge
    }

    /// Which directories there are, and the leaves, the count and the pin of each, to read.
    pub fn dirs(&self) -> &Dirs
        ensures homes { result.now.homes ≡ self.now.homes }
        ensures trees { result.now.trees ≡ self.now.covers }
        ensures counts { result.now.counts ≡ self.now.counts }
        ensures pins { result.now.pins ≡ self.now.pins }
    {
        &self.dirs
    }
}

impl<S: Keep + Drop> MdCache<S> {
    /// Writes what the store has where it outlives the process, with edits of the rows beside it. The results are the
    /// store before and after, for contracts alone. Whatever it returns, the cache is unchanged.
    pub fn keep(&mut self, edits: &[RowEdit]) -> Result<(Snapshot<S>, Snapshot<S>), Unkept>
        ensures same { self.new ≡ self.old }
        ensures taken { IfOk result (λ s. S.Takes s.0.value edits.now s.1.value) }
        ensures objects { IfOk result (λ s. S.objects s.1.value ≡ self.old.objects) }
        ensures failed { IfErr result (λ _. S.may_fail) }
    {
        let before = Snapshot::of(&self.store);
        self.store.keep(edits)?;
        Ok((before, Snapshot::of(&self.store)))
    }

    /// Leaves what was kept whole in one place, as a run ends. Whatever it answers, all is as it was.
    pub fn settle(&mut self) -> Result<(), Unkept>
        ensures same { self.new ≡ self.old }
        ensures failed { IfErr result (λ _. S.may_fail) }
    {
        self.store.settle()
    }
}
