//! What a flush does, step by step.
ghost use Rattle.std.specs.Prelude.{◌≡◌, ◌+◌, ◌≤◌, length, nat_lt, Ok, OnOk, IfErr};
ghost use Rattle.std.specs.FinMap as map;
ghost use Rattle.std.specs.Result.{result_err};
ghost use Rattle.objstore.specs.Objects.{MayRefuse, faults_told};
ghost use Rattle.dentry_cache.specs.CacheMap.{unclean};
ghost use Rattle.cold_store.specs.ColdTree.{IsColdTree};
ghost use Rattle.mdcache.specs.Batches.{MayNotCommit};
ghost use Rattle.mdcache.specs.Core.{IsSoundCore, shown_in, state_of};
ghost use Rattle.mdcache.specs.Flushed.{AreExact, ArePurged, IsFlushed, KeepsTree};
ghost use Rattle.mdcache.specs.SavedTrees.{HasTrees, SavesTrees};

use crate::mdcache::MdCache;
use crate::standing_jobs::StandingJobs;
use mds_types::Refusal;
use objstore::Store;
use std::alloc::Global;
use std::thread::Threads;

impl<S: Store + Drop> MdCache<S> {
    /// Gives up all commits that were begun; all that they would have written stays dirty. Takes no memory.
    pub fn drop_jobs(&mut self)
        requires { IsSoundCore self.old }
        ensures state { state_of self.new ≡ record (state_of self.old) { jobs = map.empty } }
        ensures tree { KeepsTree self.old self.new }
        ensures caches { self.new.caches ≡ self.old.caches }
        ensures faults { self.new.faults ≡ self.old.faults }
        ensures sound { IsSoundCore self.new }
    {
        self.jobs = StandingJobs::new(self.alloc);
    }

    /// Removes all objects that are to be removed, one by one. Takes no memory of its own.
    ///
    /// Refused as the store refuses; what was removed until then is off the list.
    pub fn purge_all(&mut self) -> Result<(), Refusal>
        requires { IsSoundCore self.old }
        ensures all { OnOk result (self.new.purge ≡ map.empty) }
        ensures purged { ArePurged (state_of self.old) (state_of self.new) }
        ensures tree { KeepsTree self.old self.new }
        ensures caches { self.new.caches ≡ self.old.caches }
        ensures refused { IfErr result (MayRefuse self.old.faults self.new.faults) }
        ensures counted { self.new.faults ≡ self.old.faults + faults_told (result_err result) }
        ensures sound { IsSoundCore self.new }
    {
        purge_each(self)
    }

    /// Makes the object of each directory's tree say what leaves the directory has, of those directories whose leaves
    /// were ever set: it is written, if there are several and the object isn't so already, and removed, if there is
    /// one. Their names leave the purge list. Other directories have no tree object but one that is to be removed, and
    /// take no call of the store: where no directory's leaves were ever set nothing is done, and nothing refused. Takes
    /// memory for one object after the other.
    ///
    /// Refused as the store refuses, and `NoMemory`. Some directories' objects are up to date then, the others as they
    /// were.
    pub fn save_trees(&mut self, alloc: Global) -> Result<(), Refusal>
        requires { IsSoundCore self.old }
        ensures all { OnOk result (HasTrees (state_of self.new)) }
        ensures saved { SavesTrees (state_of self.old) (state_of self.new) }
        ensures idle { self.old.covers ≡ map.empty → (result ≡ Ok tt) × (self.new ≡ self.old) }
        ensures tree { KeepsTree self.old self.new }
        ensures caches { self.new.caches ≡ self.old.caches }
        ensures refused { IfErr result (MayRefuse self.old.faults self.new.faults) }
        ensures counted { self.new.faults ≡ self.old.faults + faults_told (result_err result) }
        ensures sound { IsSoundCore self.new }
    {
        save_each(self, alloc)
    }

    /// Writes all that isn't in the store: gives up the commits that were begun, commits each fragment that isn't
    /// clean, brings the objects of directories' trees up to date and removes what is to be removed. The store's cold
    /// tree is the shown tree then, and its objects are exactly those of live leaves and of trees of several leaves.
    /// Whatever it answers, the shown tree is as it was, no commit is begun any more, and no next number is another.
    /// Takes memory for the list of the leaves that it commits, 24 bytes for each, and for the snapshots and writes of
    /// 256.
    ///
    /// Refused `NoInodes` where a fragment's version is used up, or fewer than 256 numbers are left for jobs; otherwise
    /// as the store refuses, and `NoMemory`. Part of it may be done then, and another flush goes on with the rest.
    pub fn flush(&mut self, rt: &(impl Threads + Sync), alloc: Global) -> Result<(), Refusal>
        requires sound { IsSoundCore self.old }
        requires few { length self.old.caches.used ≤ 256 }
        ensures flushed { OnOk result (IsFlushed (state_of self.new)) }
        ensures cold { OnOk result (IsColdTree self.new.objects (shown_in self.old)) }
        ensures exact { OnOk result (AreExact (state_of self.new)) }
        ensures purged { OnOk result (self.new.purge ≡ map.empty) }
        ensures jobs { self.new.jobs ≡ map.empty }
        ensures number { self.new.next_job ≡ self.old.next_job }
        ensures tree { KeepsTree self.old self.new }
        ensures refused { IfErr result
            (MayNotCommit 256 (record (state_of self.old) { jobs = map.empty }) self.old.faults self.new.faults) }
        ensures counted { self.new.faults ≡ self.old.faults + faults_told (result_err result) }
        ensures sound { IsSoundCore self.new }
    {
        self.drop_jobs();
        match self.commit_all(rt, alloc) {
            Ok(()) => self.flush_objects(alloc),
            Err(refusal) => Err(refusal),
        }
    }

    /// Brings the store's objects up to date where nothing is unsaved: those of directories' trees, and all that are to
    /// be removed. The store's cold tree is the shown tree then, and it has no objects but those of leaves and of trees
    /// of several leaves. Takes memory for one object after the other.
    ///
    /// Refused as the store refuses, and `NoMemory`. Part of it may be done then.
    pub fn flush_objects(&mut self, alloc: Global) -> Result<(), Refusal>
        requires sound { IsSoundCore self.old }
        requires clean { unclean self.old.caches ≡ map.empty }
        ensures flushed { OnOk result (IsFlushed (state_of self.new)) }
        ensures cold { OnOk result (IsColdTree self.new.objects (shown_in self.old)) }
        ensures exact { OnOk result (AreExact (state_of self.new)) }
        ensures purged { OnOk result (self.new.purge ≡ map.empty) }
        ensures caches { self.new.caches ≡ self.old.caches }
        ensures jobs { self.new.jobs ≡ self.old.jobs }
        ensures number { self.new.next_job ≡ self.old.next_job }
        ensures tree { KeepsTree self.old self.new }
        ensures refused { IfErr result (MayRefuse self.old.faults self.new.faults) }
        ensures counted { self.new.faults ≡ self.old.faults + faults_told (result_err result) }
        ensures sound { IsSoundCore self.new }
    {
        match self.save_trees(alloc) {
            Ok(()) => self.purge_all(),
            Err(refusal) => Err(refusal),
        }
    }

    // Whether an object is to be removed.
    fn has_purges(&self) -> bool
        ensures { result ≡ nat_lt 0 (map.len self.now.purge) }
    {
        self.purge.len() > 0
    }
}

// Removes all objects that are to be removed.
fn purge_each<S: Store + Drop>(tree: &mut MdCache<S>) -> Result<(), Refusal>
    requires { IsSoundCore tree.old }
    ensures all { OnOk result (tree.new.purge ≡ map.empty) }
    ensures purged { ArePurged (state_of tree.old) (state_of tree.new) }
    ensures caches { tree.new.caches ≡ tree.old.caches }
    ensures refused { IfErr result (MayRefuse tree.old.faults tree.new.faults) }
    ensures counted { tree.new.faults ≡ tree.old.faults + faults_told (result_err result) }
    ensures sound { IsSoundCore tree.new }
{
    while tree.has_purges() {
        if let Err(refusal) = tree.purge() {
            return Err(refusal);
        }
    }
    Ok(())
}

// Brings the objects of directories' trees up to date, one after the other: of those whose leaves were ever set.
fn save_each<S: Store + Drop>(tree: &mut MdCache<S>, alloc: Global) -> Result<(), Refusal>
    requires { IsSoundCore tree.old }
    ensures all { OnOk result (HasTrees (state_of tree.new)) }
    ensures saved { SavesTrees (state_of tree.old) (state_of tree.new) }
    ensures idle { tree.old.covers ≡ map.empty → (result ≡ Ok tt) × (tree.new ≡ tree.old) }
    ensures caches { tree.new.caches ≡ tree.old.caches }
    ensures refused { IfErr result (MayRefuse tree.old.faults tree.new.faults) }
    ensures counted { tree.new.faults ≡ tree.old.faults + faults_told (result_err result) }
    ensures sound { IsSoundCore tree.new }
{
    let mut last = None;
    while let Some(dir) = tree.dirs().next_tree(last) {
        if let Err(reason) = tree.commit_tree(alloc, dir) {
            return Err(reason);
        }
        last = Some(dir);
    }
    Ok(())
}
