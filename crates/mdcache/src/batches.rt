//! Commits of several fragments at once, as a flush makes them.
ghost use Rattle.std.specs.Prelude.{map as list_map, ◌≤◌, ◌≡◌, ◌+◌, length, None, Some, Ok, OnOk, OnErr, IfOk, IfErr};
ghost use Rattle.std.specs.List.{AllByRecursion};
ghost use Rattle.std.specs.FinMap as map;
ghost use Rattle.std.specs.Result.{result_err};
ghost use Rattle.objstore.specs.Objects.{MayRefuse, faults_told};
ghost use Rattle.mds_types.specs.Leaf.{leaf_of};
ghost use Rattle.mds_types.specs.declared.refusals.Refusal.TheVariants.{NoMemory};
ghost use Rattle.dentry_cache.specs.CacheMap.{unclean};
ghost use Rattle.mdcache.specs.Batches.{AreOfOtherLeaves, CommitsWhole, IsBegunAt, IsReadied, IsReadyWrite, IsUncleanAt, LeavesOtherLeaves, MayNotBeginAll};
ghost use Rattle.mdcache.specs.Batches.{MayNotBeginOne, MayNotCommit, leaves_of_places, leaves_of_jobs, leaves_of_writes, ready_of};
ghost use Rattle.mdcache.specs.Commits.{Begins, IsEnded, leaf_of_job};
ghost use Rattle.mdcache.specs.Core.{IsSoundCore, state_of};
ghost use Rattle.mdcache.specs.Flushed.{IsAtHand, KeepsTree};
ghost use Rattle.mdcache.specs.Ranks.{MayHold};

use crate::beginning::unsaved;
use crate::mdcache::MdCache;
use crate::standing_jobs::StandingJobs;
use cached_frag::{Encoded, Job};
use mds_types::{Dirfrag, Rank, Refusal};
use objstore::Store;
use rayon::prelude::*;
use std::alloc::Global;
use std::thread::Threads;

/// The most fragments that a flush commits at once: enough for all processors to encode side by side, and few enough
/// that their snapshots and writes are small beside a large store.
const BATCH: usize = 256;

/// A job that was begun, and the rank that has its fragment.
#[derive(Drop)]
pub(crate) struct Begun {
    pub rank: Rank,
    pub job: Job,
}

/// The write of a job that was begun, and the rank that has its fragment.
#[derive(Drop)]
pub(crate) struct Ready {
    pub rank: Rank,
    pub encoded: Encoded,
}

impl Begun {
    // The write of the job. Takes memory for it, and is refused for want of it alone.
    fn encode(self, alloc: Global) -> Result<Ready, Refusal>
        ensures { IsReadied self result }
    {
        let encoded = Encoded::of(alloc, self.job)?;
        Ok(Ready {
            rank: self.rank,
            encoded,
        })
    }
}

impl<S: Store + Drop> MdCache<S> {
    /// Commits each fragment that isn't clean, while no job stands. No more than 256 of them are begun at once, and no
    /// job stands afterwards; the next one gets the number that it would have got before. The caches are walked once,
    /// for a list of the leaves. Takes memory for that list, 24 bytes for each leaf, and for the snapshots and writes
    /// of 256.
    ///
    /// Refused `NoInodes` where a fragment's version is used up, or fewer than 256 numbers are left for jobs; otherwise
    /// as the store refuses, and `NoMemory`. What was committed until then is so, and all else is as it was.
    pub fn commit_all(&mut self, rt: &(impl Threads + Sync), alloc: Global) -> Result<(), Refusal>
        requires sound { IsSoundCore self.old }
        requires none { self.old.jobs ≡ map.empty }
        requires few { length self.old.caches.used ≤ 256 }
        ensures clean { OnOk result (unclean self.new.caches ≡ map.empty) }
        ensures whole { CommitsWhole (state_of self.old) (state_of self.new) }
        ensures jobs { self.new.jobs ≡ map.empty }
        ensures number { self.new.next_job ≡ self.old.next_job }
        ensures tree { KeepsTree self.old self.new }
        ensures refused { IfErr result (MayNotCommit 256 (state_of self.old) self.old.faults self.new.faults) }
        ensures counted { self.new.faults ≡ self.old.faults + faults_told (result_err result) }
        ensures sound { IsSoundCore self.new }
    {
        let leaves = match self.unclean_leaves(alloc) {
            Ok(leaves) => leaves,
            Err(refusal) => return Err(refusal),
        };
        let done = self.commit_listed(rt, alloc, leaves.as_slice());
        drop(leaves);
        done
    }

    // The leaves that aren't clean, each once, at its rank. Takes memory for them.
    fn unclean_leaves(&self, alloc: Global) -> Result<Vec<Dirfrag>, Refusal>
        requires { length self.now.caches.used ≤ 256 }
        ensures unclean { IfOk result (λ leaves. AllByRecursion (IsUncleanAt self.now.caches) leaves.items) }
        ensures apart { IfOk result (λ leaves. AreOfOtherLeaves (leaves_of_places leaves.items)) }
        ensures all { IfOk result (λ leaves. map.len (unclean self.now.caches) ≤ length leaves.items) }
        ensures refused { IfErr result (λ reason. reason ≡ NoMemory) }
    {
        match self.caches.unclean_leaves(alloc) {
            Ok(leaves) => Ok(leaves),
            Err(_) => Err(Refusal::NoMemory),
        }
    }

    // Commits each of these leaves, none of which is clean, no more than 256 at once, in their order. Takes memory for
    // so many. Whatever it answers no job stands then, and the next one gets the number that it would have got before.
    fn commit_listed(
        &mut self,
        rt: &(impl Threads + Sync),
        alloc: Global,
        leaves: &[Dirfrag],
    ) -> Result<(), Refusal>
        requires sound { IsSoundCore self.old }
        requires none { self.old.jobs ≡ map.empty }
        requires apart { AreOfOtherLeaves (leaves_of_places leaves.now) }
        requires unclean { AllByRecursion (IsUncleanAt self.old.caches) leaves.now }
        ensures whole { CommitsWhole (state_of self.old) (state_of self.new) }
        ensures jobs { self.new.jobs ≡ map.empty }
        ensures number { self.new.next_job ≡ self.old.next_job }
        ensures fewer { OnOk result
            (map.len (unclean self.new.caches) + length leaves.now ≡ map.len (unclean self.old.caches)) }
        ensures tree { KeepsTree self.old self.new }
        ensures refused { IfErr result (MayNotCommit 256 (state_of self.old) self.old.faults self.new.faults) }
        ensures counted { self.new.faults ≡ self.old.faults + faults_told (result_err result) }
        ensures sound { IsSoundCore self.new }
    {
        let mut rest = leaves;
        while rest.len() > 0 {
            let (batch, after) = rest.split_at(rest.len().min(BATCH));
            if let Err(refusal) = self.commit_batch(rt, alloc, batch) {
                return Err(refusal);
            }
            rest = after;
        }
        Ok(())
    }

    // Commits each of these leaves, none of which is clean. Takes memory for all of them at once. Whatever it answers
    // no job stands then, and the next one gets the number that it would have got before.
    pub(crate) fn commit_batch(
        &mut self,
        rt: &(impl Threads + Sync),
        alloc: Global,
        leaves: &[Dirfrag],
    ) -> Result<(), Refusal>
        requires sound { IsSoundCore self.old }
        requires none { self.old.jobs ≡ map.empty }
        requires apart { AreOfOtherLeaves (leaves_of_places leaves.now) }
        requires unclean { AllByRecursion (IsUncleanAt self.old.caches) leaves.now }
        ensures whole { CommitsWhole (state_of self.old) (state_of self.new) }
        ensures jobs { self.new.jobs ≡ map.empty }
        ensures number { self.new.next_job ≡ self.old.next_job }
        ensures fewer { OnOk result
            (map.len (unclean self.new.caches) + length leaves.now ≡ map.len (unclean self.old.caches)) }
        ensures others { OnOk result
            (LeavesOtherLeaves (leaves_of_places leaves.now) (unclean self.old.caches) (unclean self.new.caches)) }
        ensures tree { KeepsTree self.old self.new }
        ensures refused { IfErr result
            (MayNotCommit (length leaves.now) (state_of self.old) self.old.faults self.new.faults) }
        ensures counted { self.new.faults ≡ self.old.faults + faults_told (result_err result) }
        ensures sound { IsSoundCore self.new }
    {
        let number = self.next_job();
        let done = self.commit_each(rt, alloc, leaves);
        self.give_up_from(number);
        done
    }

    // The number that the next job gets.
    fn next_job(&self) -> u64
        ensures { result ≡ self.now.next_job }
    {
        self.next.job
    }

    // Gives up all jobs; the next one gets this number. Takes no memory.
    fn give_up_from(&mut self, number: u64)
        requires { IsSoundCore self.old }
        ensures state { state_of self.new ≡ record (state_of self.old) { jobs = map.empty; next_job = number } }
        ensures caches { self.new.caches ≡ self.old.caches }
        ensures faults { self.new.faults ≡ self.old.faults }
        ensures sound { IsSoundCore self.new }
    {
        self.jobs = StandingJobs::new(self.alloc);
        self.next.job = number;
    }

    // Commits each of these leaves, none of which is clean: all begin, all are encoded, and all end. Takes memory for
    // all of them at once. After a refusal some may be committed, and jobs stand.
    pub(crate) fn commit_each(
        &mut self,
        rt: &(impl Threads + Sync),
        alloc: Global,
        leaves: &[Dirfrag],
    ) -> Result<(), Refusal>
        requires sound { IsSoundCore self.old }
        requires none { self.old.jobs ≡ map.empty }
        requires apart { AreOfOtherLeaves (leaves_of_places leaves.now) }
        requires unclean { AllByRecursion (IsUncleanAt self.old.caches) leaves.now }
        ensures whole { CommitsWhole (state_of self.old) (state_of self.new) }
        ensures fewer { OnOk result
            (map.len (unclean self.new.caches) + length leaves.now ≡ map.len (unclean self.old.caches)) }
        ensures others { OnOk result
            (LeavesOtherLeaves (leaves_of_places leaves.now) (unclean self.old.caches) (unclean self.new.caches)) }
        ensures tree { KeepsTree self.old self.new }
        ensures refused { IfErr result
            (MayNotCommit (length leaves.now) (state_of self.old) self.old.faults self.new.faults) }
        ensures counted { self.new.faults ≡ self.old.faults + faults_told (result_err result) }
        ensures sound { IsSoundCore self.new }
    {
        let begun = match self.begin_each(alloc, leaves) {
            Ok(begun) => begun,
            Err(refusal) => return Err(refusal),
        };
        let ready = match encode_each(rt, alloc, begun) {
            Ok(ready) => ready,
            Err(refusal) => return Err(refusal),
        };
        let ended = self.end_each(alloc, ready.as_slice());
        drop(ready);
        ended
    }

    // Begins a commit of each of these leaves, none of which is clean. Takes memory for the jobs, and for each snapshot
    // twice.
    pub(crate) fn begin_each(
        &mut self,
        alloc: Global,
        leaves: &[Dirfrag],
    ) -> Result<Vec<Begun>, Refusal>
        requires sound { IsSoundCore self.old }
        requires none { self.old.jobs ≡ map.empty }
        requires apart { AreOfOtherLeaves (leaves_of_places leaves.now) }
        requires unclean { AllByRecursion (IsUncleanAt self.old.caches) leaves.now }
        ensures begun { IfOk result (λ begun. AllByRecursion (IsBegunAt self.new) begun.items) }
        ensures leaves { IfOk result (λ begun. leaves_of_jobs begun.items ≡ leaves_of_places leaves.now) }
        ensures left { state_of self.new ≡ record
            (state_of self.old) { jobs = self.new.jobs; next_job = self.new.next_job } }
        ensures tree { KeepsTree self.old self.new }
        ensures refused { IfErr result (MayNotBeginAll (length leaves.now) (state_of self.old)) }
        ensures faults { self.new.faults ≡ self.old.faults }
        ensures sound { IsSoundCore self.new }
    {
        let mut begun = Vec::with_capacity(alloc, leaves.len())?;
        for at in leaves {
            let job = match self.begin_one(at) {
                Ok(job) => job,
                Err(refusal) => return Err(refusal),
            };
            let one = Begun { rank: at.rank, job };
            if begun.push(one).is_err() {
                return Err(Refusal::NoMemory);
            }
        }
        Ok(begun)
    }

    // Ends each of these commits, of fragments that haven't changed since: they are clean then. Takes memory before
    // each write.
    pub(crate) fn end_each(&mut self, alloc: Global, ready: &[Ready]) -> Result<(), Refusal>
        requires sound { IsSoundCore self.old }
        requires begun { AllByRecursion (IsReadyWrite self.old) ready.now }
        requires apart { AreOfOtherLeaves (leaves_of_writes ready.now) }
        ensures whole { CommitsWhole (state_of self.old) (state_of self.new) }
        ensures fewer { OnOk result
            (map.len (unclean self.new.caches) + length ready.now ≡ map.len (unclean self.old.caches)) }
        ensures others { OnOk result
            (LeavesOtherLeaves (leaves_of_writes ready.now) (unclean self.old.caches) (unclean self.new.caches)) }
        ensures tree { KeepsTree self.old self.new }
        ensures refused { IfErr result (MayRefuse self.old.faults self.new.faults) }
        ensures counted { self.new.faults ≡ self.old.faults + faults_told (result_err result) }
        ensures sound { IsSoundCore self.new }
    {
        for one in ready {
            if let Err(refusal) = self.end_one(alloc, one.rank, &one.encoded) {
                return Err(refusal);
            }
        }
        Ok(())
    }

    // Begins a commit of a leaf that isn't clean and for which no job stands. Takes memory for the snapshot, twice.
    pub(crate) fn begin_one(&mut self, at: &Dirfrag) -> Result<Job, Refusal>
        requires sound { IsSoundCore self.old }
        requires unclean { IsUncleanAt self.old.caches at.now }
        requires free { map.get self.old.jobs (leaf_of at.now) ≡ None }
        ensures begun { IfOk result
            (λ job. Begins (state_of self.old) (state_of self.new) (leaf_of at.now) (Ok (Some job))) }
        ensures left { OnErr result (state_of self.new ≡ state_of self.old) }
        ensures tree { KeepsTree self.old self.new }
        ensures refused { IfErr result (MayNotBeginOne (state_of self.old) (leaf_of at.now)) }
        ensures faults { self.new.faults ≡ self.old.faults }
        ensures sound { IsSoundCore self.new }
    {
        let (base, generation) = unsaved(&self.caches, at).unwrap();
        self.begin_unsaved(at, base, generation)
    }

    // Ends a commit of a leaf whose fragment hasn't changed since it began: it is clean then. Takes memory before it
    // writes.
    pub(crate) fn end_one(
        &mut self,
        alloc: Global,
        rank: Rank,
        encoded: &Encoded,
    ) -> Result<(), Refusal>
        requires sound { IsSoundCore self.old }
        requires holds { MayHold self.old.caches rank (leaf_of_job encoded.now.job) }
        requires begun { IsAtHand (state_of self.old) encoded.now.job }
        ensures ended { OnOk result (IsEnded (state_of self.old) (state_of self.new) encoded.now.job) }
        ensures whole { CommitsWhole (state_of self.old) (state_of self.new) }
        ensures tree { KeepsTree self.old self.new }
        ensures refused { IfErr result (MayRefuse self.old.faults self.new.faults) }
        ensures counted { self.new.faults ≡ self.old.faults + faults_told (result_err result) }
        ensures sound { IsSoundCore self.new }
    {
        self.end(alloc, rank, encoded)
    }
}

// The writes of jobs, in their order, made side by side by as many threads as there are processors. A job is heavy, so
// a thread may take a single one. Takes memory for them, and is refused for want of it alone.
fn encode_each(
    rt: &(impl Threads + Sync),
    alloc: Global,
    begun: Vec<Begun>,
) -> Result<Vec<Ready>, Refusal>
    ensures encoded { IfOk result (λ ready. ready.items ≡ list_map ready_of begun.items) }
    ensures refused { IfErr result (λ reason. reason ≡ NoMemory) }
{
    begun
        .into_par_iter()
        .with_min_len(1)
        .map(
            |one: Begun| -> Result<Ready, Refusal>
                ensures { IsReadied one result }
            { one.encode(alloc) },
        )
        .collect::<Result<Vec<Ready>, Refusal>>(rt, alloc)?
}
