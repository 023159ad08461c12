//! Commits begin: a snapshot of a fragment that isn't clean is given out as a job.
ghost use Rattle.std.specs.Prelude.{◌≡◌, ◌+◌, ◌-◌, ◌<◌, ◌^◌, false, Some, None, Ok, Err, OnOk, OnErr, IfOk, IfErr, length};
ghost use Rattle.std.specs.FinMap as map;
ghost use Rattle.mds_types.specs.declared.refusals.Refusal.TheVariants.{NoInodes, NoMemory};
ghost use Rattle.mds_types.specs.Leaf.{leaf_of};
ghost use Rattle.inode_table.specs.Dirs.{IsLive};
ghost use Rattle.cached_frag.specs.Snap.{IsBelowEnd, IsSnap};
ghost use Rattle.cached_frag.specs.Cached.{Cached, is_clean};
ghost use Rattle.dentry_cache.specs.Cache.{HasCached};
ghost use Rattle.dentry_cache.specs.CacheMap.{here, used_at};
ghost use Rattle.dentry_cache.specs.Came.{Came, IsThat, NoneEnds};
ghost use Rattle.mdcache.specs.Commits.{Begins, IsAtEnd, told_of_commit};
ghost use Rattle.mdcache.specs.Core.{IsJobOf, IsSoundCore, state_of, used_core, with_job_in};
ghost use Rattle.mdcache.specs.Ranks.{MayHold};

use crate::mdcache::MdCache;
use crate::standing_jobs::StandingJobs;
use cached_frag::{Base, Job, Snapshot};
use dentry_cache::Caches;
use mds_types::{Dirfrag, Refusal};
use objstore::Store;
use std::alloc::AllocError;

impl<S: Store + Drop> MdCache<S> {
    /// Begins a commit of a leaf that is there, at the rank that holds it: gives the job of its snapshot, which stands
    /// from now on; none, exactly where the leaf is clean. Takes memory for the snapshot, twice.
    ///
    /// Refused `JobOutstanding` where a job stands for it, `NoInodes` where no number is left for the job or for the
    /// version that the commit writes, and `NoMemory`.
    pub fn begin(&mut self, at: &Dirfrag) -> Result<Option<Job>, Refusal>
        requires sound { IsSoundCore self.old }
        requires live { IsLive self.old.homes self.old.covers (leaf_of at.now) }
        requires holds { MayHold self.old.caches at.now.rank (leaf_of at.now) }
        ensures begun { Begins (state_of self.old) (state_of self.new) (leaf_of at.now) result }
        ensures came { Came (IsThat at.now.rank.0 (leaf_of at.now)) NoneEnds self.old.caches self.new.caches }
        ensures faults { self.new.faults ≡ self.old.faults }
        ensures sound { IsSoundCore self.new }
    {
        if self.jobs.get(at.dir, at.frag).is_some() {
            return Err(Refusal::JobOutstanding);
        }
        let Some((base, generation)) = unsaved(&self.caches, at) else {
            return Ok(None);
        };
        match self.begin_unsaved(at, base, generation) {
            Ok(job) => Ok(Some(job)),
            Err(refusal) => Err(refusal),
        }
    }

    // Begins a commit of a leaf that isn't clean and for which no job stands, of whose fragment base and generation
    // were told. Takes memory for the snapshot, twice.
    pub(crate) fn begin_unsaved(
        &mut self,
        at: &Dirfrag,
        base: Base,
        generation: u64,
    ) -> Result<Job, Refusal>
        requires sound { IsSoundCore self.old }
        requires live { IsLive self.old.homes self.old.covers (leaf_of at.now) }
        requires holds { MayHold self.old.caches at.now.rank (leaf_of at.now) }
        requires free { map.get self.old.jobs (leaf_of at.now) ≡ None }
        requires told { Some (base, generation) ≡ told_of_commit (here self.old.caches at.now.rank.0 (leaf_of at.now)) }
        ensures begun { IfOk result
            (λ job. Begins (state_of self.old) (state_of self.new) (leaf_of at.now) (Ok (Some job))) }
        ensures refused { IfErr result
            (λ reason. Begins (state_of self.old) (state_of self.new) (leaf_of at.now) (Err reason)) }
        ensures came { Came (IsThat at.now.rank.0 (leaf_of at.now)) NoneEnds self.old.caches self.new.caches }
        ensures faults { self.new.faults ≡ self.old.faults }
        ensures sound { IsSoundCore self.new }
    {
        if let Err(refusal) = check_numbers(self.next.job, base) {
            return Err(refusal);
        }
        self.begin_at(at, generation)
    }

    // A job of the next number stands from now on for a fragment that isn't clean, and is given back. Takes memory for
    // the snapshot, twice; refused for want of it alone, and no more jobs stand then than before.
    fn begin_at(&mut self, at: &Dirfrag, generation: u64) -> Result<Job, Refusal>
        requires there { at.now.rank.0 < length self.old.caches.used }
        requires begins { HasCached (here self.old.caches at.now.rank.0 (leaf_of at.now))
            (λ (f : Cached). (is_clean f ≡ false) × IsBelowEnd f.base × (generation ≡ f.generation)) }
        requires number { self.old.next_job < 2 ^ 64 - 1 }
        ensures taken { IfOk result
            (λ job. HasCached (here self.old.caches at.now.rank.0 (leaf_of at.now))
            (IsJobOf self.old.next_job (leaf_of at.now) job)) }
        ensures stands { IfOk result (λ job. self.new ≡ with_job_in self.old at.now job self.new.room) }
        ensures valid { IfOk result (λ job. IsSnap job.snapshot) }
        ensures err { IfErr result (λ reason. reason ≡ NoMemory) }
        ensures left { OnErr result (self.new ≡ used_core self.old at.now self.new.room) }
    {
        let snapshot = self.caches.begin_commit(*at)?;
        let job = job_of(self.next.job, at, generation, snapshot);
        match stand(&mut self.jobs, job) {
            Ok(job) => {
                self.next.job += 1;
                Ok(job)
            }
            Err(refusal) => Err(refusal),
        }
    }
}

// The job of a snapshot, which is one.
fn job_of(number: u64, at: &Dirfrag, generation: u64, snapshot: Snapshot) -> Job
    ensures job { result ≡ record
        { number = number; ino = at.now.dir; frag = at.now.frag; generation = generation; snapshot = snapshot } }
    ensures valid { IsSnap result.snapshot }
{
    // The contract of `base` is what says here that it is a snapshot.
    let _ = snapshot.base();
    Job {
        number,
        ino: at.dir,
        frag: at.frag,
        generation,
        snapshot,
    }
}

// Base and generation of a fragment that isn't clean; none for one that is.
pub(crate) fn unsaved(caches: &Caches, at: &Dirfrag) -> Option<(Base, u64)>
    requires { at.now.rank.0 < length caches.now.used }
    ensures { result ≡ told_of_commit (here caches.now at.now.rank.0 (leaf_of at.now)) }
{
    match caches.get(*at) {
        Some(fragment) if !fragment.is_clean() => Some((fragment.base(), fragment.generation())),
        _ => None,
    }
}

// Whether a number is left for a job, and one for the version that it will write.
fn check_numbers(number: u64, base: Base) -> Result<(), Refusal>
    ensures ok { OnOk result ((IsAtEnd number base → ⊥) × (number < 2 ^ 64 - 1) × IsBelowEnd base) }
    ensures err { IfErr result (λ reason. (reason ≡ NoInodes) × IsAtEnd number base) }
{
    if number == u64::MAX || base == Base::Stored(u64::MAX) {
        return Err(Refusal::NoInodes);
    }
    Ok(())
}

// A job stands from now on, as a copy, and is given back.
fn stand(jobs: &mut StandingJobs, job: Job) -> Result<Job, Refusal>
    ensures given { IfOk result (λ given. given ≡ job) }
    ensures stands { OnOk result (jobs.new.jobs ≡ map.insert jobs.old.jobs (job.ino, job.frag) job) }
    ensures err { IfErr result (λ reason. reason ≡ NoMemory) }
    ensures left { OnErr result (jobs.new.jobs ≡ jobs.old.jobs) }
{
    match copy_with_room(jobs, &job) {
        Ok(copy) => {
            jobs.put(copy);
            Ok(job)
        }
        Err(_) => {
            drop(job);
            Err(Refusal::NoMemory)
        }
    }
}

// A copy of a job, and room for it among those that stand.
fn copy_with_room(jobs: &mut StandingJobs, job: &Job) -> Result<Job, AllocError>
    ensures copy { IfOk result (λ copy. copy ≡ job.now) }
    ensures room { OnOk result (0 < jobs.new.room) }
    ensures same { jobs.new.jobs ≡ jobs.old.jobs }
{
    jobs.reserve(1)?;
    job.try_clone()
}
