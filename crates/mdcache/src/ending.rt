//! Commits end: what was encoded is written, and what it has is clean then.
ghost use Rattle.std.specs.Prelude.{◌≡◌, ◌+◌, ◌↔◌, IsTrue, Some};
ghost use Rattle.std.specs.Result.{result_err};
ghost use Rattle.std.specs.FinMap as map;
ghost use Rattle.objstore.specs.Objects.{faults_told};
ghost use Rattle.dentry_cache.specs.Came.{Came, IsThat, NoneEnds};
ghost use Rattle.mdcache.specs.Commits.{EndsJobOf, leaf_of_job};
ghost use Rattle.mdcache.specs.Core.{IsSoundCore, state_of};
ghost use Rattle.mdcache.specs.Ranks.{MayHold};

use crate::mdcache::MdCache;
use crate::standing_jobs::StandingJobs;
use cached_frag::{Encoded, Job};
use mds_types::{Rank, Refusal};
use objstore::Store;
use std::alloc::Global;

impl<S: Store + Drop> MdCache<S> {
    /// Ends a commit of a leaf that the rank holds: writes the object of its snapshot in one atomic operation. Exactly
    /// the names whose last change the snapshot has are clean then, and the job is gone. Takes memory before it writes.
    ///
    /// Refused `StaleJob` exactly where no job of this number, fragment, generation and snapshot stands; otherwise as
    /// the store refuses the write, and `NoMemory`: all stays dirty then, and the job stands.
    pub fn end(&mut self, alloc: Global, rank: Rank, encoded: &Encoded) -> Result<(), Refusal>
        requires sound { IsSoundCore self.old }
        requires holds { MayHold self.old.caches rank (leaf_of_job encoded.now.job) }
        ensures ended { EndsJobOf (state_of self.old)
            (state_of self.new) self.old.faults self.new.faults encoded.now.job result }
        ensures came { Came (IsThat rank.0 (leaf_of_job encoded.now.job)) NoneEnds self.old.caches self.new.caches }
        ensures counted { self.new.faults ≡ self.old.faults + faults_told (result_err result) }
        ensures sound { IsSoundCore self.new }
    {
        let job = encoded.job();
        if !stands(&self.jobs, job) {
            return Err(Refusal::StaleJob);
        }
        if let Err(refusal) = self
            .caches
            .end_commit(alloc, &mut self.store, rank, encoded)
        {
            return Err(refusal);
        }
        self.jobs.end(job.ino, job.frag);
        Ok(())
    }
}

// Whether this very job stands.
fn stands(jobs: &StandingJobs, job: &Job) -> bool
    ensures { IsTrue result ↔ (map.get jobs.now.jobs (leaf_of_job job.now) ≡ Some job.now) }
{
    match jobs.get(job.ino, job.frag) {
        Some(standing) => standing.same(job),
        None => false,
    }
}
