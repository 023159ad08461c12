//! Commits that are given up.
ghost use Rattle.std.specs.Prelude.{◌≡◌};
ghost use Rattle.std.specs.FinMap as map;
ghost use Rattle.mdcache.specs.Commits.{Drops};
ghost use Rattle.mdcache.specs.Core.{IsSoundCore, state_of};
ghost use Rattle.mdcache.specs.StandingJobs.{IsNextJob};

use crate::mdcache::MdCache;
use mds_types::{Frag, Ino, Refusal};
use objstore::Store;

impl<S: Store + Drop> MdCache<S> {
    /// Gives up the job of a number: its fragment stays as dirty as it is, and another commit of it may begin. Takes no
    /// memory.
    ///
    /// Refused `StaleJob` exactly where no job of this number stands.
    pub fn drop_job(&mut self, number: u64) -> Result<(), Refusal>
        requires { IsSoundCore self.old }
        ensures dropped { Drops (state_of self.old) (state_of self.new) number result }
        ensures caches { self.new.caches ≡ self.old.caches }
        ensures faults { self.new.faults ≡ self.old.faults }
        ensures sound { IsSoundCore self.new }
    {
        match self.jobs.leaf_of(number) {
            Some(leaf) => {
                self.jobs.end(leaf.0, leaf.1);
                Ok(())
            }
            None => Err(Refusal::StaleJob),
        }
    }

    /// The first leaf behind another for which a job stands; behind none, the first of all. Takes no memory.
    pub fn next_job_leaf(&self, after: Option<(Ino, Frag)>) -> Option<(Ino, Frag)>
        ensures { IsNextJob self.now.jobs after result }
    {
        self.jobs.next(after)
    }

    /// Gives up the job of a leaf, as `drop_job` does that of a number. A leaf for which none stands changes nothing.
    /// Takes no memory.
    pub fn end_job(&mut self, dir: Ino, frag: Frag)
        requires { IsSoundCore self.old }
        ensures state { state_of self.new ≡ record (state_of self.old) { jobs = map.remove self.old.jobs (dir, frag) } }
        ensures caches { self.new.caches ≡ self.old.caches }
        ensures faults { self.new.faults ≡ self.old.faults }
        ensures sound { IsSoundCore self.new }
    {
        self.jobs.end(dir, frag);
    }
}
