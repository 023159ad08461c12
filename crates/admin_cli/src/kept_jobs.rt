//! The jobs that a script has begun. Each is kept until its commit is over, so that a later line can end it.
ghost use Rattle.std.specs.Prelude.{◌≡◌, OnOk, OnErr, option_copied};
ghost use Rattle.std.specs.FinMap as map;

use cached_frag::Job;
use sorted_map::SortedMap;
use std::alloc::{AllocError, Global};
use std::marker::Model;

/// Jobs by their numbers.
#[derive(Drop)]
pub struct KeptJobs {
    jobs: SortedMap<u64, Job>,
}

impl Model for KeptJobs {
    ghost use Rattle.std.specs.Coded.{codes};
    ghost use Rattle.std.specs.FinMap as map;
    ghost use Rattle.std.specs.Ordering.{nat_cmp};
    ghost use Rattle.sorted_map.specs.SortedMap.{contents};
    ghost use Rattle.cached_frag.specs.declared.jobs.Job as declared;

    ghost Value = { map.FinMap nat_cmp declared.Job };

    ghost coded = { Prim.hlevel (codes, map.code) };

    ghost view = { λ k. contents nat_cmp k.jobs };
}

impl KeptJobs {
    /// No jobs. Takes no memory.
    pub fn new(alloc: Global) -> KeptJobs
        ensures { result ≡ map.empty }
    {
        KeptJobs {
            jobs: SortedMap::new(alloc),
        }
    }

    /// The job of a number.
    pub fn get(&self, number: u64) -> Option<&Job>
        ensures { option_copied result ≡ map.get self.now number }
    {
        self.jobs.get(&number)
    }

    /// Removes the job of a number. Takes no memory.
    pub fn forget(&mut self, number: u64)
        ensures { self.new ≡ map.remove self.old number }
    {
        let _ = self.jobs.remove(&number);
    }

    /// Keeps a job. Takes memory for it.
    pub fn keep(&mut self, job: Job) -> Result<(), AllocError>
        ensures kept { OnOk result (self.new ≡ map.insert self.old job.number job) }
        ensures same { OnErr result (self.new ≡ self.old) }
    {
        self.jobs.reserve(1)?;
        let _ = self.jobs.insert(job.number, job);
        Ok(())
    }
}
