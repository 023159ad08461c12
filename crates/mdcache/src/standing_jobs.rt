//! `StandingJobs`, what a contract sees of it, and its calls.
ghost use Rattle.std.specs.Prelude.{◌≡◌, ◌≤◌, ◌<◌, ◌+◌, IsOk, OnOk, OnErr, option_copied};
ghost use Rattle.std.specs.FinMap as map;
ghost use Rattle.std.specs.FinMap.Entries.{where_key};
ghost use Rattle.sorted_map.specs.SortedMap.{contents};
ghost use Rattle.mds_types.specs.Leaf.{leaf_cmp};
ghost use Rattle.mdcache.specs.StandingJobs.{Finds, IsNextJob, is_behind};

use cached_frag::Job;
use mds_types::{Frag, Ino};
use sorted_map::{Iter, SortedMap};
use std::alloc::{AllocError, Global};
use std::marker::Model;

/// The jobs that were given out and are awaited, at most one for each leaf.
#[derive(Debug, Drop)]
pub struct StandingJobs {
    jobs: SortedMap<(Ino, Frag), Job>,
}

impl Model for StandingJobs {
    ghost use Rattle.std.specs.Coded.{codes};
    ghost use Rattle.std.specs.FinMap as map;
    ghost use Rattle.sorted_map.specs.SortedMap.{contents};
    ghost use Rattle.mds_types.specs.Leaf.{leaf_cmp};
    ghost use Rattle.mdcache.specs.StandingJobs.{JobTable};

    ghost Value = { JobTable };

    ghost coded = { Prim.hlevel (codes, map.code) };

    ghost view = { λ s. record { jobs = contents leaf_cmp s.jobs; room = s.jobs.room } };
}

impl StandingJobs {
    /// No jobs, and no room. Takes no memory.
    pub fn new(alloc: Global) -> StandingJobs
        ensures { result ≡ record { jobs = map.empty; room = 0 } }
    {
        StandingJobs {
            jobs: SortedMap::new(alloc),
        }
    }

    /// How many jobs stand.
    pub fn len(&self) -> usize
        ensures { result ≡ map.len self.now.jobs }
    {
        self.jobs.len()
    }

    /// The job that stands for a leaf. Takes logarithmic time.
    pub fn get(&self, dir: Ino, frag: Frag) -> Option<&Job>
        ensures { option_copied result ≡ map.get self.now.jobs (dir, frag) }
    {
        self.jobs.get(&(dir, frag))
    }

    /// The leaf for which the job of a number stands. Each job is looked at; takes no memory.
    pub fn leaf_of(&self, number: u64) -> Option<(Ino, Frag)>
        ensures { Finds self.now.jobs number result }
    {
        find(&self.jobs, number)
    }

    /// The first leaf behind another for which a job stands; behind none, the first of all. Takes no memory.
    pub fn next(&self, after: Option<(Ino, Frag)>) -> Option<(Ino, Frag)>
        ensures { IsNextJob self.now.jobs after result }
    {
        first_after(&self.jobs, after)
    }

    /// Makes room for so many jobs. Where the room is there already nothing is done, and there is no error.
    pub fn reserve(&mut self, jobs: usize) -> Result<(), AllocError>
        ensures ok { OnOk result (jobs ≤ self.new.room) }
        ensures same { self.new.jobs ≡ self.old.jobs }
        ensures grows { self.old.room ≤ self.new.room }
        ensures ready { jobs ≤ self.old.room → IsOk result × (self.new ≡ self.old) }
        ensures err { OnErr result (self.new ≡ self.old) }
    {
        self.jobs.reserve(jobs)
    }

    /// A job stands for its leaf, for which there is room; one that stood for it is gone. Takes no memory.
    pub fn put(&mut self, job: Job)
        requires { 0 < self.old.room }
        ensures put { self.new.jobs ≡ map.insert self.old.jobs (job.ino, job.frag) job }
        ensures room { self.old.room ≤ self.new.room + 1 }
    {
        let _ = self.jobs.insert((job.ino, job.frag), job);
    }

    /// The job of a leaf ends. A leaf for which none stands changes nothing. Takes no memory.
    pub fn end(&mut self, dir: Ino, frag: Frag)
        ensures ended { self.new.jobs ≡ map.remove self.old.jobs (dir, frag) }
        ensures room { self.old.room ≤ self.new.room }
    {
        let _ = self.jobs.remove(&(dir, frag));
    }
}

// The leaf of the first job with a number.
fn find(jobs: &SortedMap<(Ino, Frag), Job>, number: u64) -> Option<(Ino, Frag)>
    ensures { Finds (contents leaf_cmp jobs.now) number result }
{
    let mut left = jobs.iter();
    while let Some((leaf, job)) = left.next() {
        if job.number == number {
            return Some(*leaf);
        }
    }
    None
}

// The first leaf behind another for which there is a job.
fn first_after(
    jobs: &SortedMap<(Ino, Frag), Job>,
    after: Option<(Ino, Frag)>,
) -> Option<(Ino, Frag)>
    ensures { IsNextJob (contents leaf_cmp jobs.now) after result }
{
    Some(rest_after(jobs, after).next()?.0)
}

// The jobs of the leaves behind one.
fn rest_after(
    jobs: &SortedMap<(Ino, Frag), Job>,
    after: Option<(Ino, Frag)>,
) -> Iter<'_, (Ino, Frag), Job>
    ensures { result ≡ where_key leaf_cmp (is_behind after) (map.entries (contents leaf_cmp jobs.now)) }
{
    match after {
        Some(leaf) => jobs.iter_after(&leaf),
        None => jobs.iter(),
    }
}
