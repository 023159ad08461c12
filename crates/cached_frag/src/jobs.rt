//! The job of a commit.
ghost use Rattle.std.specs.Prelude.{◌≡◌, ◌↔◌, IfOk, IsTrue};

use crate::snapshots::Snapshot;
use mds_types::{Frag, Ino};
use std::alloc::AllocError;

/// A commit that was begun: what was taken out of the cache, to be encoded with no lock held.
#[derive(Debug, Drop)]
pub struct Job {
    /// The number of the job in its book.
    pub number: u64,
    /// The directory.
    pub ino: Ino,
    /// The leaf of the directory.
    pub frag: Frag,
    /// Which of the fragments that had this name it is.
    pub generation: u64,
    /// The fragment as it stood.
    pub snapshot: Snapshot,
}

impl Job {
    /// A copy. Takes memory for the snapshot.
    pub fn try_clone(&self) -> Result<Job, AllocError>
        ensures { IfOk result (λ copy. copy ≡ self.now) }
    {
        Ok(Job {
            number: self.number,
            ino: self.ino,
            frag: self.frag,
            generation: self.generation,
            snapshot: self.snapshot.try_clone()?,
        })
    }

    /// Whether both are one job: by number, fragment, generation and all of the snapshot.
    pub fn same(&self, other: &Job) -> bool
        ensures { IsTrue result ↔ (self.now ≡ other.now) }
    {
        self.number == other.number
            && self.ino == other.ino
            && self.frag == other.frag
            && self.generation == other.generation
            && self.snapshot.same(&other.snapshot)
    }
}
