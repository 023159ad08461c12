//! The progress of a run, shown while it works.

use crate::workload::loads::Load;
use mds_types::Rank;
use rank_threads::Gate;
use std::sync::atomic::{AtomicU64, Ordering};

/// The line is written again after so many creates.
const STEP: u64 = 250;

/// Shows on standard error how many of the creates are done, and at the end how many own steps the ranks made.
#[derive(Drop)]
pub struct Progress<'a, R: Eprint + Sync> {
    rt: &'a R,
    all: u64,
    done: AtomicU64,
    moved: AtomicU64,
}

impl<'a, R: Eprint + Sync> Progress<'a, R> {
    /// The progress of a load, none of whose creates is done yet.
    pub fn new(rt: &'a R, load: Load) -> Progress<'a, R> {
        Progress {
            rt,
            all: u64::from(load.clients) * u64::from(load.creates),
            done: AtomicU64::new(0),
            moved: AtomicU64::new(0),
        }
    }

    /// Shows how many own steps the ranks made.
    pub fn end(&self) {
        let moved = self.moved.load(Ordering::Relaxed);
        let _ = eprintln!(self.rt; "{moved} steps of ranks' own");
    }
}

impl<'a, R: Eprint + Sync> Gate for Progress<'a, R> {
    fn encoding(&self, _job: u64) {}

    fn answered(&self, _rank: Rank) {
        let done = self.done.fetch_add(1, Ordering::Relaxed).wrapping_add(1);
        let all = self.all;
        if done == all {
            let _ = eprintln!(self.rt; "\r{done} of {all} creates");
        } else if done % STEP == 0 {
            let _ = eprint!(self.rt; "\r{done} of {all} creates");
        }
    }

    fn moved(&self, _rank: Rank) {
        let _ = self.moved.fetch_add(1, Ordering::Relaxed);
    }
}
