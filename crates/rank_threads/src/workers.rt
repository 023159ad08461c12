//! The workers, which encode jobs.

use crate::desks::{Desk, Handed};
use crate::gates::Gate;
use crate::locking::lock;
use cached_frag::{Encoded, Job};
use crossbeam_channel::{Receiver, Sender};
use mds_types::Refusal;
use objstore::Store;
use std::alloc::Global;
use std::sync::{Mutex, Wait};

/// The result of a job at a worker.
#[derive(Drop)]
pub(crate) enum Finished {
    /// The job was encoded.
    Encoded(Encoded),
    /// The job wasn't encoded, for this reason.
    Failed { job: u64, refusal: Refusal },
}

/// Encodes jobs with no lock held, until the channel closes. If a result can't be sent on, the commit is given up.
pub(crate) fn encode_all<S: Store + Drop, L: Handed, G: Gate, R: Wait>(
    rt: &R,
    alloc: Global,
    desk: &Mutex<Desk<S, L>>,
    jobs: Receiver<Job>,
    results: Sender<Finished>,
    gate: &G,
) {
    for job in jobs.iter(rt) {
        let number = job.number;
        gate.encoding(number);
        if results.send(rt, encoded(alloc, job)).is_err() {
            lock(desk, rt).give_up(alloc, number);
        }
    }
}

// Encodes a job, or tells that this failed.
fn encoded(alloc: Global, job: Job) -> Finished {
    let number = job.number;
    match Encoded::of(alloc, job) {
        Ok(encoded) => Finished::Encoded(encoded),
        Err(refusal) => Finished::Failed {
            job: number,
            refusal,
        },
    }
}
