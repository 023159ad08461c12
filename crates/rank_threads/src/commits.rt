//! Ending the commits whose jobs the workers encode.

use crate::desks::{Desk, Handed};
use crate::locking::lock;
use crate::workers::Finished;
use cached_frag::Encoded;
use crossbeam_channel::Receiver;
use mds_types::Refusal;
use objstore::Store;
use std::alloc::Global;
use std::sync::{Mutex, Wait};

/// The number of a job that was handed to the workers, and how its commit ended. An error is the refusal of the event
/// that ends the commit, or the reason why its encoding failed.
#[derive(Debug, Drop)]
pub struct Commit {
    pub job: u64,
    pub ended: Result<(), Refusal>,
}

/// Ends the commit of each result that the workers send, until the channel closes, and lists these commits in the order
/// in which they ended. Returns false if there was no memory to list them all.
pub(crate) fn end_all<S: Store + Drop, L: Handed, R: Wait>(
    rt: &R,
    alloc: Global,
    desk: &Mutex<Desk<S, L>>,
    results: &Receiver<Finished>,
    commits: &mut Vec<Commit>,
) -> bool {
    let mut listed = true;
    for finished in results.iter(rt) {
        let commit = end(rt, alloc, desk, finished);
        if commits.push(commit).is_err() {
            listed = false;
        }
    }
    listed
}

// Ends one commit, or gives it up where its encoding failed.
fn end<S: Store + Drop, L: Handed, R: Wait>(
    rt: &R,
    alloc: Global,
    desk: &Mutex<Desk<S, L>>,
    finished: Finished,
) -> Commit {
    match finished {
        Finished::Encoded(encoded) => end_encoded(rt, alloc, desk, encoded),
        Finished::Failed { job, refusal } => {
            lock(desk, rt).give_up(alloc, job);
            Commit {
                job,
                ended: Err(refusal),
            }
        }
    }
}

// Ends the commit of an encoded job. Where that is refused, the commit is given up, unless there is no such job.
fn end_encoded<S: Store + Drop, L: Handed, R: Wait>(
    rt: &R,
    alloc: Global,
    desk: &Mutex<Desk<S, L>>,
    encoded: Encoded,
) -> Commit {
    let job = encoded.job().number;
    let ended = lock(desk, rt).end(alloc, encoded);
    if let Err(refusal) = &ended {
        if *refusal != Refusal::StaleJob {
            lock(desk, rt).give_up(alloc, job);
        }
    }
    Commit { job, ended }
}
