//! What a run gives, or why it gives nothing.
ghost use Rattle.std.specs.Prelude.{◌≡◌};
ghost use Rattle.rank_threads.specs.Faults.{run_fault_number};

use crate::commits::Commit;
use cluster_core::{Answer, Book, KeptBytes, Receipt};
use mds_types::Refusal;
use objstore::Store;
use thiserror::Error;

/// What a run gave.
#[derive(Drop)]
pub struct Outcome<S: Store + Drop> {
    /// The book as the threads left it.
    pub book: Book<S>,
    /// For each plan the results of its turns, in their order.
    pub answers: Vec<Vec<Result<Answer, Refusal>>>,
    /// For each plan the bytes that its thread still keeps, each under the root of its export: they were sent and not
    /// imported.
    pub kept: Vec<KeptBytes>,
    /// The replies among the answers.
    pub receipts: Vec<Receipt>,
    /// How each commit that was handed to the workers ended, in the order in which they ended.
    pub commits: Vec<Commit>,
}

/// A run that gave no outcome, with its book. `Cluster::sent_bytes` returns the bytes of exports again that its threads
/// kept.
#[derive(Drop)]
pub struct RunError<S: Store + Drop> {
    pub fault: RunFault,
    /// The book as the threads left it.
    pub book: Book<S>,
}

/// Why a run gave no outcome.
#[derive(Clone, Copy, Debug, PartialEq, Eq, Error)]
pub enum RunFault {
    /// Memory was refused.
    #[error("out of memory")]
    NoMemory,
    /// A thread couldn't be made.
    #[error("a thread can't be made")]
    Spawn,
    /// The history doesn't hold a reply at its place; or two requests were told that they were applied at one place, or
    /// one was told an older place; or the entry of a reply that was handed out again was forgotten before the run.
    #[error("replies don't agree with the history")]
    Strayed,
}

impl RunFault {
    /// The number that the program prints: 1 to 3 in the order above.
    pub fn number(self) -> u8
        ensures { result ≡ run_fault_number self }
    {
        match self {
            RunFault::NoMemory => 1,
            RunFault::Spawn => 2,
            RunFault::Strayed => 3,
        }
    }
}
