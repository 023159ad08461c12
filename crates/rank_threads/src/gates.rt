//! Where a caller may watch or delay a run's threads.

use mds_types::Rank;

/// Calls that a run's threads make with no lock held, so that a caller can watch or delay them.
pub trait Gate: Sync {
    /// A worker is about to encode the job of this number.
    fn encoding(&self, job: u64);

    /// A rank's thread was given a reply.
    fn answered(&self, rank: Rank);

    /// A rank's thread made a step of its rank's own.
    fn moved(&self, rank: Rank);
}

/// A gate that delays no thread.
#[derive(Clone, Copy, Debug)]
pub struct OpenGate;

impl Gate for OpenGate {
    fn encoding(&self, _job: u64) {}

    fn answered(&self, _rank: Rank) {}

    fn moved(&self, _rank: Rank) {}
}
