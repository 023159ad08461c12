//! Refused for a commit: `StaleJob` and `JobOutstanding`.

use crate::asked::Asked;
use crate::leaf::Leaf;
use cluster_core::Cluster;
use objstore::Store;
use std::fmt;

/// Which job it is.
#[derive(Clone, Copy)]
pub(crate) enum JobWhy {
    /// No commit has a job of this number any more.
    Stale(u64),
    /// A commit of the leaf has a job of this number.
    Begun { leaf: Leaf, job: u64 },
}

/// The job that isn't there.
pub(crate) fn stale(asked: &Asked<'_>) -> Option<JobWhy> {
    match asked {
        Asked::Job(job) => Some(JobWhy::Stale(*job)),
        _ => None,
    }
}

/// The job of the leaf.
pub(crate) fn begun<S: Store + Drop>(cluster: &Cluster<S>, asked: &Asked<'_>) -> Option<JobWhy> {
    match asked {
        Asked::Commit { leaf, .. } => begun_of(cluster, leaf),
        _ => None,
    }
}

// The job of a leaf.
fn begun_of<S: Store + Drop>(cluster: &Cluster<S>, leaf: &Leaf) -> Option<JobWhy> {
    match cluster.jobs().get(leaf.dir, leaf.frag) {
        Some(job) => Some(JobWhy::Begun {
            leaf: *leaf,
            job: job.number,
        }),
        None => None,
    }
}

impl fmt::Display for JobWhy {
    fn fmt<W: fmt::Write>(&self, f: &mut fmt::Formatter<W>) -> fmt::Result {
        match self {
            JobWhy::Stale(job) => write!(
                f,
                "no commit has job {job} now: it ended, or a flush, a freeze or the end of its leaf gave it up"
            ),
            JobWhy::Begun { leaf, job } => {
                write!(f, "job {job} commits {leaf}; `end {job}` writes it, ")?;
                write!(f, "`drop {job}` gives it up")
            }
        }
    }
}
