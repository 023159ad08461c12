//! Refused as something is used up or at fault: `NoMemory`, `StoreFault`, `NoInodes` and `Damaged`.

use crate::asked::Asked;
use crate::leaf::Leaf;
use cluster_core::Cluster;
use mds_types::{ObjName, Rank};
use objstore::Store;
use script_output::OwnStep;
use std::fmt;

/// What lacks or is at fault, and what is left.
#[derive(Clone, Copy)]
pub(crate) enum Lacks {
    Memory(Left),
    Store(Left),
    /// The rank's inode numbers, or a counter.
    Inodes(Rank),
    Counter,
    Object(ObjName),
    /// Other bytes than the export of this leaf sent.
    Bytes(Leaf),
}

/// What a refusal leaves.
#[derive(Clone, Copy)]
pub(crate) enum Left {
    /// The request waits on at this rank.
    Request(Rank),
    /// What a flush wrote until then.
    Written,
    /// All as it was.
    All,
}

/// What the refusal leaves.
pub(crate) fn what_stays<S: Store + Drop>(cluster: &Cluster<S>, asked: &Asked<'_>) -> Left {
    match asked {
        Asked::Serve(rank) => Left::Request(*rank),
        // with --ask the request was given up
        Asked::Operation(_) if cluster.waiting_at(Rank(0)) > 0 => Left::Request(Rank(0)),
        Asked::Flush => Left::Written,
        _ => Left::All,
    }
}

/// Which numbers are used up.
pub(crate) fn numbers(asked: &Asked<'_>) -> Lacks {
    match asked {
        Asked::Serve(rank) | Asked::Arrive(rank, _) => Lacks::Inodes(*rank),
        Asked::Operation(_) => Lacks::Inodes(Rank(0)),
        _ => Lacks::Counter,
    }
}

/// What isn't as it has to be.
pub(crate) fn damaged(asked: &Asked<'_>, object: ObjName) -> Lacks {
    match asked {
        Asked::Export(OwnStep::Import, leaf) => Lacks::Bytes(*leaf),
        _ => Lacks::Object(object),
    }
}

impl fmt::Display for Lacks {
    fn fmt<W: fmt::Write>(&self, f: &mut fmt::Formatter<W>) -> fmt::Result {
        match self {
            Lacks::Memory(left) => write!(f, "there was no memory for it; {left}"),
            Lacks::Store(left) => write!(f, "the store failed; {left}"),
            Lacks::Inodes(Rank(rank)) => write!(
                f,
                "rank {rank} has no inode number left, or a counter is at its end; the request was removed"
            ),
            Lacks::Counter => write!(f, "a counter of 64 bits is at its end"),
            Lacks::Object(object) => write!(f, "object {object} is outside its format"),
            Lacks::Bytes(leaf) => {
                write!(f, "the bytes aren't those that the export of {leaf} sent")
            }
        }
    }
}

impl fmt::Display for Left {
    fn fmt<W: fmt::Write>(&self, f: &mut fmt::Formatter<W>) -> fmt::Result {
        match self {
            Left::Request(Rank(rank)) => {
                write!(f, "the request waits on, and `serve {rank}` tries it again")
            }
            Left::Written => write!(f, "another flush writes what is left"),
            Left::All => write!(f, "nothing changed, and the line may be tried again"),
        }
    }
}
