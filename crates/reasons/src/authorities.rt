//! Refused `NotAuthority`: a rank that isn't there, isn't the authority, has nothing to grant, or would export to itself.

use crate::asked::Asked;
use crate::leaf::{Leaf, Words};
use crate::looks::{MOST_LEAVES, authority, end_of, export_of, is_rank, leaf_inside};
use cluster_core::Cluster;
use mds_types::Rank;
use objstore::Store;
use script_output::OwnStep;
use std::fmt;

/// Which of these it is.
#[derive(Clone, Copy)]
pub(crate) enum NotIts {
    /// There is no such rank. The last one that there is.
    NoRank {
        rank: Rank,
        last: usize,
    },
    /// A leaf is another rank's.
    Another {
        leaf: Leaf,
        rank: Rank,
        authority: Rank,
    },
    /// One of the leaves to merge is.
    Among {
        leaf: Leaf,
        rank: Rank,
        authority: Rank,
    },
    /// The rank has nothing to grant.
    NoGrant {
        rank: Rank,
        client: u64,
        tid: u64,
    },
    /// An export from a rank to itself.
    Itself(Rank),
    /// The leaf of a started export is another rank's by now.
    Moved {
        leaf: Leaf,
        exporter: Rank,
        authority: Rank,
    },
}

/// Which of these it is, as far as the book tells.
pub(crate) fn not_its<S: Store + Drop>(cluster: &Cluster<S>, asked: &Asked<'_>) -> Option<NotIts> {
    match asked {
        Asked::Arrive(rank, _) | Asked::Serve(rank) | Asked::Own(rank) | Asked::Evict(rank) => {
            no_rank(cluster, *rank)
        }
        Asked::Grant { rank, client, tid } => Some(not_of_grant(cluster, *rank, *client, *tid)),
        Asked::Split { rank, leaf, .. } | Asked::Commit { rank, leaf } => {
            not_of_leaf(cluster, *rank, leaf)
        }
        Asked::Merge { rank, whole } => not_of_merge(cluster, *rank, whole),
        Asked::Start { from, leaf, to } => not_of_start(cluster, *from, leaf, *to),
        Asked::Export(OwnStep::Freeze, leaf) => not_of_freeze(cluster, leaf),
        _ => None,
    }
}

// There is no such rank.
fn no_rank<S: Store + Drop>(cluster: &Cluster<S>, rank: Rank) -> Option<NotIts> {
    if is_rank(cluster, rank) {
        return None;
    }
    let last = cluster.ranks().saturating_sub(1);
    Some(NotIts::NoRank { rank, last })
}

// There is no such rank, or it has nothing to grant.
fn not_of_grant<S: Store + Drop>(
    cluster: &Cluster<S>,
    rank: Rank,
    client: u64,
    tid: u64,
) -> NotIts {
    match no_rank(cluster, rank) {
        Some(none) => none,
        None => NotIts::NoGrant { rank, client, tid },
    }
}

// There is no such rank, or a leaf is another's.
fn not_of_leaf<S: Store + Drop>(cluster: &Cluster<S>, rank: Rank, leaf: &Leaf) -> Option<NotIts> {
    let none = no_rank(cluster, rank);
    if none.is_some() {
        return none;
    }
    match authority(cluster, leaf) {
        Some(authority) => Some(NotIts::Another {
            leaf: *leaf,
            rank,
            authority,
        }),
        None => None,
    }
}

// There is no such rank, or one of the leaves to merge is another's.
fn not_of_merge<S: Store + Drop>(cluster: &Cluster<S>, rank: Rank, whole: &Leaf) -> Option<NotIts> {
    let none = no_rank(cluster, rank);
    if none.is_some() {
        return none;
    }
    let mut hash = whole.frag.value();
    for _ in 0..MOST_LEAVES {
        let leaf = leaf_inside(cluster, whole, hash)?;
        hash = end_of(leaf.frag);
        let found = not_among(cluster, rank, &leaf);
        if found.is_some() {
            return found;
        }
    }
    None
}

// One of the leaves to merge is another's.
fn not_among<S: Store + Drop>(cluster: &Cluster<S>, rank: Rank, leaf: &Leaf) -> Option<NotIts> {
    match authority(cluster, leaf) {
        Some(authority) if authority != rank => Some(NotIts::Among {
            leaf: *leaf,
            rank,
            authority,
        }),
        _ => None,
    }
}

// There is no such rank, the export would go to the exporter, or the leaf is another's.
fn not_of_start<S: Store + Drop>(
    cluster: &Cluster<S>,
    from: Rank,
    leaf: &Leaf,
    to: Rank,
) -> Option<NotIts> {
    let none = no_rank(cluster, from);
    if none.is_some() {
        return none;
    }
    let none = no_rank(cluster, to);
    if none.is_some() {
        return none;
    }
    if from.0 == to.0 {
        return Some(NotIts::Itself(from));
    }
    not_of_leaf(cluster, from, leaf)
}

// The leaf of a started export is another's by now.
fn not_of_freeze<S: Store + Drop>(cluster: &Cluster<S>, leaf: &Leaf) -> Option<NotIts> {
    let under_way = export_of(cluster, leaf)?;
    match authority(cluster, leaf) {
        Some(authority) => Some(NotIts::Moved {
            leaf: *leaf,
            exporter: under_way.export.exporter,
            authority,
        }),
        None => None,
    }
}

impl fmt::Display for NotIts {
    fn fmt<W: fmt::Write>(&self, f: &mut fmt::Formatter<W>) -> fmt::Result {
        match self {
            NotIts::NoRank {
                rank: Rank(rank),
                last,
            } => write!(f, "there is no rank {rank}: the last one is rank {last}"),
            NotIts::Another {
                leaf,
                rank: Rank(rank),
                authority: Rank(authority),
            } => write!(
                f,
                "{leaf} is rank {authority}'s, not rank {rank}'s; name rank {authority}"
            ),
            NotIts::Among {
                leaf,
                rank: Rank(rank),
                authority: Rank(authority),
            } => write!(
                f,
                "{leaf}, a leaf to merge, is rank {authority}'s, not rank {rank}'s; export it first"
            ),
            NotIts::NoGrant {
                rank: Rank(rank),
                client,
                tid,
            } => write!(
                f,
                "client {client}, request {tid}, would change no leaf of rank {rank}"
            ),
            NotIts::Itself(Rank(rank)) => {
                write!(f, "the export would go from rank {rank} to rank {rank}")
            }
            NotIts::Moved {
                leaf,
                exporter,
                authority,
            } => write_moved(f, leaf, *exporter, *authority),
        }
    }
}

// That a leaf is another's than its exporter's.
fn write_moved<W: fmt::Write>(
    f: &mut fmt::Formatter<W>,
    leaf: &Leaf,
    exporter: Rank,
    authority: Rank,
) -> fmt::Result {
    let (Rank(exporter), Rank(authority)) = (exporter, authority);
    let words = Words(leaf);
    write!(
        f,
        "{leaf} is rank {authority}'s now, and its export is from rank {exporter}; "
    )?;
    write!(f, "`export cancel {words}` ends it")
}
