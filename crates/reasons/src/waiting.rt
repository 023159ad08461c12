//! Refused for what waits: `InboxEmpty`, `InboxFull` and `Trimmed`.

use crate::asked::Asked;
use crate::requests::master;
use cluster_core::{Book, Cluster};
use mds_types::{Rank, Request};
use objstore::Store;
use std::fmt;

/// The most requests that wait at a rank.
const MOST_WAITING: usize = 1024;

/// What it is about.
#[derive(Clone, Copy)]
pub(crate) enum Queue {
    /// Nothing waits at the rank.
    Empty(Rank),
    /// No such request waits anywhere.
    NoRequest { client: u64, tid: u64 },
    /// As many wait at the rank as may.
    Full(Rank),
    /// So many wait at the rank to which the front of this one would go.
    FullThere { from: Rank, to: Rank },
    /// The request is older than the oldest that its own client still asks for.
    Old { client: u64, tid: u64, oldest: u64 },
    /// So it is, and entries are forgotten that may tell which is the oldest.
    OldOf { client: u64, tid: u64 },
    /// The request that was at the front was older than that.
    OldFront(Rank),
}

/// Why nothing that waits was found.
pub(crate) fn empty(asked: &Asked<'_>) -> Option<Queue> {
    match asked {
        Asked::Serve(rank) => Some(Queue::Empty(*rank)),
        Asked::Operation(_) => Some(Queue::Empty(Rank(0))),
        Asked::Grant { client, tid, .. } => Some(Queue::NoRequest {
            client: *client,
            tid: *tid,
        }),
        _ => None,
    }
}

/// Where no more may wait.
pub(crate) fn full<S: Store + Drop>(cluster: &Cluster<S>, asked: &Asked<'_>) -> Option<Queue> {
    match asked {
        Asked::Arrive(rank, _) => Some(Queue::Full(*rank)),
        Asked::Serve(rank) => full_there(cluster, *rank),
        Asked::Operation(_) => full_at_0(cluster),
        _ => None,
    }
}

// No more may wait at rank 0, or where its front would go.
fn full_at_0<S: Store + Drop>(cluster: &Cluster<S>) -> Option<Queue> {
    if cluster.waiting_at(Rank(0)) >= MOST_WAITING {
        return Some(Queue::Full(Rank(0)));
    }
    full_there(cluster, Rank(0))
}

// The front of a rank's inbox would go to this one.
fn full_there<S: Store + Drop>(cluster: &Cluster<S>, rank: Rank) -> Option<Queue> {
    let request = cluster.front(rank)?;
    let to = master(cluster, &request.op)?;
    Some(Queue::FullThere { from: rank, to })
}

/// Which request was too old.
pub(crate) fn old<S: Store + Drop>(book: &Book<S>, asked: &Asked<'_>) -> Option<Queue> {
    match asked {
        Asked::Serve(rank) => Some(Queue::OldFront(*rank)),
        Asked::Operation(_) => Some(Queue::OldFront(Rank(0))),
        Asked::Arrive(_, request) => Some(old_request(book, request)),
        _ => None,
    }
}

// What the client of a request still asks for: the greatest that it ever named, where no entry is forgotten.
fn old_request<S: Store + Drop>(book: &Book<S>, request: &Request) -> Queue {
    let (client, tid) = (request.client, request.tid);
    if book.places() > book.history().len() {
        return Queue::OldOf { client, tid };
    }
    let mut oldest = request.oldest;
    for entry in book.history() {
        if entry.client == client && entry.oldest > oldest {
            oldest = entry.oldest;
        }
    }
    Queue::Old {
        client,
        tid,
        oldest,
    }
}

impl fmt::Display for Queue {
    fn fmt<W: fmt::Write>(&self, f: &mut fmt::Formatter<W>) -> fmt::Result {
        match self {
            Queue::Empty(Rank(rank)) => write!(f, "nothing waits at rank {rank}"),
            Queue::NoRequest { client, tid } => {
                write!(f, "client {client}, request {tid}, waits at no rank")
            }
            Queue::Full(Rank(rank)) => write!(
                f,
                "1024 requests wait at rank {rank}, and no more may; `serve {rank}` serves the first"
            ),
            Queue::FullThere {
                from: Rank(from),
                to: Rank(to),
            } => write!(
                f,
                "the front of rank {from}'s inbox is for rank {to}, where 1024 wait; `serve {to}` first"
            ),
            Queue::Old {
                client,
                tid,
                oldest,
            } => write!(
                f,
                "request {tid} of client {client} is below {oldest}, the oldest that it still asks for"
            ),
            Queue::OldOf { client, tid } => write!(
                f,
                "request {tid} of client {client} is below the oldest that it still asks for"
            ),
            Queue::OldFront(Rank(rank)) => write!(
                f,
                "the front of rank {rank}'s inbox was older than its client still asks for, and was removed"
            ),
        }
    }
}
