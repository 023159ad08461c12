//! Where the names of a request lie, and why a rank doesn't serve it.

use crate::asked::Asked;
use crate::exports::{Freezes, frozen};
use crate::leaf::Leaf;
use crate::looks::{MOST_LEAVES, authority, end_of, holder, is_granted, leaf_at};
use cluster_core::Cluster;
use mds_types::{Dentry, Dirfrag, Ino, Kind, Op, Rank, Request};
use namehash::rjenkins;
use objstore::Store;
use sorted_map::Finger;
use std::cell::Cell;
use std::fmt;

/// Why a request has to wait.
#[derive(Clone, Copy)]
pub(crate) enum Deferral {
    /// A leaf is frozen that it would change at this rank.
    Frozen(Freezes, Rank),
    /// One is another rank's, which hasn't granted it.
    Ungranted {
        leaf: Leaf,
        authority: Rank,
        client: u64,
        tid: u64,
    },
    /// A leaf of the directory that would be removed is frozen, or another rank's and not granted.
    Gone,
}

/// The rank to which a request was forwarded, by this leaf.
#[derive(Clone, Copy)]
pub(crate) struct Forwarding {
    leaf: Leaf,
    to: Rank,
    client: u64,
    tid: u64,
}

// The leaf where a dentry's name lies.
fn leaf_of<S: Store + Drop>(cluster: &Cluster<S>, dentry: &Dentry) -> Option<Leaf> {
    leaf_at(cluster, dentry.dir, rjenkins(dentry.name.as_bytes()))
}

/// The leaf of an operation whose authority serves it.
pub(crate) fn main_leaf<S: Store + Drop>(cluster: &Cluster<S>, op: &Op) -> Option<Leaf> {
    match op.main_dentry() {
        Some(dentry) => leaf_of(cluster, dentry),
        None => leaf_at(cluster, op.destination(), 0),
    }
}

/// The leaf of the name that a rename takes away.
pub(crate) fn source_leaf<S: Store + Drop>(cluster: &Cluster<S>, op: &Op) -> Option<Leaf> {
    leaf_of(cluster, op.source()?)
}

/// The rank that serves an operation.
pub(crate) fn master<S: Store + Drop>(cluster: &Cluster<S>, op: &Op) -> Option<Rank> {
    let leaf = main_leaf(cluster, op)?;
    authority(cluster, &leaf)
}

/// The first request of this client and number that waits.
pub(crate) fn waiting_request<S: Store + Drop>(
    cluster: &Cluster<S>,
    client: u64,
    tid: u64,
) -> Option<&Request> {
    for rank in 0..16_u8 {
        for index in 0..cluster.waiting_at(Rank(rank)) {
            if let Some(request) = cluster.request(Rank(rank), index) {
                if request.client == client && request.tid == tid {
                    return Some(request);
                }
            }
        }
    }
    None
}

/// Why the request that a line served at a rank waits on: it is the last of the rank's inbox now.
pub(crate) fn why_deferred<S: Store + Drop>(cluster: &Cluster<S>, asked: &Asked<'_>) -> Deferral {
    let rank = match asked {
        Asked::Serve(rank) => *rank,
        _ => Rank(0),
    };
    match last(cluster, rank) {
        Some(request) => why_waits(cluster, rank, request),
        None => Deferral::Gone,
    }
}

// The last request of a rank's inbox.
fn last<S: Store + Drop>(cluster: &Cluster<S>, rank: Rank) -> Option<&Request> {
    let index = cluster.waiting_at(rank).checked_sub(1)?;
    cluster.request(rank, index)
}

// Why a rank may not change what a request would, in the order in which it looks.
fn why_waits<S: Store + Drop>(cluster: &Cluster<S>, rank: Rank, request: &Request) -> Deferral {
    if let Some(leaf) = source_leaf(cluster, &request.op) {
        if let Some(deferral) = barred(cluster, rank, request, &leaf) {
            return deferral;
        }
    }
    if let Some(leaf) = main_leaf(cluster, &request.op) {
        if let Some(deferral) = barred(cluster, rank, request, &leaf) {
            return deferral;
        }
    }
    match gone(cluster, &request.op) {
        Some(dir) => barred_of(cluster, rank, request, dir).unwrap_or(Deferral::Gone),
        None => Deferral::Gone,
    }
}

// What keeps a rank from changing a leaf for a request.
fn barred<S: Store + Drop>(
    cluster: &Cluster<S>,
    rank: Rank,
    request: &Request,
    leaf: &Leaf,
) -> Option<Deferral> {
    if let Some(freezes) = frozen(cluster, leaf) {
        return Some(Deferral::Frozen(freezes, rank));
    }
    let authority = authority(cluster, leaf)?;
    let (client, tid) = (request.client, request.tid);
    if authority.0 == rank.0 || is_granted(cluster, leaf, client, tid) {
        return None;
    }
    Some(Deferral::Ungranted {
        leaf: *leaf,
        authority,
        client,
        tid,
    })
}

// What keeps it from changing one of a directory's leaves.
fn barred_of<S: Store + Drop>(
    cluster: &Cluster<S>,
    rank: Rank,
    request: &Request,
    dir: Ino,
) -> Option<Deferral> {
    let mut hash = 0;
    for _ in 0..MOST_LEAVES {
        if hash >= 1 << 24 {
            return None;
        }
        let leaf = leaf_at(cluster, dir, hash)?;
        hash = end_of(leaf.frag);
        let found = barred(cluster, rank, request, &leaf);
        if found.is_some() {
            return found;
        }
    }
    None
}

// The directory that an operation would take away, as the cache has it.
fn gone<S: Store + Drop>(cluster: &Cluster<S>, op: &Op) -> Option<Ino> {
    match op {
        Op::Rmdir(dentry) | Op::Rename { to: dentry, .. } => dir_at(cluster, dentry),
        _ => None,
    }
}

// The directory at a dentry, if its leaf is cached.
fn dir_at<S: Store + Drop>(cluster: &Cluster<S>, dentry: &Dentry) -> Option<Ino> {
    let leaf = leaf_of(cluster, dentry)?;
    let rank = holder(cluster, &leaf)?;
    let caches = cluster.caches();
    if usize::from(rank.0) >= caches.ranks() {
        return None;
    }
    let fragment = caches.get(Dirfrag {
        dir: leaf.dir,
        frag: leaf.frag,
        rank,
    })?;
    let near = Cell::new(Finger::none());
    let inode = fragment.look(&near, &dentry.name)?;
    match inode.kind {
        Kind::Dir => Some(inode.ino),
        _ => None,
    }
}

/// What is frozen of the leaves that an operation would change.
pub(crate) fn frozen_for<S: Store + Drop>(cluster: &Cluster<S>, op: &Op) -> Option<Freezes> {
    let source = frozen_at(cluster, &source_leaf(cluster, op));
    if source.is_some() {
        return source;
    }
    let main = frozen_at(cluster, &main_leaf(cluster, op));
    if main.is_some() {
        return main;
    }
    frozen_of(cluster, gone(cluster, op)?)
}

// What froze a leaf, if there is one.
fn frozen_at<S: Store + Drop>(cluster: &Cluster<S>, leaf: &Option<Leaf>) -> Option<Freezes> {
    match leaf {
        Some(leaf) => frozen(cluster, leaf),
        None => None,
    }
}

// What froze one of a directory's leaves.
fn frozen_of<S: Store + Drop>(cluster: &Cluster<S>, dir: Ino) -> Option<Freezes> {
    let mut hash = 0;
    for _ in 0..MOST_LEAVES {
        if hash >= 1 << 24 {
            return None;
        }
        let leaf = leaf_at(cluster, dir, hash)?;
        hash = end_of(leaf.frag);
        let found = frozen(cluster, &leaf);
        if found.is_some() {
            return found;
        }
    }
    None
}

/// Where a request went: it is the last of that rank's inbox now.
pub(crate) fn why_forwarded<S: Store + Drop>(cluster: &Cluster<S>, to: Rank) -> Option<Forwarding> {
    let request = last(cluster, to)?;
    let leaf = main_leaf(cluster, &request.op)?;
    Some(Forwarding {
        leaf,
        to,
        client: request.client,
        tid: request.tid,
    })
}

impl fmt::Display for Deferral {
    fn fmt<W: fmt::Write>(&self, f: &mut fmt::Formatter<W>) -> fmt::Result {
        match self {
            Deferral::Frozen(freezes, Rank(rank)) => {
                write!(f, "{freezes}; the request waits on at rank {rank}")
            }
            Deferral::Ungranted {
                leaf,
                authority: Rank(authority),
                client,
                tid,
            } => {
                write!(f, "{leaf} is rank {authority}'s, which hasn't granted it; ")?;
                write!(f, "`grant {authority} {client} {tid}` does")
            }
            Deferral::Gone => write!(
                f,
                "a leaf of the directory that would be removed is frozen, or another rank's and not granted"
            ),
        }
    }
}

impl fmt::Display for Forwarding {
    fn fmt<W: fmt::Write>(&self, f: &mut fmt::Formatter<W>) -> fmt::Result {
        let leaf = &self.leaf;
        let to = self.to.0;
        let (client, tid) = (self.client, self.tid);
        write!(
            f,
            "{leaf} is rank {to}'s, where client {client}, request {tid}, waits now; "
        )?;
        write!(f, "`serve {to}` serves it")
    }
}
