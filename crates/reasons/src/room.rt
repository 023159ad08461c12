//! Refused `NothingToEvict`: too few fragments of a cache are clean.

use crate::asked::Asked;
use crate::leaf::Leaf;
use crate::looks::{export_of, holder};
use crate::requests::{main_leaf, source_leaf, waiting_request};
use cluster_core::Cluster;
use mds_types::{Frag, Ino, Op, Rank};
use objstore::Store;
use script_output::OwnStep;
use std::fmt;

// The most places that a cache has.
const MOST_PLACES: u32 = 65_536;

/// What a rank caches.
#[derive(Clone, Copy)]
pub(crate) struct Room {
    rank: Rank,
    /// How many fragments,
    cached: u32,
    /// how many of them are clean,
    clean: u32,
    /// and the one that isn't and was used least recently.
    unclean: Option<(Ino, Frag)>,
}

/// What the rank caches whose cache had too few clean fragments.
pub(crate) fn too_little_room<S: Store + Drop>(
    cluster: &Cluster<S>,
    asked: &Asked<'_>,
) -> Option<Room> {
    match asked {
        Asked::Evict(rank) | Asked::Split { rank, .. } | Asked::Merge { rank, .. } => {
            room_of(cluster, *rank)
        }
        Asked::Export(OwnStep::Import, leaf) => room_to_import(cluster, leaf),
        Asked::Operation(op) => room_for(cluster, Rank(0), op),
        Asked::Arrive(rank, request) => room_for(cluster, *rank, &request.op),
        Asked::Serve(rank) => room_for(cluster, *rank, &cluster.front(*rank)?.op),
        Asked::Grant { rank, client, tid } => {
            room_for(cluster, *rank, &waiting_request(cluster, *client, *tid)?.op)
        }
        _ => None,
    }
}

// What the importer of a leaf caches.
fn room_to_import<S: Store + Drop>(cluster: &Cluster<S>, leaf: &Leaf) -> Option<Room> {
    let under_way = export_of(cluster, leaf)?;
    room_of(cluster, under_way.export.importer)
}

// Of the ranks that hold the names of an operation, the one with the fewest clean fragments.
fn room_for<S: Store + Drop>(cluster: &Cluster<S>, rank: Rank, op: &Op) -> Option<Room> {
    let main = held_by(cluster, &main_leaf(cluster, op), rank);
    let source = held_by(cluster, &source_leaf(cluster, op), main);
    let first = room_of(cluster, main)?;
    let second = room_of(cluster, source)?;
    if second.clean < first.clean {
        return Some(second);
    }
    Some(first)
}

// The rank that holds a leaf, or this one where there is none.
fn held_by<S: Store + Drop>(cluster: &Cluster<S>, leaf: &Option<Leaf>, rank: Rank) -> Rank {
    match leaf {
        Some(leaf) => holder(cluster, leaf).unwrap_or(rank),
        None => rank,
    }
}

// What a rank caches.
fn room_of<S: Store + Drop>(cluster: &Cluster<S>, rank: Rank) -> Option<Room> {
    let caches = cluster.caches();
    if usize::from(rank.0) >= caches.ranks() {
        return None;
    }
    let mut places = caches.places_of(rank);
    let (mut cached, mut clean) = (0_u32, 0_u32);
    let mut unclean = None;
    for _ in 0..MOST_PLACES {
        let Some((leaf, fragment)) = places.next_place() else {
            break;
        };
        if let Some(fragment) = fragment {
            cached = cached.saturating_add(1);
            if fragment.is_clean() {
                clean = clean.saturating_add(1);
            } else {
                unclean = Some((leaf.0, leaf.1));
            }
        }
    }
    Some(Room {
        rank,
        cached,
        clean,
        unclean,
    })
}

impl fmt::Display for Room {
    fn fmt<W: fmt::Write>(&self, f: &mut fmt::Formatter<W>) -> fmt::Result {
        let rank = self.rank.0;
        let (cached, clean) = (self.cached, self.clean);
        if cached == 0 {
            return write!(f, "rank {rank} caches no fragment");
        }
        write!(
            f,
            "{clean} of {cached} fragments cached at rank {rank} are clean"
        )?;
        match self.unclean {
            Some((Ino(dir), frag)) => {
                write!(f, "; `commit {rank} {dir:x} {frag}` makes one more so")
            }
            None => Ok(()),
        }
    }
}
