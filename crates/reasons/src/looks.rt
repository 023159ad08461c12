//! Looks at a cluster: which leaves there are, whose they are, and what keeps them from being changed.

use crate::leaf::Leaf;
use cluster_core::Cluster;
use export_steps::{ExportState, StandingExport};
use inboxes::Pin;
use mds_types::{Frag, Ino, Rank};
use objstore::Store;

/// The most leaves that a directory has.
pub(crate) const MOST_LEAVES: u32 = 4096;

/// Whether there is such a rank.
pub(crate) fn is_rank<S: Store + Drop>(cluster: &Cluster<S>, rank: Rank) -> bool {
    usize::from(rank.0) < cluster.ranks()
}

/// The leaf of a directory to which a hash belongs; none where there is no such directory.
pub(crate) fn leaf_at<S: Store + Drop>(cluster: &Cluster<S>, dir: Ino, hash: u32) -> Option<Leaf> {
    for bits in 0..25_u8 {
        if let Some(frag) = frag_of(hash, bits) {
            if cluster.authority(dir, frag).is_ok() {
                return Some(Leaf { dir, frag });
            }
        }
    }
    None
}

// The fragment of so many bits to which a hash belongs. The top 8 bits of the hash play no part.
fn frag_of(hash: u32, bits: u8) -> Option<Frag> {
    if bits > 24 {
        return None;
    }
    let hash = hash % (1 << 24);
    Frag::new(hash - hash % (1 << (24 - bits)), bits)
}

/// The hash behind the last of a fragment.
pub(crate) fn end_of(frag: Frag) -> u32 {
    let (value, bits) = (frag.value(), frag.bits());
    value + (1 << (24 - bits))
}

/// The leaf of a directory to which a hash belongs, if it lies properly inside a fragment.
pub(crate) fn leaf_inside<S: Store + Drop>(
    cluster: &Cluster<S>,
    whole: &Leaf,
    hash: u32,
) -> Option<Leaf> {
    if hash >= end_of(whole.frag) {
        return None;
    }
    let leaf = leaf_at(cluster, whole.dir, hash)?;
    if lies_inside(whole.frag, leaf.frag) {
        return Some(leaf);
    }
    None
}

// Whether a fragment lies properly inside another.
fn lies_inside(whole: Frag, frag: Frag) -> bool {
    whole.bits() < frag.bits() && whole.contains_frag(frag)
}

/// How many leaves of a directory lie properly inside a fragment.
pub(crate) fn count_inside<S: Store + Drop>(cluster: &Cluster<S>, whole: &Leaf) -> u32 {
    let mut hash = whole.frag.value();
    for count in 0..MOST_LEAVES {
        let Some(leaf) = leaf_inside(cluster, whole, hash) else {
            return count;
        };
        hash = end_of(leaf.frag);
    }
    MOST_LEAVES
}

/// The authority of a leaf, if there is such a leaf.
pub(crate) fn authority<S: Store + Drop>(cluster: &Cluster<S>, leaf: &Leaf) -> Option<Rank> {
    match cluster.authority(leaf.dir, leaf.frag) {
        Ok(rank) => Some(rank),
        Err(_) => None,
    }
}

/// An export that is under way.
#[derive(Clone, Copy)]
pub(crate) struct UnderWay {
    pub(crate) root: Leaf,
    pub(crate) export: StandingExport,
}

/// The export of a leaf, if one is under way.
pub(crate) fn export_of<S: Store + Drop>(cluster: &Cluster<S>, root: &Leaf) -> Option<UnderWay> {
    match cluster.exports().get(root.dir, root.frag) {
        Some(export) => Some(UnderWay {
            root: *root,
            export,
        }),
        None => None,
    }
}

/// The export at a place in the order of roots.
pub(crate) fn export_at<S: Store + Drop>(cluster: &Cluster<S>, index: usize) -> Option<UnderWay> {
    match cluster.exports().standing(index) {
        Some(((dir, frag), export)) => Some(UnderWay {
            root: Leaf { dir, frag },
            export,
        }),
        None => None,
    }
}

/// The export that freezes a leaf, if one does.
pub(crate) fn freezing<S: Store + Drop>(cluster: &Cluster<S>, leaf: &Leaf) -> Option<UnderWay> {
    for index in 0..cluster.exports().len() {
        if let Some(under_way) = export_at(cluster, index) {
            if does_freeze(cluster, &under_way, leaf) {
                return Some(under_way);
            }
        }
    }
    None
}

// Whether an export freezes a leaf.
fn does_freeze<S: Store + Drop>(cluster: &Cluster<S>, under_way: &UnderWay, leaf: &Leaf) -> bool {
    under_way.export.state.is_freezing() && is_under(cluster, &under_way.root, leaf)
}

/// Whether a leaf lies in the region that another has as a root.
pub(crate) fn is_under<S: Store + Drop>(cluster: &Cluster<S>, root: &Leaf, leaf: &Leaf) -> bool {
    let root = (root.dir, root.frag);
    let leaf = (leaf.dir, leaf.frag);
    cluster.is_under(&root, &leaf)
}

/// The rank that holds a leaf, in whose cache its fragment lies.
pub(crate) fn holder<S: Store + Drop>(cluster: &Cluster<S>, leaf: &Leaf) -> Option<Rank> {
    let rank = authority(cluster, leaf)?;
    match freezing(cluster, leaf) {
        Some(under_way) => Some(held_in(&under_way, rank)),
        None => Some(rank),
    }
}

// The rank that holds a frozen leaf of this authority.
fn held_in(under_way: &UnderWay, rank: Rank) -> Rank {
    match under_way.export.state {
        ExportState::Imported => under_way.export.importer,
        _ => rank,
    }
}

/// The first grant on a leaf, if there is one.
pub(crate) fn grant_on<S: Store + Drop>(cluster: &Cluster<S>, leaf: &Leaf) -> Option<Pin> {
    for pin in cluster.grants() {
        if pin.dir == leaf.dir && pin.frag == leaf.frag {
            return Some(*pin);
        }
    }
    None
}

/// Whether a leaf is granted for a request.
pub(crate) fn is_granted<S: Store + Drop>(
    cluster: &Cluster<S>,
    leaf: &Leaf,
    client: u64,
    tid: u64,
) -> bool {
    for pin in cluster.grants() {
        if pin.dir == leaf.dir && pin.frag == leaf.frag && pin.client == client && pin.tid == tid {
            return true;
        }
    }
    false
}
