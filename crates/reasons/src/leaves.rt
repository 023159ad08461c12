//! Refused for a directory's leaves: `NoSuchFrag`, `BadSplit` and `TooManyFrags`.

use crate::asked::Asked;
use crate::leaf::Leaf;
use crate::looks::{count_inside, leaf_at};
use cluster_core::Cluster;
use mds_types::{Frag, Ino};
use objstore::Store;
use std::fmt;

/// There is no such directory or leaf, or nothing to merge.
#[derive(Clone, Copy)]
pub(crate) enum NoLeaf {
    NoDir(Ino),
    /// The fragment is no leaf, and the leaf where it begins is another.
    Other { asked: Leaf, there: Leaf },
    /// No leaf lies properly inside the fragment, and the leaf where it begins is this.
    NoneInside { whole: Leaf, there: Leaf },
}

/// A split by too few or too many bits.
#[derive(Clone, Copy)]
pub(crate) enum BadSplit {
    Bits(u8),
    /// The children would have more than 24 bits.
    Deep { leaf: Leaf, bits: u8 },
}

/// Too many leaves.
#[derive(Clone, Copy)]
pub(crate) enum TooMany {
    /// The directory has so many, and a split makes so many more.
    Split { dir: Ino, leaves: u32, more: u32 },
    /// So many lie in the fragment.
    Merge { whole: Leaf, leaves: u32 },
}

/// Which directory or leaf there isn't.
pub(crate) fn no_leaf<S: Store + Drop>(cluster: &Cluster<S>, asked: &Asked<'_>) -> Option<NoLeaf> {
    match asked {
        Asked::Dir(dir) => Some(NoLeaf::NoDir(*dir)),
        Asked::Merge { whole, .. } => Some(none_inside(cluster, whole)),
        Asked::Split { leaf, .. }
        | Asked::Authority(leaf)
        | Asked::Commit { leaf, .. }
        | Asked::Start { leaf, .. }
        | Asked::Export(_, leaf) => Some(no_such_leaf(cluster, leaf)),
        _ => None,
    }
}

// That there is nothing to merge.
fn none_inside<S: Store + Drop>(cluster: &Cluster<S>, whole: &Leaf) -> NoLeaf {
    match leaf_at(cluster, whole.dir, whole.frag.value()) {
        Some(there) => NoLeaf::NoneInside {
            whole: *whole,
            there,
        },
        None => NoLeaf::NoDir(whole.dir),
    }
}

// That there is no such leaf.
fn no_such_leaf<S: Store + Drop>(cluster: &Cluster<S>, asked: &Leaf) -> NoLeaf {
    match leaf_at(cluster, asked.dir, asked.frag.value()) {
        Some(there) => NoLeaf::Other {
            asked: *asked,
            there,
        },
        None => NoLeaf::NoDir(asked.dir),
    }
}

/// What is wrong with the bits of a split.
pub(crate) fn bad_split(asked: &Asked<'_>) -> Option<BadSplit> {
    match asked {
        Asked::Split { leaf, bits, .. } => Some(bad_bits(leaf, *bits)),
        _ => None,
    }
}

// What is wrong with so many bits of a leaf.
fn bad_bits(leaf: &Leaf, bits: u8) -> BadSplit {
    if bits >= 1 && bits <= 8 {
        return BadSplit::Deep { leaf: *leaf, bits };
    }
    BadSplit::Bits(bits)
}

/// Of what there are too many.
pub(crate) fn too_many<S: Store + Drop>(
    cluster: &Cluster<S>,
    asked: &Asked<'_>,
) -> Option<TooMany> {
    match asked {
        Asked::Split { leaf, bits, .. } => Some(too_many_of(cluster, leaf.dir, *bits)),
        Asked::Merge { whole, .. } => Some(TooMany::Merge {
            whole: *whole,
            leaves: count_inside(cluster, whole),
        }),
        _ => None,
    }
}

// How many leaves a directory has, and how many more a split by so many bits makes.
fn too_many_of<S: Store + Drop>(cluster: &Cluster<S>, dir: Ino, bits: u8) -> TooMany {
    let all = Leaf {
        dir,
        frag: Frag::ROOT,
    };
    // (a directory of one leaf has none properly inside `*`)
    let leaves = count_inside(cluster, &all).max(1);
    let more = (1_u32 << bits.min(8)) - 1;
    TooMany::Split { dir, leaves, more }
}

impl fmt::Display for NoLeaf {
    fn fmt<W: fmt::Write>(&self, f: &mut fmt::Formatter<W>) -> fmt::Result {
        match self {
            NoLeaf::NoDir(Ino(dir)) => write!(f, "there is no directory {dir:x}"),
            NoLeaf::Other { asked, there } => {
                let dir = asked.dir.0;
                write!(
                    f,
                    "{asked} is no leaf: {there} is; `dirfrag ls {dir:x}` lists them"
                )
            }
            NoLeaf::NoneInside { whole, there } => {
                write!(f, "no leaf lies inside {whole}: the leaf there is {there}")
            }
        }
    }
}

impl fmt::Display for BadSplit {
    fn fmt<W: fmt::Write>(&self, f: &mut fmt::Formatter<W>) -> fmt::Result {
        match self {
            BadSplit::Bits(bits) => write!(f, "a leaf is split by 1 to 8 bits, not by {bits}"),
            BadSplit::Deep { leaf, bits } => {
                let has = leaf.frag.bits();
                write!(
                    f,
                    "{leaf} has {has} bits, and {bits} more make more than 24"
                )
            }
        }
    }
}

impl fmt::Display for TooMany {
    fn fmt<W: fmt::Write>(&self, f: &mut fmt::Formatter<W>) -> fmt::Result {
        match self {
            TooMany::Split {
                dir: Ino(dir),
                leaves,
                more,
            } => write!(
                f,
                "directory {dir:x} has {leaves} leaves, and {more} more are above 4096; merge some first"
            ),
            TooMany::Merge { whole, leaves } => write!(
                f,
                "{leaves} leaves lie inside {whole}, and a merge takes at most 256; merge parts first"
            ),
        }
    }
}
