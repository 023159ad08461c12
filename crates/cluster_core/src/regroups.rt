//! The splits and merges that a rank proposes of fragments in its cache. No memory is taken, and no fragment is read.
ghost use Rattle.std.specs.Prelude.{◌↔◌, ℕ, ◌<◌, ◌≤◌, IsTrue, length};
ghost use Rattle.inode_table.specs.Dirs.{leaves_of};
ghost use Rattle.dentry_cache.specs.Candidates.{child};
ghost use Rattle.cluster_core.specs.Proposal.{IsFirstStep, IsIdle, OfLarge, OfSmall, sight_of};

use crate::events::Event;
use crate::going_on::is_mine;
use inboxes::Pins;
use mds_types::{Frag, Ino, Rank};
use objstore::Store;
use ranked_tree::RankedTree;

/// A rank splits no leaf of a directory with more leaves than these: a split by 3 bits adds seven, and a directory has
/// at most 4096.
const MOST_LEAVES: usize = 4089;

/// The split of the first leaf that a rank would split.
pub fn first_split<S: Store + Drop>(
    tree: &RankedTree<S>,
    grants: &Pins,
    rank: Rank,
) -> Option<Event>
    requires { rank.0 < length tree.now.tree.caches.used }
    ensures { (ranks : ℕ) → IsFirstStep (sight_of tree.now grants.now ranks rank) OfLarge result }
{
    let mut after = None;
    while let Some(leaf) = tree.caches().next_large(rank, after) {
        if may_split(tree, grants, rank, leaf.0, leaf.1) {
            return Some(Event::Split {
                rank,
                ino: leaf.0,
                frag: leaf.1,
                bits: 3,
            });
        }
        after = Some(leaf);
    }
    None
}

/// The merge of the first eight leaves that a rank would merge.
pub fn first_merge<S: Store + Drop>(
    tree: &RankedTree<S>,
    grants: &Pins,
    rank: Rank,
) -> Option<Event>
    requires { rank.0 < length tree.now.tree.caches.used }
    ensures { (ranks : ℕ) → IsFirstStep (sight_of tree.now grants.now ranks rank) OfSmall result }
{
    let mut after = None;
    while let Some(whole) = tree.caches().next_small(rank, after) {
        if may_merge(tree, grants, rank, whole.0, whole.1) {
            return Some(Event::Merge {
                rank,
                ino: whole.0,
                frag: whole.1,
            });
        }
        after = Some(whole);
    }
    None
}

// Whether a rank may split a large leaf: the leaf is idle, and its directory may have seven leaves more.
fn may_split<S: Store + Drop>(
    tree: &RankedTree<S>,
    grants: &Pins,
    rank: Rank,
    ino: Ino,
    frag: Frag,
) -> bool
    ensures { (ranks : ℕ) → IsTrue result ↔ ((length (leaves_of tree.now.tree.covers ino.0) ≤ 4089)
        × IsIdle (sight_of tree.now grants.now ranks rank) (ino, frag)) }
{
    if tree.dirs().leaf_count(ino) > MOST_LEAVES {
        return false;
    }
    is_idle(tree, grants, rank, ino, frag)
}

// Whether each of the eight children of a fragment is idle.
fn may_merge<S: Store + Drop>(
    tree: &RankedTree<S>,
    grants: &Pins,
    rank: Rank,
    ino: Ino,
    frag: Frag,
) -> bool
    ensures { (ranks : ℕ) → IsTrue result ↔ ((i : ℕ) → i < 8
        → IsIdle (sight_of tree.now grants.now ranks rank) (child (ino, frag) i)) }
{
    tree.is_sound();
    for i in 0..8 {
        // a fragment of more than 24 bits is no leaf
        let Some(child) = frag.child(i, 3) else {
            return false;
        };
        if !is_idle(tree, grants, rank, ino, child) {
            return false;
        }
    }
    true
}

// Whether a rank is the authority of a leaf, and the leaf is neither frozen nor granted.
fn is_idle<S: Store + Drop>(
    tree: &RankedTree<S>,
    grants: &Pins,
    rank: Rank,
    ino: Ino,
    frag: Frag,
) -> bool
    ensures { (ranks : ℕ) → IsTrue result ↔ IsIdle (sight_of tree.now grants.now ranks rank) (ino, frag) }
{
    if !is_mine(tree, rank, ino, frag) {
        return false;
    }
    if tree.is_frozen(ino, frag) {
        return false;
    }
    !grants.is_pinned(ino, frag)
}
