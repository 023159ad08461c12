//! Which subtree of a rank is pinned to another rank, so that an export of it starts. No memory is taken.
ghost use Rattle.std.specs.Prelude.{◌≡◌, ◌≢◌, ◌⊎◌, ◌↔◌, ◌<◌, ℕ, None, Some, IsSome, IsTrue, MatchOption, List};
ghost use Rattle.std.specs.FinMap as map;
ghost use Rattle.inboxes.specs.declared.pins.Pin.{Pin};
ghost use Rattle.mds_types.specs.Leaf.{Leaf};
ghost use Rattle.mds_types.specs.declared.ids.Rank.{Rank as RankNumber};
ghost use Rattle.cluster_core.specs.Pins.{HasPin};
ghost use Rattle.cluster_core.specs.Proposal.{IsAwayTo, IsFirstAway, IsFirstStep, IsOfPinned, IsProposable, IsRootAt, WouldStart, OfPin, Sight, lesser_away, lesser_candidate, sight_of};

use crate::events::Event;
use crate::going_on::is_mine;
use inode_table::{Dirs, Home};
use mds_types::{Frag, Ino, Rank};
use objstore::Store;
use ranked_tree::RankedTree;
use subtree_map::end_of;

/// A leaf whose export is to start, and the rank that imports it.
type Away = ((Ino, Frag), Rank);

/// The start of an export of the first leaf of a rank that is pinned to another rank: a subtree root, or a leaf of a
/// directory with a pin of its own.
pub fn first_start<S: Store + Drop>(tree: &RankedTree<S>, ranks: usize, rank: Rank) -> Option<Event>
    ensures { (grants : List Pin) → IsFirstStep (sight_of tree.now grants ranks rank) OfPin result }
{
    if tree.dirs().next_pinned(None).is_none() {
        return None;
    }
    let root = first_root(tree, ranks, rank);
    let pinned = first_pinned(tree, ranks, rank);
    match lesser(root, pinned) {
        Some((leaf, to)) => Some(Event::Start {
            from: rank,
            ino: leaf.0,
            frag: leaf.1,
            to,
        }),
        None => None,
    }
}

// The first subtree root whose export is to start.
fn first_root<S: Store + Drop>(tree: &RankedTree<S>, ranks: usize, rank: Rank) -> Option<Away>
    ensures { (grants : List Pin) → IsFirstAway (sight_of tree.now grants ranks rank)
        (IsRootAt (sight_of tree.now grants ranks rank)) result }
{
    let mut after = None;
    while let Some(root) = tree.roots().next_root(&after) {
        if let Some(to) = away_to(tree, ranks, rank, root.0, root.1) {
            return Some((root, to));
        }
        after = Some(root);
    }
    None
}

// The first leaf of a directory with a pin whose export is to start.
fn first_pinned<S: Store + Drop>(tree: &RankedTree<S>, ranks: usize, rank: Rank) -> Option<Away>
    ensures { (grants : List Pin) → IsFirstAway (sight_of tree.now grants ranks rank)
        (IsOfPinned (sight_of tree.now grants ranks rank)) result }
{
    let mut after = None;
    while let Some(dir) = tree.dirs().next_pinned(after) {
        let first = first_of_dir(tree, ranks, rank, dir);
        if first.is_some() {
            return first;
        }
        after = Some(dir);
    }
    None
}

// The first leaf of a directory whose export is to start.
fn first_of_dir<S: Store + Drop>(
    tree: &RankedTree<S>,
    ranks: usize,
    rank: Rank,
    dir: Ino,
) -> Option<Away>
    ensures { (grants : List Pin) → IsFirstAway (sight_of tree.now grants ranks rank)
        (λ (leaf : Leaf). leaf.0.0 ≡ dir.0) result }
{
    tree.is_sound();
    let mut hash = 0;
    while hash < 1 << 24 {
        let frag = tree.dirs().pick(dir, hash);
        if let Some(to) = away_to(tree, ranks, rank, dir, frag) {
            return Some(((dir, frag), to));
        }
        hash = end_of(frag);
    }
    None
}

// The rank to which an export of a leaf is to start: another existing rank, to which the leaf's directory is pinned, if
// an export may start.
fn away_to<S: Store + Drop>(
    tree: &RankedTree<S>,
    ranks: usize,
    rank: Rank,
    ino: Ino,
    frag: Frag,
) -> Option<Rank>
    ensures { (grants : List Pin) → MatchOption result
        ((to : RankNumber) → IsAwayTo (sight_of tree.now grants ranks rank) (ino, frag) to → ⊥)
        (λ to. IsAwayTo (sight_of tree.now grants ranks rank) (ino, frag) to) }
{
    let Some(to) = pin_of(tree.dirs(), ino) else {
        return None;
    };
    if !is_another(ranks, rank, to) {
        return None;
    }
    if !may_start(tree, rank, ino, frag) {
        return None;
    }
    Some(to)
}

// Whether a rank exists and isn't this one.
fn is_another(ranks: usize, rank: Rank, to: Rank) -> bool
    ensures { IsTrue result ↔ ((to ≢ rank) × (to.0 < ranks)) }
{
    if to == rank {
        return false;
    }
    usize::from(to.0) < ranks
}

// Whether an export of a leaf may start: the rank is its authority, it isn't frozen, and it has no export yet.
fn may_start<S: Store + Drop>(tree: &RankedTree<S>, rank: Rank, ino: Ino, frag: Frag) -> bool
    ensures { (grants : List Pin) (ranks : ℕ) → IsTrue result ↔ WouldStart
        (sight_of tree.now grants ranks rank) (ino, frag) }
{
    if !is_mine(tree, rank, ino, frag) {
        return false;
    }
    if tree.is_frozen(ino, frag) {
        return false;
    }
    match tree.exports().get(ino, frag) {
        Some(_) => false,
        None => true,
    }
}

// The effective pin of a directory.
fn pin_of(dirs: &Dirs, dir: Ino) -> Option<Rank>
    ensures { MatchOption result ((rank : RankNumber) → HasPin dirs.now.pins dirs.now.homes dir.0 rank → ⊥)
        (λ rank. HasPin dirs.now.pins dirs.now.homes dir.0 rank) }
{
    dirs.is_table();
    let mut at = dir;
    while let Some(home) = unpinned_home(dirs, at) {
        at = home.parent;
    }
    dirs.pin(at)
}

// The dentry of a directory that has no pin of its own.
fn unpinned_home(dirs: &Dirs, dir: Ino) -> Option<&Home>
    ensures { MatchOption result
        (IsSome (map.get dirs.now.pins dir.0) ⊎ (map.get dirs.now.homes dir.0 ≡ None))
        (λ home. (map.get dirs.now.pins dir.0 ≡ None) × (map.get dirs.now.homes dir.0 ≡ Some home.now)) }
{
    if dirs.pin(dir).is_some() {
        return None;
    }
    dirs.get(dir)
}

// The start of the lesser leaf, of two.
fn lesser(one: Option<Away>, other: Option<Away>) -> Option<Away>
    ensures { (s : Sight) → IsFirstAway s (IsRootAt s) one → IsFirstAway s
        (IsOfPinned s) other → IsFirstAway s (IsProposable s) result }
{
    match one {
        None => other,
        Some(first) => Some(lesser_of(first, other)),
    }
}

// The start of the lesser leaf, of one and another, if there is another.
fn lesser_of(first: Away, other: Option<Away>) -> Away
    ensures { result ≡ lesser_candidate first other }
{
    match other {
        None => first,
        Some(second) => lesser_away(&first, &second),
    }
}

fn lesser_away(one: &Away, other: &Away) -> Away
    ensures { result ≡ lesser_away one.now other.now }
{
    if other.0.cmp(&one.0).is_lt() {
        *other
    } else {
        *one
    }
}
