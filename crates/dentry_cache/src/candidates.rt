//! `Candidates`: the large leaves of a rank, and the fragments whose children are small, kept as the sizes change.
ghost use Rattle.std.specs.Prelude.{◌≡◌, ◌≢◌, ◌⊎◌, ◌||◌, ℕ, ◌+◌, ◌<◌, ◌≤◌, true, false, cond, IfSome, Some, None, length, vec_capacity, OnOk};
ghost use Rattle.mds_types.specs.Frag.{Fragment, IsFragment, child_of, span};
ghost use Rattle.mds_types.specs.Leaf.{Leaf, leaf_is};
ghost use Rattle.dentry_cache.specs.Cache.{fragment_in};
ghost use Rattle.dentry_cache.specs.Candidates.{IsLargeIn, IsNextLeaf, IsSmallIn, Sizes, child, size_in};
ghost use Rattle.dentry_cache.specs.CandidateSets.{AreCandidates, AreTold, HasRoomFor, MayResize, Rise, are_few, is_few, is_leaf_in, is_large, sizes_of};

use crate::cache::Place;
use crate::dividing::span;
use crate::leaf_set::LeafSet;
use crate::place_lru::PlaceLru;
use mds_types::{Frag, Ino};
use std::alloc::{AllocError, Global};

/// A leaf of more entries is large.
const MOST: usize = 10_000;

/// Eight leaves of fewer entries together are small.
const FEW: usize = 50;

/// The leaves of a rank that are large, and the fragments whose eight children are all cached and small together: what
/// a rank would split or merge, found with no walk over what it caches.
#[derive(Debug, Drop)]
pub(crate) struct Candidates {
    pub(crate) large: LeafSet,
    pub(crate) small: LeafSet,
}

impl Candidates {
    /// None, as where nothing is cached. Takes no memory.
    pub(crate) fn new(alloc: Global) -> Candidates
        ensures { AreCandidates (λ (leaf : Leaf). None) result }
    {
        Candidates {
            large: LeafSet::new(alloc),
            small: LeafSet::new(alloc),
        }
    }

    /// Makes room for as many as there can be of so many leaves.
    pub(crate) fn reserve(&mut self, leaves: usize) -> Result<(), AllocError>
        ensures same { (sizes : Sizes) → AreCandidates sizes self.old → AreCandidates sizes self.new }
        ensures kept { (count : ℕ) → HasRoomFor count self.old → HasRoomFor count self.new }
        ensures room { OnOk result (HasRoomFor leaves self.new) }
    {
        self.large.reserve(leaves)?;
        self.small.reserve(leaves)
    }

    /// The first large leaf behind another.
    pub(crate) fn next_large(&self, after: &Option<(Ino, Frag)>) -> Option<(Ino, Frag)>
        requires { Rise self.now.large.leaves.items }
        ensures { (sizes : Sizes) → AreCandidates sizes self.now → IsNextLeaf (IsLargeIn sizes) after.now result }
    {
        self.large.next(after)
    }

    /// The first fragment behind another whose children are small.
    pub(crate) fn next_small(&self, after: &Option<(Ino, Frag)>) -> Option<(Ino, Frag)>
        requires { Rise self.now.small.leaves.items }
        ensures { (sizes : Sizes) → AreCandidates sizes self.now → IsNextLeaf (IsSmallIn sizes) after.now result }
    {
        self.small.next(after)
    }

    /// A leaf's fragment came, went, or has another number of entries, as these places show already. Takes no memory.
    ///
    /// A leaf of fewer than 3 bits that stays large, or stays none, costs no search. Another one costs a look at its
    /// siblings while it has few entries.
    #[inline(always)]
    pub(crate) fn resize(
        &mut self,
        places: &PlaceLru,
        leaf: &(Ino, Frag),
        was: Option<usize>,
        now: Option<usize>,
    )
        requires { MayResize leaf.now was now places.now.entries self.old }
        ensures { AreTold places.now.entries self.new }
    {
        keep_large(&mut self.large, leaf, was, now);
        if any_few(was, now) {
            keep_small(&mut self.small, places, leaf);
        }
    }
}

// A leaf that had so many entries is among the large ones if it is large now.
fn keep_large(large: &mut LeafSet, leaf: &(Ino, Frag), was: Option<usize>, now: Option<usize>)
    requires rise { Rise large.old.leaves.items }
    requires was { is_leaf_in leaf.now large.old.leaves.items ≡ is_large leaf.now was }
    requires room { is_large leaf.now now ≡ true → is_leaf_in leaf.now large.old.leaves.items ≡ false
        → length large.old.leaves.items < vec_capacity large.old.leaves }
    ensures rise { Rise large.new.leaves.items }
    ensures each { (q : Leaf) → is_leaf_in q large.new.leaves.items ≡ cond (leaf_is leaf.now q)
        (is_large leaf.now now) (is_leaf_in q large.old.leaves.items) }
    ensures capacity { vec_capacity large.new.leaves ≡ vec_capacity large.old.leaves }
{
    let is = is_large(leaf, now);
    if is != is_large(leaf, was) {
        large.set(leaf, is);
    }
}

// The fragment that has a leaf as one of its eight children is among the small ones if these are few now.
#[inline(always)]
fn keep_small(small: &mut LeafSet, places: &PlaceLru, leaf: &(Ino, Frag))
    requires rise { Rise small.old.leaves.items }
    requires room { (q : Leaf) → IsFragment q.1 → q.1.bits + 3 ≤ 24 → are_few (sizes_of places.now.entries) q ≡ true
        → is_leaf_in q small.old.leaves.items ≡ false → length small.old.leaves.items < vec_capacity small.old.leaves }
    ensures rise { Rise small.new.leaves.items }
    ensures each { (q : Leaf) → IsFragment q.1
        → (is_leaf_in q small.new.leaves.items ≡ are_few (sizes_of places.now.entries) q)
        ⊎ ((is_leaf_in q small.new.leaves.items ≡ is_leaf_in q small.old.leaves.items)
        × ((i : ℕ) → i < 8 → child q i ≢ leaf.now)) }
    ensures fragments { (q : Leaf) → is_leaf_in q small.new.leaves.items ≡ true
        → (is_leaf_in q small.old.leaves.items ≡ true) ⊎ IsFragment q.1 }
    ensures capacity { vec_capacity small.new.leaves ≡ vec_capacity small.old.leaves }
{
    match whole_of(leaf.1) {
        Some(frag) => {
            let whole = (leaf.0, frag);
            let is = are_few(places, &whole);
            small.set(&whole, is);
        }
        None => {}
    }
}

// Whether a leaf of so many entries is large.
fn is_large(leaf: &(Ino, Frag), entries: Option<usize>) -> bool
    ensures { result ≡ is_large leaf.now entries }
{
    match entries {
        Some(entries) => leaf.1.bits() <= Frag::MAX_BITS - 3 && entries > MOST,
        None => false,
    }
}

// Whether a leaf had few entries, or has few now.
fn any_few(was: Option<usize>, now: Option<usize>) -> bool
    ensures { result ≡ (is_few was || is_few now) }
{
    is_few(was) || is_few(now)
}

// Whether a leaf has few entries.
fn is_few(entries: Option<usize>) -> bool
    ensures { result ≡ is_few entries }
{
    match entries {
        Some(entries) => entries < FEW,
        None => false,
    }
}

// The fragment of which this one may be one of eight children; one of fewer than 3 bits is of none.
fn whole_of(frag: Frag) -> Option<Frag>
    ensures whole { IfSome result (λ whole. IsFragment whole × (whole.bits + 3 ≤ 24)) }
    ensures only { (whole : Fragment) (i : ℕ) → IsFragment whole → i < 8
        → child_of whole i 3 ≡ frag → result ≡ Some whole }
{
    let bits = frag.bits();
    if bits < 3 {
        return None;
    }
    let size = span(bits - 3);
    Frag::new(frag.value() - frag.value() % size, bits - 3)
}

// Whether a fragment's eight children are all there, with few entries together.
#[inline(never)]
fn are_few(places: &PlaceLru, whole: &(Ino, Frag)) -> bool
    requires { whole.now.1.bits + 3 ≤ 24 }
    ensures { result ≡ are_few (sizes_of places.now.entries) whole.now }
{
    let mut total = 0;
    for i in 0..8_u32 {
        let child = (whole.0, child_at(whole.1, i));
        let Some(entries) = size_at(places, &child) else {
            return false;
        };
        if entries >= FEW - total {
            return false;
        }
        total += entries;
    }
    true
}

// A fragment's child by 3 bits.
fn child_at(frag: Frag, i: u32) -> Frag
    requires few { i < 8 }
    requires bits { frag.bits + 3 ≤ 24 }
    ensures { result ≡ child_of frag i 3 }
{
    match frag.child(i, 3) {
        Some(child) => child,
        None => unreachable!(),
    }
}

// The number of entries of a leaf's fragment, if it is there.
fn size_at(places: &PlaceLru, leaf: &(Ino, Frag)) -> Option<usize>
    ensures { result ≡ sizes_of places.now.entries leaf.now }
{
    match places.peek(leaf) {
        Some(place) => place.size(),
        None => None,
    }
}

impl Place {
    /// The number of entries of the fragment in it. None is in one that is kept for a fragment that will be made.
    pub(crate) fn size(&self) -> Option<usize>
        ensures { result ≡ size_in (fragment_in (Some self.now)) }
    {
        if self.kept {
            return None;
        }
        Some(self.frag.len())
    }
}
