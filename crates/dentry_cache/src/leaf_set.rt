//! `LeafSet`: leaves in their order. Once there is room a change takes no memory, and can't fail.
ghost use Rattle.std.specs.Prelude.{◌≡◌, ◌<◌, ◌≤◌, Bool, true, false, cond, [], length, insert, remove, option_copied, vec_len, vec_capacity, OnOk};
ghost use Rattle.std.specs.List.Sorted.{IsSearchInRange};
ghost use Rattle.mds_types.specs.Leaf.{Leaf, leaf_is};
ghost use Rattle.dentry_cache.specs.CandidateSets.{IsPlaceBehind, IsLeafSpot, Rise, is_leaf_in};
ghost use Rattle.dentry_cache.specs.Candidates.{IsNextLeaf};

use mds_types::{Frag, Ino};
use std::alloc::{AllocError, Global};

/// Leaves in their order. A leaf that goes gives its room back, however many there are, as a `SortedMap` doesn't
/// promise: so one that comes has room where that was made for as many as there can be at once.
#[derive(Debug, Drop)]
pub(crate) struct LeafSet {
    pub(crate) leaves: Vec<(Ino, Frag)>,
}

impl LeafSet {
    /// No leaves. Takes no memory.
    pub(crate) fn new(alloc: Global) -> LeafSet
        ensures { result.leaves.items ≡ [] }
    {
        LeafSet {
            leaves: Vec::new(alloc),
        }
    }

    /// Makes room for so many leaves in all.
    pub(crate) fn reserve(&mut self, count: usize) -> Result<(), AllocError>
        ensures same { self.new.leaves.items ≡ self.old.leaves.items }
        ensures room { OnOk result (count ≤ vec_capacity self.new.leaves) }
        ensures grows { vec_capacity self.old.leaves ≤ vec_capacity self.new.leaves }
    {
        let more = count.saturating_sub(self.leaves.len());
        self.leaves.reserve(more)
    }

    /// The first leaf behind another; the first of all behind none.
    pub(crate) fn next(&self, after: &Option<(Ino, Frag)>) -> Option<(Ino, Frag)>
        requires { Rise self.now.leaves.items }
        ensures { IsNextLeaf (λ (leaf : Leaf). is_leaf_in leaf self.now.leaves.items ≡ true) after.now result }
    {
        match after {
            Some(leaf) => self.leaves.get(place_behind(&self.leaves, leaf)).copied(),
            None => self.leaves.first().copied(),
        }
    }

    /// Puts a leaf in, or takes it out. A leaf that comes needs room.
    #[inline(never)]
    pub(crate) fn set(&mut self, leaf: &(Ino, Frag), is: bool)
        requires rise { Rise self.old.leaves.items }
        requires room { is ≡ true → is_leaf_in leaf.now self.old.leaves.items ≡ false
            → length self.old.leaves.items < vec_capacity self.old.leaves }
        ensures rise { Rise self.new.leaves.items }
        ensures each { (q : Leaf) → is_leaf_in q self.new.leaves.items ≡ cond
            (leaf_is leaf.now q) is (is_leaf_in q self.old.leaves.items) }
        ensures capacity { vec_capacity self.new.leaves ≡ vec_capacity self.old.leaves }
    {
        if is {
            put(&mut self.leaves, leaf);
        } else {
            take(&mut self.leaves, leaf);
        }
    }
}

// Puts a leaf in, if it isn't there.
fn put(leaves: &mut Vec<(Ino, Frag)>, leaf: &(Ino, Frag))
    requires rise { Rise leaves.old.items }
    requires room { is_leaf_in leaf.now leaves.old.items ≡ false → length leaves.old.items < vec_capacity leaves.old }
    ensures rise { Rise leaves.new.items }
    ensures each { (q : Leaf) → is_leaf_in q leaves.new.items ≡ cond (leaf_is leaf.now q) true (is_leaf_in q leaves.old.items) }
    ensures capacity { vec_capacity leaves.new ≡ vec_capacity leaves.old }
{
    match spot(leaves, leaf) {
        Ok(_) => {}
        Err(at) => put_at(leaves, at, leaf),
    }
}

// Takes a leaf out, if it is there.
fn take(leaves: &mut Vec<(Ino, Frag)>, leaf: &(Ino, Frag))
    requires { Rise leaves.old.items }
    ensures rise { Rise leaves.new.items }
    ensures each { (q : Leaf) → is_leaf_in q leaves.new.items ≡ cond (leaf_is leaf.now q) false (is_leaf_in q leaves.old.items) }
    ensures capacity { vec_capacity leaves.new ≡ vec_capacity leaves.old }
{
    match spot(leaves, leaf) {
        Ok(at) => take_at(leaves, at),
        Err(_) => {}
    }
}

fn put_at(leaves: &mut Vec<(Ino, Frag)>, at: usize, leaf: &(Ino, Frag))
    requires within { at ≤ vec_len leaves.old }
    requires room { vec_len leaves.old < vec_capacity leaves.old }
    ensures items { leaves.new.items ≡ insert leaves.old.items at leaf.now }
    ensures capacity { vec_capacity leaves.new ≡ vec_capacity leaves.old }
{
    let _ = leaves.insert(at, *leaf);
}

fn take_at(leaves: &mut Vec<(Ino, Frag)>, at: usize)
    requires { at < vec_len leaves.old }
    ensures items { leaves.new.items ≡ remove leaves.old.items at }
    ensures capacity { vec_capacity leaves.new ≡ vec_capacity leaves.old }
{
    let _ = leaves.remove(at);
}

// The place of a leaf, or where it would go.
fn spot(leaves: &[(Ino, Frag)], leaf: &(Ino, Frag)) -> Result<usize, usize>
    requires { Rise leaves.now }
    ensures within { IsSearchInRange result (length leaves.now) }
    ensures spot { IsLeafSpot leaf.now leaves.now result }
{
    leaves.binary_search(leaf)
}

// The place from which on each leaf is behind this one.
fn place_behind(leaves: &[(Ino, Frag)], leaf: &(Ino, Frag)) -> usize
    requires { Rise leaves.now }
    ensures { IsPlaceBehind leaf.now leaves.now result }
{
    match spot(leaves, leaf) {
        Ok(at) => at + 1,
        Err(at) => at,
    }
}
