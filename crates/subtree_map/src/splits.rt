//! The roots where a leaf is split.
ghost use Rattle.std.specs.Prelude.{◌≡◌, ◌≢◌, ◌+◌, ◌^◌, ◌<◌, ◌≤◌, ℕ, Some};
ghost use Rattle.std.specs.FinMap as map;
ghost use Rattle.mds_types.specs.Frag.{child_of};
ghost use Rattle.fragtree.specs.FragTree.{FitsSplit};
ghost use Rattle.subtree_map.specs.Changes.{IsRootSplit, SplitsSoundly};
ghost use Rattle.subtree_map.specs.Rows.{AreChildrenSet};

use crate::lists::Lists;
use crate::subtrees::Subtrees;
use mds_types::{Frag, Ino, Rank};

impl Subtrees {
    /// A leaf is split by so many bits: where it is a root, its children are roots of its rank, for which there has to
    /// be room, and it is none any more. Where it inherits, its children do. Takes no memory.
    pub fn split_root(&mut self, dir: Ino, frag: Frag, bits: u8)
        requires fits { FitsSplit frag bits }
        requires room { 2 ^ bits ≤ self.old.room }
        ensures roots { IsRootSplit self.old.roots self.new.roots dir.0 frag bits }
        ensures authority { SplitsSoundly self.old.roots self.new.roots dir.0 frag bits }
        ensures promises { self.new.promises ≡ self.old.promises }
        ensures room { self.old.room ≤ self.new.room + 2 ^ bits }
    {
        split_row(&mut self.lists, dir, frag, bits);
    }
}

// Puts the children of a root in its place, if it is one.
fn split_row(roots: &mut Lists, dir: Ino, frag: Frag, bits: u8)
    requires fits { FitsSplit frag bits }
    requires room { 2 ^ bits ≤ roots.old.room }
    ensures roots { IsRootSplit roots.old.roots roots.new.roots dir.0 frag bits }
    ensures room { roots.old.room ≤ roots.new.room + 2 ^ bits }
    ensures promises { roots.new.promises ≡ roots.old.promises }
{
    if let Some(rank) = roots.take(dir, frag) {
        put_children(roots, dir, frag, bits, rank);
    }
}

// Makes the children of a leaf roots of a rank.
fn put_children(roots: &mut Lists, dir: Ino, frag: Frag, bits: u8, rank: Rank)
    requires fits { FitsSplit frag bits }
    requires room { 2 ^ bits ≤ roots.old.room }
    ensures children { AreChildrenSet roots.old.roots roots.new.roots dir.0 frag bits (2 ^ bits) rank }
    ensures room { roots.old.room ≤ roots.new.room + 2 ^ bits }
    ensures promises { roots.new.promises ≡ roots.old.promises }
{
    for i in 0..1 << bits {
        roots.insert(dir, child(frag, i, bits), rank);
    }
}

// The child `i` of a fragment by so many bits.
fn child(f: Frag, i: u32, nb: u8) -> Frag
    requires fits { f.bits + nb ≤ 24 }
    requires below { i < 2 ^ nb }
    ensures { result ≡ child_of f i nb }
{
    f.child(i, nb).unwrap()
}
