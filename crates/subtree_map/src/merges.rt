//! The roots where leaves are merged.
ghost use Rattle.std.specs.Prelude.{◌≡◌, ◌+◌, ◌<◌, ◌≤◌, true, None, IsSome, MatchOption};
ghost use Rattle.std.specs.FinMap as map;
ghost use Rattle.mds_types.specs.Frag.{IsFragment};
ghost use Rattle.mds_types.specs.Leaf.{Leaf};
ghost use Rattle.subtree_map.specs.Changes.{IsRootMerge, MergesSoundly, is_inside};
ghost use Rattle.subtree_map.specs.Rows.{AreTakenOut};

use crate::lists::Lists;
use crate::subtrees::Subtrees;
use mds_types::{Frag, Ino, Rank};

impl Subtrees {
    /// The leaves of a directory properly inside a fragment are merged: if one of them is a root, the merged leaf is a
    /// root of its rank, for which there has to be room, and none of them is one any more. The caller sees to it that
    /// they have one authority. Takes no memory.
    pub fn merge_roots(&mut self, dir: Ino, frag: Frag)
        requires room { 0 < self.old.room }
        ensures roots { IsRootMerge self.old.roots self.new.roots dir.0 frag }
        ensures authority { MergesSoundly self.old.roots self.new.roots dir.0 frag }
        ensures promises { self.new.promises ≡ self.old.promises }
        ensures room { self.old.room ≤ self.new.room + 1 }
    {
        merge_rows(&mut self.lists, dir, frag);
    }
}

// Puts the fragment in the place of the roots inside it, if there are any.
fn merge_rows(roots: &mut Lists, dir: Ino, frag: Frag)
    requires room { 0 < roots.old.room }
    ensures roots { IsRootMerge roots.old.roots roots.new.roots dir.0 frag }
    ensures room { roots.old.room ≤ roots.new.room + 1 }
    ensures promises { roots.new.promises ≡ roots.old.promises }
{
    if let Some(rank) = take_inside(roots, dir, frag) {
        roots.insert(dir, frag, rank);
    }
}

// Takes out the roots inside a fragment, and returns the rank of the last of them.
fn take_inside(roots: &mut Lists, dir: Ino, frag: Frag) -> Option<Rank>
    ensures taken { AreTakenOut roots.old.roots roots.new.roots dir.0 frag result }
    ensures room { MatchOption result (roots.new ≡ roots.old) (λ rank. roots.old.room ≤ roots.new.room) }
    ensures promises { roots.new.promises ≡ roots.old.promises }
{
    let mut found = None;
    while let Some(root) = root_inside(roots, dir, frag) {
        found = roots.take(root.0, root.1);
    }
    found
}

// The first root inside a fragment.
fn root_inside(roots: &Lists, dir: Ino, frag: Frag) -> Option<(Ino, Frag)>
    ensures { MatchOption result ((leaf : Leaf) → is_inside dir.0 frag leaf ≡ true
        → map.get roots.now.roots leaf ≡ None) (λ root. (is_inside dir.0 frag root ≡ true)
        × IsSome (map.get roots.now.roots root)) }
{
    let _ = frag.bits();
    let root = roots.first_after(dir, frag)?;
    if !is_inside(dir, frag, root.0, root.1) {
        return None;
    }
    Some(root)
}

// Whether a leaf is one of a directory, and lies properly inside a fragment.
fn is_inside(dir: Ino, frag: Frag, of: Ino, leaf: Frag) -> bool
    ensures inside { result ≡ is_inside dir.0 frag (of, leaf) }
    ensures valid { IsFragment leaf }
{
    let more_bits = frag.bits() < leaf.bits();
    of == dir && more_bits && frag.contains_frag(leaf)
}
