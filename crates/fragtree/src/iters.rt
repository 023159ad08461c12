//! The leaves of a tree one by one.
ghost use Rattle.std.specs.Prelude.{◌≡◌, IfSome, Some, length};
ghost use Rattle.std.specs.Iterator.{UpTo, YieldsFirst, at_most, item_count};
ghost use Rattle.std.specs.Iterator.SizeHint.{IsWithinCount};

use crate::descents::last_hash;
use crate::tree::FragTree;
use mds_types::Frag;
use std::iter::FusedIterator;
use std::marker::Model;

/// An iterator over the leaves of a tree, by ascending value. Each step takes the time of a pick.
#[derive(Drop)]
pub struct Iter<'a> {
    tree: &'a FragTree,
    next: u32,
    done: usize,
}

impl<'a> Model for Iter<'a> {
    ghost use Rattle.std.specs.Prelude.{List, ◌≤◌, ◌^◌, drop, length};
    ghost use Rattle.mds_types.specs.Frag.{Fragment};
    ghost use Rattle.fragtree.specs.FragTree.{IsTree, Tiles};

    ghost Value = { List Fragment };

    ghost view = { λ a. drop a.done a.tree.now };

    ghost invariant = { λ a. (a.done ≤ length a.tree.now) × IsTree a.tree.now
        × Tiles a.next (2 ^ 24) (drop a.done a.tree.now) };
}

impl<'a> Iterator for Iter<'a> {
    type Item = Frag;

    ghost next_gives = { YieldsFirst (λ s. s) };

    ghost remaining = { item_count (λ s. s) };

    fn next(&mut self) -> Option<Frag> {
        if self.next == 1 << 24 {
            return None;
        }
        let leaf = self.tree.pick(self.next);
        self.next = last_hash(leaf) + 1;
        self.done += 1;
        Some(leaf)
    }

    fn size_hint(&self) -> (usize, Option<usize>)
        ensures lower { IsWithinCount result.0 (at_most (length self.now)) }
        ensures upper { IfSome result.1 (UpTo (at_most (length self.now))) }
        ensures exact { result ≡ (length self.now, Some (length self.now)) }
    {
        let len = self.len();
        (len, Some(len))
    }
}

impl<'a> ExactSizeIterator for Iter<'a> {
    fn len(&self) -> usize {
        self.tree.len() - self.done
    }
}

impl<'a> FusedIterator for Iter<'a> {}

impl FragTree {
    /// The leaves one by one, by ascending value. Takes no memory.
    pub fn iter(&self) -> Iter<'_>
        ensures { result ≡ self.now }
    {
        // The contract of `len` is what says here that the leaves are those of a tree.
        let _ = self.len();
        Iter {
            tree: self,
            next: 0,
            done: 0,
        }
    }
}

impl<'a> IntoIterator for &'a FragTree {
    type Item = Frag;

    type IntoIter = Iter<'a>;

    ghost into_iter_gives = { λ tree r. r ≡ tree.now };

    fn into_iter(self) -> Iter<'a> {
        self.iter()
    }
}
