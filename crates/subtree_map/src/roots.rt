//! The roots one by one.
ghost use Rattle.std.specs.Prelude.{◌≡◌};
ghost use Rattle.std.specs.Iterator.{YieldsFirst, item_count};
ghost use Rattle.std.specs.FinMap as map;

use crate::lists::Lists;
use mds_types::{Frag, Ino, Rank};
use std::iter::FusedIterator;
use std::marker::Model;

/// An iterator over the roots with their ranks, by directory and then as fragments. Each step asks the list of each
/// rank.
#[derive(Drop)]
pub struct Roots<'a> {
    lists: &'a Lists,
    next: Option<(Ino, Frag)>,
}

impl<'a> Model for Roots<'a> {
    ghost use Rattle.std.specs.Prelude.{List};
    ghost use Rattle.mds_types.specs.Leaf.{Leaf};
    ghost use Rattle.mds_types.specs.declared.ids.Rank.{Rank};
    ghost use Rattle.subtree_map.specs.Rows.{IsRootIfSome, rows_from};

    ghost Value = { List (Leaf × Rank) };

    ghost view = { λ r. rows_from r.lists.now.roots r.next };

    ghost invariant = { λ r. IsRootIfSome r.lists.now.roots r.next };
}

impl<'a> Iterator for Roots<'a> {
    type Item = ((Ino, Frag), Rank);

    ghost next_gives = { YieldsFirst (λ s. s) };

    ghost remaining = { item_count (λ s. s) };

    fn next(&mut self) -> Option<((Ino, Frag), Rank)> {
        let lists = self.lists;
        let leaf = self.next?;
        let Some(rank) = lists.get(leaf.0, leaf.1) else {
            unreachable!()
        };
        self.next = lists.first_after(leaf.0, leaf.1);
        Some((leaf, rank))
    }
}

impl<'a> FusedIterator for Roots<'a> {}

impl Lists {
    /// The roots with their ranks, by directory and then as fragments. Takes no memory.
    pub(crate) fn iter(&self) -> Roots<'_>
        ensures { result ≡ map.entries self.now.roots }
    {
        Roots {
            lists: self,
            next: self.first(),
        }
    }
}
