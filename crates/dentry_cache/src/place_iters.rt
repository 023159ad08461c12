//! The places of a cache, from the most recently used to the least, or from both ends.
ghost use Rattle.std.specs.Prelude.{length};
ghost use Rattle.std.specs.Iterator.{at_most};
ghost use Rattle.std.specs.Map.Iter.{TakesFirst, TakesLast, deref_pair};

use crate::cache::Place;
use crate::place_lru::Slot;
use lru::Iter;
use mds_types::{Frag, Ino};
use std::marker::Model;

/// What is left of the places, each with its leaf.
#[derive(Drop)]
pub(crate) struct PlaceIter<'a> {
    pub(crate) rest: Iter<'a, (Ino, Frag), usize>,
    pub(crate) slots: &'a [Slot],
}

impl<'a> Model for PlaceIter<'a> {
    ghost use Rattle.std.specs.Coded.{codes};
    ghost use Rattle.std.specs.FinMap as map;
    ghost use Rattle.std.specs.Prelude.{◌<◌, length};
    ghost use Rattle.std.specs.List.{AllByRecursion};
    ghost use Rattle.dentry_cache.specs.Cache.{Places};
    ghost use Rattle.dentry_cache.specs.Slots.{places_in};

    ghost Value = { Places };

    ghost coded = { Prim.hlevel (codes, map.code) };

    ghost view = { λ p. places_in p.slots.now p.rest };

    ghost invariant = { λ p. AllByRecursion (λ e. e.1 < length p.slots.now) p.rest };
}

impl<'a> Iterator for PlaceIter<'a> {
    type Item = (&'a (Ino, Frag), &'a Place);

    ghost next_gives = { TakesFirst deref_pair };

    ghost remaining = { λ s. at_most (length s) };

    fn next(&mut self) -> Option<(&'a (Ino, Frag), &'a Place)> {
        let slots = self.slots;
        match self.rest.next() {
            Some((leaf, slot)) => Some((leaf, &slots[*slot].place)),
            None => None,
        }
    }
}

impl<'a> DoubleEndedIterator for PlaceIter<'a> {
    ghost next_back_gives = { TakesLast deref_pair };

    fn next_back(&mut self) -> Option<(&'a (Ino, Frag), &'a Place)> {
        let slots = self.slots;
        match self.rest.next_back() {
            Some((leaf, slot)) => Some((leaf, &slots[*slot].place)),
            None => None,
        }
    }
}
