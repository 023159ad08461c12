//! `PlaceLru`: the places of a cache in the order of their use. Each stands in a slot, and the order keeps the slot's
//! number alone, so a place that was found is found again, and lent for a change, with no key hashed.
ghost use Rattle.std.specs.Prelude.{◌≡◌, ◌<◌, ◌≤◌, ◌∷◌, true, None, [], OnErr, OnOk, length, slice_get, is_some, IfOk, IfSome, option_map, option_copied};
ghost use Rattle.std.specs.Option.{option_copied_mut};
ghost use Rattle.std.specs.Borrow.{sem};
ghost use Rattle.std.specs.NonZero.{non_zero_usize_get};
ghost use Rattle.std.specs.Map.{lookup, remove_entry, set_value};
ghost use Rattle.std.specs.Map.Iter.{deref_pair};
ghost use Rattle.lru.specs.LruCache.{lru_cache, promoted};
ghost use Rattle.dentry_cache.specs.Cache.{leaf_is};
ghost use Rattle.dentry_cache.specs.Places.{IsCache};
ghost use Rattle.dentry_cache.specs.Slots.{AreSlotted, slot_at};

use crate::cache::Place;
use crate::place_iters::PlaceIter;
use lru::LruCache;
use mds_types::{Frag, Ino};
use std::alloc::{AllocError, Global};
use std::cell::Cell;
use std::marker::Model;
use std::num::NonZeroUsize;

/// A leaf's place, where it stands.
#[derive(Debug, Drop)]
pub(crate) struct Slot {
    pub(crate) leaf: (Ino, Frag),
    pub(crate) place: Place,
}

/// The places of leaves, in the order of their use.
#[derive(Drop)]
pub(crate) struct PlaceLru {
    // the slot of each leaf's place
    order: LruCache<(Ino, Frag), usize>,
    slots: Vec<Slot>,
    // where those are that were found last
    near: Cell<Near>,
}

/// The slots of the two places that were found last: one operation asks for them again.
#[derive(Clone, Copy, Debug)]
struct Near {
    last: usize,
    before: usize,
}

impl Model for PlaceLru {
    ghost use Rattle.std.specs.Coded.{codes};
    ghost use Rattle.std.specs.FinMap as map;
    ghost use Rattle.dentry_cache.specs.Cache.{Held};
    ghost use Rattle.dentry_cache.specs.Slots.{AreSlotted, placed_by};

    ghost Value = { Held };

    ghost coded = { Prim.hlevel (codes, map.code) };

    ghost view = { λ p. placed_by p.order p.slots.items };

    ghost invariant = { λ p. AreSlotted p.slots.items p.order.entries };
}

impl PlaceLru {
    ghost use Rattle.dentry_cache.specs.SlotLends.{lends_place};

    /// No place, of at most so many. Takes little memory.
    pub(crate) fn new(alloc: Global, cap: NonZeroUsize) -> Result<PlaceLru, AllocError>
        ensures { IfOk result (λ p. p ≡ lru_cache [] (non_zero_usize_get cap)) }
    {
        Ok(PlaceLru {
            order: LruCache::sparse(alloc, cap)?,
            slots: Vec::new(alloc),
            near: Cell::new(Near { last: 0, before: 0 }),
        })
    }

    /// How many there may be.
    pub(crate) fn cap(&self) -> NonZeroUsize
        ensures { non_zero_usize_get result ≡ self.now.cap }
    {
        self.order.cap()
    }

    /// How many there are. No leaf has two of them.
    pub(crate) fn len(&self) -> usize
        ensures len { result ≡ length self.now.entries }
        ensures valid { IsCache self.now }
    {
        self.order.len()
    }

    /// A leaf's place.
    #[inline(always)]
    pub(crate) fn peek(&self, leaf: &(Ino, Frag)) -> Option<&Place>
        ensures { option_copied result ≡ lookup (leaf_is leaf.now) self.now.entries }
    {
        match slot_of(&self.order, &self.slots, &self.near, leaf) {
            Some(slot) => Some(&self.slots[slot].place),
            None => None,
        }
    }

    // Makes a leaf's place the most recently used, and tells whether it has one.
    fn promote(&mut self, leaf: &(Ino, Frag)) -> bool
        ensures value { result ≡ is_some (lookup (leaf_is leaf.now) self.old.entries) }
        ensures entries { self.new ≡ lru_cache (promoted (leaf_is leaf.now) self.old.entries) self.old.cap }
    {
        self.order.promote(leaf)
    }

    /// A leaf's place, to write to. The order of use stays.
    #[inline(always)]
    pub(crate) fn peek_mut(&mut self, leaf: &(Ino, Frag)) -> Option<&mut Place>
        ensures* writes_back { sem 𝓛 (lends_place self.entry (leaf_is leaf.now) self.old.entries result) }
        ensures value { option_copied_mut result ≡ lookup (leaf_is leaf.now) self.old.entries }
    {
        let slot = match slot_of(&self.order, &self.slots, &self.near, leaf) {
            Some(slot) => slot,
            None => return None,
        };
        // The contract of `len` is what says here that no leaf has two places.
        let _ = self.order.len();
        Some(&mut self.slots[slot].place)
    }

    /// The places, the most recently used first.
    pub(crate) fn iter(&self) -> PlaceIter<'_>
        ensures { result ≡ self.now.entries }
    {
        // The contract of `len` is what says here that no leaf has two places.
        let _ = self.order.len();
        PlaceIter {
            rest: self.order.iter(),
            slots: &self.slots,
        }
    }

    /// Makes a leaf's place the most recently used, and tells whether it has one. Where it is already, no key is hashed.
    #[inline(always)]
    pub(crate) fn touch(&mut self, leaf: &(Ino, Frag)) -> bool
        ensures value { result ≡ is_some (lookup (leaf_is leaf.now) self.old.entries) }
        ensures entries { self.new ≡ lru_cache (promoted (leaf_is leaf.now) self.old.entries) self.old.cap }
    {
        if let Some((newest, slot)) = self.order.peek_mru() {
            if newest == leaf {
                note(&self.near, *slot);
                return true;
            }
        }
        self.bring(leaf)
    }

    // Makes a leaf's place the most recently used, and tells whether it has one.
    #[inline(never)]
    fn bring(&mut self, leaf: &(Ino, Frag)) -> bool
        ensures value { result ≡ is_some (lookup (leaf_is leaf.now) self.old.entries) }
        ensures entries { self.new ≡ lru_cache (promoted (leaf_is leaf.now) self.old.entries) self.old.cap }
    {
        let there = self.promote(leaf);
        self.note_newest();
        there
    }

    // The most recently used place was found.
    fn note_newest(&self) {
        if let Some((_, slot)) = self.order.peek_mru() {
            note(&self.near, *slot);
        }
    }

    /// Gives a leaf that has none a place, where one more may be, as the most recently used. An error says that memory
    /// ran out, and nothing has changed.
    pub(crate) fn put(&mut self, leaf: &(Ino, Frag), place: Place) -> Result<(), AllocError>
        requires absent { lookup (leaf_is leaf.now) self.old.entries ≡ None }
        requires room { length self.old.entries < self.old.cap }
        ensures put { OnOk result (self.new ≡ lru_cache ((leaf.now, place) ∷ self.old.entries) self.old.cap) }
        ensures err { OnErr result (self.new ≡ self.old) }
    {
        // The contract of `len` is what says here that no leaf has two places.
        let _ = self.order.len();
        self.slots.reserve(1)?;
        let number = self.slots.len();
        match self.order.put(*leaf, number) {
            Ok(_) => {
                self.slots.push_reserved(Slot { leaf: *leaf, place });
                Ok(())
            }
            Err(_) => Err(AllocError),
        }
    }

    /// Takes a leaf's place out. The others keep their order of use.
    pub(crate) fn pop(&mut self, leaf: &(Ino, Frag)) -> Option<Place>
        ensures value { result ≡ lookup (leaf_is leaf.now) self.old.entries }
        ensures entries { self.new ≡ lru_cache (remove_entry (leaf_is leaf.now) self.old.entries) self.old.cap }
    {
        // The contract of `len` is what says here that no leaf has two places.
        let _ = self.order.len();
        let Some(number) = self.order.pop(leaf) else {
            return None;
        };
        let _ = self.order.len();
        let slot = self.slots.swap_remove(number);
        renumber(&mut self.order, &self.slots, number);
        Some(slot.place)
    }
}

// The slot of a leaf's place. Mostly it is one of the two that were found last, or the one behind, and then no key is
// hashed.
#[inline(always)]
fn slot_of(
    order: &LruCache<(Ino, Frag), usize>,
    slots: &[Slot],
    near: &Cell<Near>,
    leaf: &(Ino, Frag),
) -> Option<usize>
    requires { AreSlotted slots.now order.now.entries }
    ensures { result ≡ lookup (leaf_is leaf.now) order.now.entries }
{
    let last = near.get().last;
    if stands_in(slots, last, leaf) {
        return Some(last);
    }
    slot_beside(order, slots, near, leaf)
}

// The same, where it isn't that of the place that was found last.
#[inline(never)]
fn slot_beside(
    order: &LruCache<(Ino, Frag), usize>,
    slots: &[Slot],
    near: &Cell<Near>,
    leaf: &(Ino, Frag),
) -> Option<usize>
    requires { AreSlotted slots.now order.now.entries }
    ensures { result ≡ lookup (leaf_is leaf.now) order.now.entries }
{
    if let Some(slot) = slot_near(slots, near.get(), leaf) {
        note(near, slot);
        return Some(slot);
    }
    match order.peek(leaf) {
        Some(slot) => {
            note(near, *slot);
            Some(*slot)
        }
        None => None,
    }
}

// The slot of a leaf's place, if it is that of the place that was found before the last one, or stands behind one of
// these two: directories are often asked for in the order in which they came.
fn slot_near(slots: &[Slot], seen: Near, leaf: &(Ino, Frag)) -> Option<usize>
    ensures { IfSome result (λ i. (i < length slots.now) × ((slot_at slots.now i).leaf ≡ leaf.now)) }
{
    if stands_in(slots, seen.before, leaf) {
        return Some(seen.before);
    }
    let behind = seen.before.wrapping_add(1);
    if stands_in(slots, behind, leaf) {
        return Some(behind);
    }
    let behind = seen.last.wrapping_add(1);
    if stands_in(slots, behind, leaf) {
        return Some(behind);
    }
    None
}

// Whether there is a slot of this number, and a leaf's place stands in it.
#[inline(always)]
fn stands_in(slots: &[Slot], number: usize, leaf: &(Ino, Frag)) -> bool
    ensures { result ≡ true → (number < length slots.now) × ((slot_at slots.now number).leaf ≡ leaf.now) }
{
    number < slots.len() && &slots[number].leaf == leaf
}

// The place in a slot was found.
fn note(near: &Cell<Near>, number: usize) {
    let before = near.get().last;
    if before != number {
        near.set(Near {
            last: number,
            before,
        });
    }
}

// The slot of this number is that of another leaf now, if there is one: the leaf has the number then.
fn renumber(order: &mut LruCache<(Ino, Frag), usize>, slots: &[Slot], number: usize)
    ensures past { length slots.now ≤ number → order.new ≡ order.old }
    ensures moved { number < length slots.now → order.new ≡ lru_cache
        (set_value (leaf_is (slot_at slots.now number).leaf) order.old.entries number) order.old.cap }
{
    if number >= slots.len() {
        return;
    }
    let leaf = slots[number].leaf;
    if let Some(at) = order.peek_mut(&leaf) {
        *at = number;
    }
}
