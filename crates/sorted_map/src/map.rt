//! `SortedMap`, what a contract sees of it, and the calls that read it or make room.
ghost use Rattle.std.specs.Prelude.{◌≡◌, ◌≤◌, ◌↔◌, T, IsTrue, IsOk, OnOk, OnErr, is_some, option_copied};
ghost use Rattle.std.specs.FinMap as map;
ghost use Rattle.std.specs.FinMap.{is_sorted};
ghost use Rattle.sorted_map.specs.SortedMap.{contents, first_pair, last_pair};

use crate::chunked::map::ChunkMap;
use crate::flat::map::FlatMap;
use crate::keys::{ExactOrd, Probe};
use std::alloc::{AllocError, Global};
use std::marker::Model;

/// Where a map keeps its pairs: in one vector while they are few, in chunks of bounded length where they are many. Most
/// maps are small, so the chunks stand in a box, and a map takes little more than its vector.
#[derive(Debug, Drop)]
pub(crate) enum Store<K: ExactOrd, V> {
    Flat(FlatMap<K, V>),
    Chunked(Box<ChunkMap<K, V>>),
}

/// An ordered map, kept as a vector in the order of its keys, or as vectors of bounded length where it is large.
///
/// A look-up takes logarithmic time. A new key moves at most as many pairs as one of those vectors has.
#[derive(Debug, Drop)]
pub struct SortedMap<K: ExactOrd, V> {
    pub(crate) store: Store<K, V>,
}

impl<K: ExactOrd, V> Model for SortedMap<K, V> {
    ghost use Rattle.sorted_map.specs.SortedMap.{Shown, shown_code};
    ghost use Rattle.sorted_map.specs.Stores.{shown_by};

    ghost Value = { Shown K V };

    ghost coded = { shown_code K.code V.code };

    ghost view = { λ m. shown_by m.store };
}

impl<K: ExactOrd, V> SortedMap<K, V> {
    /// An empty map, with no room.
    pub fn new(alloc: Global) -> Self
        ensures empty { contents K.cmp result ≡ map.empty }
        ensures room { result.room ≡ 0 }
    {
        SortedMap {
            store: Store::Flat(FlatMap::new(alloc)),
        }
    }

    // The allocator that the pairs are kept by.
    pub(crate) fn allocator(&self) -> Global {
        match &self.store {
            Store::Flat(flat) => flat.allocator(),
            Store::Chunked(chunked) => chunked.allocator(),
        }
    }

    /// How many pairs there are.
    pub fn len(&self) -> usize
        ensures len { result ≡ map.len (contents K.cmp self.now) }
        ensures valid { T (is_sorted K.cmp self.now.entries) }
    {
        match &self.store {
            Store::Flat(flat) => flat.len(),
            Store::Chunked(chunked) => chunked.len(),
        }
    }

    /// How many new keys surely fit before memory is needed.
    pub fn room(&self) -> usize
        ensures { result ≡ self.now.room }
    {
        match &self.store {
            Store::Flat(flat) => flat.room(),
            Store::Chunked(chunked) => chunked.room(),
        }
    }

    /// Whether there is no pair.
    pub fn is_empty(&self) -> bool
        ensures { IsTrue result ↔ (contents K.cmp self.now ≡ map.empty) }
    {
        self.len() == 0
    }

    /// The value of the key. Takes logarithmic time.
    pub fn get<Q: Probe<K>>(&self, q: &Q) -> Option<&V>
        ensures { option_copied result ≡ map.get (contents K.cmp self.now) (Q.key q.now) }
    {
        match &self.store {
            Store::Flat(flat) => flat.get(q),
            Store::Chunked(chunked) => chunked.get(q),
        }
    }

    /// Whether the key has a value. Takes logarithmic time.
    pub fn contains<Q: Probe<K>>(&self, q: &Q) -> bool
        ensures { result ≡ is_some (map.get (contents K.cmp self.now) (Q.key q.now)) }
    {
        self.get(q).is_some()
    }

    /// The pair of the least key.
    pub fn first(&self) -> Option<&(K, V)>
        ensures { option_copied result ≡ first_pair (contents K.cmp self.now) }
    {
        match &self.store {
            Store::Flat(flat) => flat.first(),
            Store::Chunked(chunked) => chunked.first(),
        }
    }

    /// The pair of the greatest key.
    pub fn last(&self) -> Option<&(K, V)>
        ensures { option_copied result ≡ last_pair (contents K.cmp self.now) }
    {
        match &self.store {
            Store::Flat(flat) => flat.last(),
            Store::Chunked(chunked) => chunked.last(),
        }
    }
}
