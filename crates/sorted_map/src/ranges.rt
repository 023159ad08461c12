//! The pairs of a map, or those of its keys from one on, in order.
ghost use Rattle.std.specs.Prelude.{◌≡◌};
ghost use Rattle.std.specs.FinMap as map;
ghost use Rattle.std.specs.FinMap.Entries.{where_key};
ghost use Rattle.sorted_map.specs.SortedMap.{contents, after, is_from};

use crate::chunks::{IntoIter, Iter};
use crate::keys::{ExactOrd, Probe};
use crate::map::{SortedMap, Store};

impl<K: ExactOrd, V> SortedMap<K, V> {
    /// The pairs in the order of their keys.
    pub fn iter(&self) -> Iter<'_, K, V>
        ensures { result ≡ map.entries (contents K.cmp self.now) }
    {
        match &self.store {
            Store::Flat(flat) => flat.iter(),
            Store::Chunked(chunked) => chunked.iter(),
        }
    }

    /// The pairs whose keys are no less than the probe's, in the order of their keys. The first is found in logarithmic
    /// time.
    pub fn iter_from<Q: Probe<K>>(&self, q: &Q) -> Iter<'_, K, V>
        ensures { result ≡ where_key K.cmp (is_from K.cmp (Q.key q.now)) (map.entries (contents K.cmp self.now)) }
    {
        match &self.store {
            Store::Flat(flat) => flat.iter_from(q),
            Store::Chunked(chunked) => chunked.iter_from(q),
        }
    }

    /// The pairs whose keys are greater than the probe's, in the order of their keys. The first is found in
    /// logarithmic time.
    pub fn iter_after<Q: Probe<K>>(&self, q: &Q) -> Iter<'_, K, V>
        ensures { result ≡ after K.cmp (Q.key q.now) (map.entries (contents K.cmp self.now)) }
    {
        match &self.store {
            Store::Flat(flat) => flat.iter_after(q),
            Store::Chunked(chunked) => chunked.iter_after(q),
        }
    }
}

impl<'a, K: ExactOrd, V> IntoIterator for &'a SortedMap<K, V> {
    type Item = &'a (K, V);

    type IntoIter = Iter<'a, K, V>;

    ghost into_iter_gives = { λ m r. r ≡ map.entries (contents K.cmp m.now) };

    fn into_iter(self) -> Iter<'a, K, V> {
        self.iter()
    }
}

impl<K: ExactOrd + Drop, V: Drop> IntoIterator for SortedMap<K, V> {
    type Item = (K, V);

    type IntoIter = IntoIter<K, V>;

    ghost into_iter_gives = { λ m r. r ≡ map.entries (contents K.cmp m) };

    /// The pairs in the order of their keys, given away.
    fn into_iter(self) -> IntoIter<K, V> {
        // The contract of `len` is what says here that the keys of a map rise.
        let _ = self.len();
        match self.store {
            Store::Flat(flat) => flat.into_iter(),
            Store::Chunked(chunked) => Box::into_inner(chunked).into_iter(),
        }
    }
}
