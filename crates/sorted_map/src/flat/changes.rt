//! The calls that change a map. None of them takes memory.
ghost use Rattle.std.specs.Prelude.{◌≡◌, ℕ, ◌+◌, ◌-◌, ◌<◌, ◌≤◌, if◌then◌else◌, drop, Some, None, IsSome, IfSome, IfNone, is_some, option_map, slice_set, slice_index_or, insert, vec_len, vec_capacity};
ghost use Rattle.std.specs.FinMap as map;
ghost use Rattle.sorted_map.specs.SortedMap.{contents, first_pair, is_from};

use crate::chunks::vectors::{drop_front, put_at, replaced};
use crate::flat::map::FlatMap;
use crate::keys::{ExactOrd, Probe};
use crate::places::{place, place_from, place_from_end};

impl<K: ExactOrd + Drop, V: Drop> FlatMap<K, V> {
    /// Gives the key a value, and returns the one that it had. A new key needs room.
    ///
    /// A key that is there keeps its place. A new one moves the pairs that are greater than it; one above all others is
    /// put at the end after one comparison.
    pub fn insert(&mut self, key: K, value: V) -> Option<V>
        requires { map.get (contents K.cmp self.old) key ≡ None → 0 < self.old.room }
        ensures value { result ≡ map.get (contents K.cmp self.old) key }
        ensures inserted { contents K.cmp self.new ≡ map.insert (contents K.cmp self.old) key value }
        ensures room { self.new.room ≡ (if is_some result then self.old.room else self.old.room - 1) }
    {
        match place_from_end(&self.pairs, &key) {
            Ok(at) => Some(replaced(&mut self.pairs, at, value)),
            Err(at) => {
                put_at(&mut self.pairs, at, (key, value));
                None
            }
        }
    }

    /// Gives a key that is there another value, and returns the one that it had. Takes logarithmic time.
    pub fn replace<Q: Probe<K>>(&mut self, q: &Q, value: V) -> V
        requires { IsSome (map.get (contents K.cmp self.old) (Q.key q.now)) }
        ensures value { Some result ≡ map.get (contents K.cmp self.old) (Q.key q.now) }
        ensures inserted { contents K.cmp self.new ≡ map.insert (contents K.cmp self.old) (Q.key q.now) value }
        ensures room { self.new.room ≡ self.old.room }
    {
        match place(&self.pairs, q) {
            Ok(at) => replaced(&mut self.pairs, at, value),
            Err(_) => unreachable!(),
        }
    }

    /// Takes the key out, and returns it with its value. The pairs that are greater than it move.
    pub fn remove<Q: Probe<K>>(&mut self, q: &Q) -> Option<(K, V)>
        ensures value { result ≡ option_map (λ v. (Q.key q.now, v)) (map.get (contents K.cmp self.old) (Q.key q.now)) }
        ensures removed { contents K.cmp self.new ≡ map.remove (contents K.cmp self.old) (Q.key q.now) }
        ensures absent { IfNone result (self.new ≡ self.old) }
        ensures room { self.new.room ≡ (if is_some result then self.old.room + 1 else self.old.room) }
    {
        match place(&self.pairs, q) {
            Ok(at) => Some(self.pairs.remove(at)),
            Err(_) => None,
        }
    }

    /// Takes out the pair of the least key. The other pairs move.
    pub fn pop_first(&mut self) -> Option<(K, V)>
        ensures value { result ≡ first_pair (contents K.cmp self.old) }
        ensures rest { map.entries (contents K.cmp self.new) ≡ drop 1 (map.entries (contents K.cmp self.old)) }
        ensures removed { IfSome result (λ pair. contents K.cmp self.new
            ≡ map.remove (contents K.cmp self.old) pair.0) }
        ensures empty { IfNone result (self.new ≡ self.old) }
        ensures room { self.new.room ≡ (if is_some result then self.old.room + 1 else self.old.room) }
    {
        if self.pairs.is_empty() {
            return None;
        }
        Some(self.pairs.remove(0))
    }

    /// Forgets each pair whose key is less than the probe's. The pairs that stay move.
    pub fn remove_below<Q: Probe<K>>(&mut self, q: &Q)
        ensures kept { contents K.cmp self.new
            ≡ map.retain_keys (contents K.cmp self.old) (is_from K.cmp (Q.key q.now)) }
        ensures room { self.old.room ≤ self.new.room }
    {
        let from = place_from(&self.pairs, q);
        drop_front(&mut self.pairs, from);
    }
}
