//! The calls that change a map in chunks. None of them takes memory.
ghost use Rattle.std.specs.Prelude.{◌≡◌, ◌-◌, ◌<◌, ◌≤◌, if◌then◌else◌, drop, Some, None, IsSome, IfSome, IfNone, is_some, option_map};
ghost use Rattle.std.specs.FinMap as map;
ghost use Rattle.sorted_map.specs.SortedMap.{contents, first_pair};

use crate::chunked::map::ChunkMap;
use crate::chunked::places::{spot, spot_behind};
use crate::chunks::{put_new, put_value, take_out};
use crate::fingers::Finger;
use crate::keys::{ExactOrd, Probe};

impl<K: ExactOrd + Drop, V: Drop> ChunkMap<K, V> {
    /// Gives the key a value, and returns the one that it had. A new key needs room.
    pub fn insert(&mut self, key: K, value: V) -> Option<V>
        requires { map.get (contents K.cmp self.old) key ≡ None → 0 < self.old.room }
        ensures value { result ≡ map.get (contents K.cmp self.old) key }
        ensures inserted { contents K.cmp self.new ≡ map.insert (contents K.cmp self.old) key value }
        ensures room { (if is_some result then self.old.room else self.old.room - 1) ≤ self.new.room }
    {
        // keys often come in their order
        if let Some((home, at)) = spot_behind(self.chunks.row(), &key) {
            put_new(&mut self.chunks, home, at, (key, value));
            return None;
        }
        self.insert_near(&Finger::none(), key, value)
    }

    /// Gives a key that is there another value, and returns the one that it had.
    pub fn replace<Q: Probe<K>>(&mut self, q: &Q, value: V) -> V
        requires { IsSome (map.get (contents K.cmp self.old) (Q.key q.now)) }
        ensures value { Some result ≡ map.get (contents K.cmp self.old) (Q.key q.now) }
        ensures inserted { contents K.cmp self.new ≡ map.insert (contents K.cmp self.old) (Q.key q.now) value }
        ensures room { self.new.room ≡ self.old.room }
    {
        match spot(self.chunks.row(), q) {
            (home, Ok(at)) => put_value(&mut self.chunks, home, at, value),
            (_, Err(_)) => unreachable!(),
        }
    }

    /// Takes the key out, and returns it with its value.
    pub fn remove<Q: Probe<K>>(&mut self, q: &Q) -> Option<(K, V)>
        ensures value { result ≡ option_map (λ v. (Q.key q.now, v)) (map.get (contents K.cmp self.old) (Q.key q.now)) }
        ensures removed { contents K.cmp self.new ≡ map.remove (contents K.cmp self.old) (Q.key q.now) }
        ensures absent { IfNone result (self.new ≡ self.old) }
        ensures room { self.old.room ≤ self.new.room }
    {
        self.remove_near(&Finger::none(), q)
    }

    /// Takes out the pair of the least key.
    pub fn pop_first(&mut self) -> Option<(K, V)>
        ensures value { result ≡ first_pair (contents K.cmp self.old) }
        ensures rest { map.entries (contents K.cmp self.new) ≡ drop 1 (map.entries (contents K.cmp self.old)) }
        ensures removed { IfSome result (λ pair. contents K.cmp self.new
            ≡ map.remove (contents K.cmp self.old) pair.0) }
        ensures empty { IfNone result (self.new ≡ self.old) }
        ensures room { self.old.room ≤ self.new.room }
    {
        if self.chunks.row().is_empty() {
            return None;
        }
        Some(take_out(&mut self.chunks, 0, 0))
    }
}
