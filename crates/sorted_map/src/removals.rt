//! Calls that take several keys out.
ghost use Rattle.std.specs.Prelude.{◌≡◌, ◌≤◌};
ghost use Rattle.std.specs.FinMap as map;
ghost use Rattle.sorted_map.specs.SortedMap.{contents, is_from};
ghost use Rattle.sorted_map.specs.Overlay.{without_keys};

use crate::keys::{ExactOrd, Probe};
use crate::map::{SortedMap, Store};
use std::mem;

impl<K: ExactOrd + Drop, V: Drop> SortedMap<K, V> {
    /// Forgets each pair whose key is less than the probe's.
    pub fn remove_below<Q: Probe<K>>(&mut self, q: &Q)
        ensures kept { contents K.cmp self.new
            ≡ map.retain_keys (contents K.cmp self.old) (is_from K.cmp (Q.key q.now)) }
        ensures room { self.old.room ≤ self.new.room }
    {
        match &mut self.store {
            Store::Flat(flat) => flat.remove_below(q),
            Store::Chunked(chunked) => chunked.remove_below(q),
        }
    }

    /// Takes all pairs out, with their places: the map is empty then, and has no room.
    pub fn take(&mut self) -> SortedMap<K, V>
        ensures taken { result ≡ self.old }
        ensures empty { contents K.cmp self.new ≡ map.empty }
        ensures room { self.new.room ≡ 0 }
    {
        let empty = SortedMap::new(self.allocator());
        mem::replace(self, empty)
    }

    /// Gives back the memory of the room of a large map, but for the places behind its last pairs. A small one keeps
    /// its room.
    pub fn give_back(&mut self)
        ensures same { contents K.cmp self.new ≡ contents K.cmp self.old }
    {
        match &mut self.store {
            Store::Flat(_) => {}
            Store::Chunked(chunked) => chunked.give_back(),
        }
    }

    /// Takes out each pair whose key the other map has.
    pub fn remove_all<W>(&mut self, keys: &SortedMap<K, W>)
        ensures kept { contents K.cmp self.new ≡ without_keys (contents K.cmp self.old) (contents K.cmp keys.now) }
    {
        match &mut self.store {
            Store::Flat(flat) => flat.remove_all(keys),
            Store::Chunked(chunked) => chunked.remove_all(keys),
        }
    }
}
