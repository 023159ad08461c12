//! Calls that take several keys out of a map in chunks.
ghost use Rattle.std.specs.Prelude.{◌≡◌, ◌≤◌};
ghost use Rattle.std.specs.FinMap as map;
ghost use Rattle.sorted_map.specs.SortedMap.{contents, is_from};
ghost use Rattle.sorted_map.specs.Overlay.{starts_below, without_keys};

use crate::chunked::map::ChunkMap;
use crate::keys::{ExactOrd, Probe};
use crate::map::SortedMap;

impl<K: ExactOrd + Drop, V: Drop> ChunkMap<K, V> {
    /// Forgets each pair whose key is less than the probe's.
    pub fn remove_below<Q: Probe<K>>(&mut self, q: &Q)
        ensures kept { contents K.cmp self.new
            ≡ map.retain_keys (contents K.cmp self.old) (is_from K.cmp (Q.key q.now)) }
        ensures room { self.old.room ≤ self.new.room }
    {
        while self.starts_below(q) {
            drop(self.pop_first());
        }
    }

    /// Gives back the memory of all room but that in its last chunks.
    pub fn give_back(&mut self)
        ensures same { contents K.cmp self.new ≡ contents K.cmp self.old }
    {
        self.chunks.give_back();
    }

    /// Takes out each pair whose key the other map has.
    pub fn remove_all<W>(&mut self, keys: &SortedMap<K, W>)
        ensures kept { contents K.cmp self.new ≡ without_keys (contents K.cmp self.old) (contents K.cmp keys.now) }
    {
        for pair in keys {
            drop(self.remove(&pair.0));
        }
    }
}

impl<K: ExactOrd, V> ChunkMap<K, V> {
    // Whether the least key is less than the probe's.
    fn starts_below<Q: Probe<K>>(&self, q: &Q) -> bool
        ensures { result ≡ starts_below K.cmp (Q.key q.now) (map.entries (contents K.cmp self.now)) }
    {
        match self.first() {
            Some(first) => q.order(&first.0).is_gt(),
            None => false,
        }
    }
}
