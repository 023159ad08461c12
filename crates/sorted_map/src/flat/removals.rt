//! Keys of another map that are taken out of a map in one vector.
ghost use Rattle.std.specs.Prelude.{◌≡◌};
ghost use Rattle.sorted_map.specs.SortedMap.{contents};
ghost use Rattle.sorted_map.specs.Overlay.{without_keys};

use crate::flat::map::FlatMap;
use crate::keys::ExactOrd;
use crate::map::SortedMap;

impl<K: ExactOrd + Drop, V: Drop> FlatMap<K, V> {
    /// Takes out each pair whose key the other map has, in one pass.
    pub fn remove_all<W>(&mut self, keys: &SortedMap<K, W>)
        ensures kept { contents K.cmp self.new ≡ without_keys (contents K.cmp self.old) (contents K.cmp keys.now) }
    {
        self.pairs.retain(|pair| !keys.contains(&pair.0));
    }
}
