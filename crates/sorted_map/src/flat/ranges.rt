//! The pairs of a map in one vector, or those of its keys from one on.
ghost use Rattle.std.specs.Prelude.{◌≡◌};
ghost use Rattle.std.specs.FinMap as map;
ghost use Rattle.std.specs.FinMap.Entries.{where_key};
ghost use Rattle.sorted_map.specs.SortedMap.{contents, after, is_from};

use crate::chunks::Iter;
use crate::flat::map::FlatMap;
use crate::keys::{ExactOrd, Probe};
use crate::places::{place_after, place_from};

impl<K: ExactOrd, V> FlatMap<K, V> {
    /// The pairs in the order of their keys.
    pub fn iter(&self) -> Iter<'_, K, V>
        ensures { result ≡ map.entries (contents K.cmp self.now) }
    {
        Iter::of_pairs(&self.pairs)
    }

    /// The pairs whose keys are no less than the probe's.
    pub fn iter_from<Q: Probe<K>>(&self, q: &Q) -> Iter<'_, K, V>
        ensures { result ≡ where_key K.cmp (is_from K.cmp (Q.key q.now)) (map.entries (contents K.cmp self.now)) }
    {
        let from = place_from(&self.pairs, q);
        Iter::of_pairs(&self.pairs[from..])
    }

    /// The pairs whose keys are greater than the probe's.
    pub fn iter_after<Q: Probe<K>>(&self, q: &Q) -> Iter<'_, K, V>
        ensures { result ≡ after K.cmp (Q.key q.now) (map.entries (contents K.cmp self.now)) }
    {
        let from = place_after(&self.pairs, q);
        Iter::of_pairs(&self.pairs[from..])
    }
}
