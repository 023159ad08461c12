//! A value to write to.
ghost use Rattle.std.specs.Prelude.{◌≡◌};
ghost use Rattle.std.specs.Option.{option_copied_mut};
ghost use Rattle.std.specs.Borrow.{sem};
ghost use Rattle.std.specs.FinMap as map;
ghost use Rattle.sorted_map.specs.SortedMap.{contents};

use crate::chunked::fingers::spot_near;
use crate::chunked::map::ChunkMap;
use crate::fingers::Finger;
use crate::keys::{ExactOrd, Probe};

impl<K: ExactOrd, V> ChunkMap<K, V> {
    ghost use Rattle.sorted_map.specs.ChunkLending.{lends_value};

    /// The value of the key, to write to. Takes a comparison or two where the finger is there, else logarithmic time.
    pub fn get_mut_near<Q: Probe<K>>(&mut self, near: &Finger, q: &Q) -> Option<&mut V>
        ensures* writes_back { sem 𝓛
            (lends_value K.row V.row K.cmp K.eq K.partial_cmp self.entry (Q.key q.now) result) }
        ensures value { option_copied_mut result ≡ map.get (contents K.cmp self.old) (Q.key q.now) }
    {
        match spot_near(self.chunks.row(), near, q) {
            (home, Ok(at)) => Some(self.chunks.value_mut(home, at)),
            (_, Err(_)) => None,
        }
    }
}
