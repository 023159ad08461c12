//! A value to write to.
ghost use Rattle.std.specs.Prelude.{◌≡◌};
ghost use Rattle.std.specs.Option.{option_copied_mut};
ghost use Rattle.std.specs.Borrow.{sem};
ghost use Rattle.std.specs.FinMap as map;
ghost use Rattle.sorted_map.specs.SortedMap.{contents};

use crate::fingers::Finger;
use crate::keys::{ExactOrd, Probe};
use crate::map::{SortedMap, Store};

impl<K: ExactOrd, V> SortedMap<K, V> {
    ghost use Rattle.sorted_map.specs.Lending.{lends_value};

    /// The value of the key, to write to. Takes logarithmic time.
    pub fn get_mut<Q: Probe<K>>(&mut self, q: &Q) -> Option<&mut V>
        ensures* writes_back { sem 𝓛
            (lends_value K.row V.row K.cmp K.eq K.partial_cmp self.entry (Q.key q.now) result) }
        ensures value { option_copied_mut result ≡ map.get (contents K.cmp self.old) (Q.key q.now) }
    {
        match &mut self.store {
            Store::Flat(flat) => flat.get_mut(q),
            Store::Chunked(chunked) => chunked.get_mut_near(&Finger::none(), q),
        }
    }

    /// The same, where the finger may be that of the key.
    pub fn get_mut_near<Q: Probe<K>>(&mut self, near: &Finger, q: &Q) -> Option<&mut V>
        ensures* writes_back { sem 𝓛
            (lends_value K.row V.row K.cmp K.eq K.partial_cmp self.entry (Q.key q.now) result) }
        ensures value { option_copied_mut result ≡ map.get (contents K.cmp self.old) (Q.key q.now) }
    {
        match &mut self.store {
            Store::Flat(flat) => flat.get_mut(q),
            Store::Chunked(chunked) => chunked.get_mut_near(near, q),
        }
    }
}
