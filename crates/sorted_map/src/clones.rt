//! Clones of maps.
ghost use Rattle.std.specs.Prelude.{◌≢◌, OnErr, IfOk};
ghost use Rattle.std.specs.FinMap as map;
ghost use Rattle.sorted_map.specs.SortedMap.{IsClone, contents};

use crate::keys::ExactOrd;
use crate::map::{SortedMap, Store};
use std::alloc::{AllocError, Global};

impl<K: ExactOrd + Clone, V: Clone> SortedMap<K, V> {
    /// A map of clones of the pairs. An empty one takes no memory, and its clone never fails.
    ///
    /// `Clone` does not say that a clone compares as its source, so this fails where a growth was refused and also
    /// where the clones of the keys do not rise.
    pub fn try_clone(&self) -> Result<SortedMap<K, V>, AllocError>
        ensures ok { IfOk result (IsClone K.is_clone V.is_clone self.now) }
        ensures err { OnErr result (contents K.cmp self.now ≢ map.empty) }
    {
        if self.is_empty() {
            let _ = self.len();
            let empty = SortedMap::new(self.allocator());
            let _ = empty.len();
            return Ok(empty);
        }
        match &self.store {
            Store::Flat(flat) => {
                let flat = flat.clone()?;
                Ok(SortedMap {
                    store: Store::Flat(flat),
                })
            }
            Store::Chunked(chunked) => {
                let chunked = chunked.clone()?;
                Ok(SortedMap {
                    store: Store::Chunked(chunked),
                })
            }
        }
    }
}

impl<K: ExactOrd + Clone, V: Clone> Clone for SortedMap<K, V> {
    ghost is_clone = { IsClone K.is_clone V.is_clone };

    /// As `try_clone`.
    fn clone(&self) -> Result<SortedMap<K, V>, AllocError> {
        self.try_clone()
    }
}
