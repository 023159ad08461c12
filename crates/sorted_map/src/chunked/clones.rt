//! Clones of a map in chunks.
ghost use Rattle.std.specs.Prelude.{◌≡◌, true, false, T, OnOk, OnErr, length, ◌<◌, ◌^◌};
ghost use Rattle.std.specs.FinMap.{is_sorted};
ghost use Rattle.sorted_map.specs.SortedMap.{IsClone};

use crate::chunked::map::ChunkMap;
use crate::chunks::Iter;
use crate::keys::ExactOrd;
use std::alloc::AllocError;

impl<K: ExactOrd + Clone, V: Clone> Clone for ChunkMap<K, V> {
    ghost is_clone = { IsClone K.is_clone V.is_clone };

    /// A map of clones of the pairs, in as many chunks. `Clone` does not say that a clone compares as its source, so
    /// this fails too where the clones of the keys do not rise.
    fn clone(&self) -> Result<ChunkMap<K, V>, AllocError> {
        let chunks = self.chunks.clone()?;
        must_rise(Iter::of_chunks(&[], chunks.row()))?;
        Ok(ChunkMap { chunks })
    }
}

// An error says that the keys do not rise.
fn must_rise<K: Ord, V>(pairs: Iter<'_, K, V>) -> Result<(), AllocError>
    ensures ok { OnOk result (is_sorted K.cmp pairs.entry ≡ true) }
    ensures err { OnErr result (is_sorted K.cmp pairs.entry ≡ false) }
{
    if rises(pairs) {
        Ok(())
    } else {
        Err(AllocError)
    }
}

// Whether each key is less than the next.
fn rises<K: Ord, V>(mut pairs: Iter<'_, K, V>) -> bool
    ensures { result ≡ is_sorted K.cmp pairs.entry }
{
    let Some(mut last) = pairs.next() else {
        return true;
    };
    while let Some(pair) = pairs.next() {
        if !last.0.cmp(&pair.0).is_lt() {
            return false;
        }
        last = pair;
    }
    true
}
