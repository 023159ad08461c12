//! Clones of a map in one vector.
ghost use Rattle.std.specs.Prelude.{◌≡◌, true, false, OnOk, OnErr};
ghost use Rattle.std.specs.FinMap.{is_sorted};
ghost use Rattle.sorted_map.specs.SortedMap.{IsClone};

use crate::flat::map::FlatMap;
use crate::keys::ExactOrd;
use std::alloc::AllocError;

impl<K: ExactOrd + Clone, V: Clone> Clone for FlatMap<K, V> {
    ghost is_clone = { IsClone K.is_clone V.is_clone };

    /// A map of clones of the pairs. `Clone` does not say that a clone compares as its source, so this fails too where
    /// the clones of the keys do not rise.
    fn clone(&self) -> Result<FlatMap<K, V>, AllocError> {
        let pairs = self.pairs.clone()?;
        must_rise(&pairs)?;
        Ok(FlatMap { pairs })
    }
}

// An error says that the keys do not rise.
fn must_rise<K: Ord, V>(pairs: &[(K, V)]) -> Result<(), AllocError>
    ensures ok { OnOk result (is_sorted K.cmp pairs.now ≡ true) }
    ensures err { OnErr result (is_sorted K.cmp pairs.now ≡ false) }
{
    if rises(pairs) {
        Ok(())
    } else {
        Err(AllocError)
    }
}

// Whether each key is less than the next.
fn rises<K: Ord, V>(pairs: &[(K, V)]) -> bool
    ensures { result ≡ is_sorted K.cmp pairs.now }
{
    pairs.is_sorted_by(|a, b| a.0.cmp(&b.0).is_lt())
}
