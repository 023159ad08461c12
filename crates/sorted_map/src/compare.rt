//! Whether two maps have the same pairs.
ghost use Rattle.std.specs.Prelude.{◌≡◌, Decides};
ghost use Rattle.std.specs.Cmp.{on_per, on_equiv, and_per, and_equiv};
ghost use Rattle.std.specs.Cmp.Lexicographic.{pointwise, lists_per, lists_equiv};
ghost use Rattle.sorted_map.specs.SortedMap.{TellsApart, contents, pairs_eq};

use crate::chunks::Iter;
use crate::keys::ExactOrd;
use crate::map::SortedMap;

impl<K: ExactOrd, V: PartialEq> PartialEq for SortedMap<K, V> {
    ghost eq = { λ a b. pointwise (pairs_eq K.eq V.eq) a.entries b.entries };

    ghost laws = { on_per (λ s. s.entries) (lists_per (and_per (on_per (λ p. p.0) K.PartialEq.laws) (on_per (λ p. p.1) V.laws))) };

    /// Whether both have the same pairs. Their room may differ.
    fn eq(&self, other: &Self) -> bool
        ensures value { result ≡ pointwise (pairs_eq K.eq V.eq) self.now.entries other.now.entries }
        ensures exact { TellsApart V.eq → Decides result (contents K.cmp self.now ≡ contents K.cmp other.now) }
    {
        let _ = self.len();
        let _ = other.len();
        have_same(self.iter(), other.iter())
    }
}

impl<K: ExactOrd, V: Eq> Eq for SortedMap<K, V> {
    ghost laws = { on_equiv (λ s. s.entries) (lists_equiv (and_equiv (on_equiv (λ p. p.0) K.Eq.laws) (on_equiv (λ p. p.1) V.Eq.laws))) };
}

// Whether two iterators give the same pairs.
fn have_same<K: PartialEq, V: PartialEq>(mut a: Iter<'_, K, V>, mut b: Iter<'_, K, V>) -> bool
    ensures { result ≡ pointwise (pairs_eq K.eq V.eq) a.entry b.entry }
{
    loop {
        match (a.next(), b.next()) {
            (Some(x), Some(y)) => {
                if x.0 != y.0 || x.1 != y.1 {
                    return false;
                }
            }
            (None, None) => return true,
            _ => return false,
        }
    }
}
