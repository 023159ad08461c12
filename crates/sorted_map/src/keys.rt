//! What a map asks of its keys, and the forms in which a key is looked up.
ghost use Rattle.std.specs.Prelude.{◌≡◌};
ghost use Rattle.std.specs.declared.cmp.Ordering.TheVariants.{Equal};
ghost use Rattle.std.specs.FinMap.{nat_cmp-IsAntisymmetric};
ghost use Rattle.std.proofs.lemmas.Map.Lookups.{exact_pairs};

use std::cmp::Ordering;

/// An order in which only equal values tie, as that of numbers.
///
/// Two keys that tie are then one key to a contract too, so it can speak of a map as a finite map. A `Vec` or a
/// `String` has no such order, since a contract sees its capacity: a key has its bytes in a struct with an `impl
/// Model`. For a key of two parts the proof is `exact_pairs` of `Rattle.std.proofs.lemmas.Map.Lookups`.
pub trait ExactOrd: Ord {
    ghost exact: { (x y : Self) → Self.cmp x y ≡ Equal → x ≡ y };
}

impl ExactOrd for u8 {
    ghost exact = { nat_cmp-IsAntisymmetric };
}

impl ExactOrd for u16 {
    ghost exact = { nat_cmp-IsAntisymmetric };
}

impl ExactOrd for u32 {
    ghost exact = { nat_cmp-IsAntisymmetric };
}

impl ExactOrd for u64 {
    ghost exact = { nat_cmp-IsAntisymmetric };
}

impl ExactOrd for usize {
    ghost exact = { nat_cmp-IsAntisymmetric };
}

impl<A: ExactOrd, B: ExactOrd> ExactOrd for (A, B) {
    ghost exact = { exact_pairs A.cmp B.cmp A.exact B.exact };
}

/// A value that stands for one key, by which the key can be looked up without a `K` in memory.
///
/// Each key stands for itself. A key that owns memory may have a borrowed form beside it.
pub trait Probe<K: Ord> {
    ghost key: { Self → K };

    /// How the key compares with `other`.
    fn order(&self, other: &K) -> Ordering
        ensures { result ≡ K.cmp (key self.now) other.now };
}

impl<K: Ord> Probe<K> for K {
    ghost key = { λ k. k };

    fn order(&self, other: &K) -> Ordering {
        self.cmp(other)
    }
}
