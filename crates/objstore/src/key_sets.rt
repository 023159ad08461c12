//! Sets of keys.
ghost use Rattle.std.proofs.Common.{rules};
ghost use Rattle.std.specs.Cmp.{on_per, on_equiv, partial_equiv_from_equiv, decided};
ghost use Rattle.std.specs.Cmp.Lexicographic.{pointwise, lists_equiv};
ghost use Rattle.std.proofs.lemmas.Slice.Eq.{bytes_eq-Decides};
ghost use Rattle.sorted_map.proofs.Decided.{pair_decides};
ghost use Rattle.std.specs.Prelude.{◌≡◌, ◌==◌, ◌↔◌, IfOk, IsTrue, OnOk, OnErr};
ghost use Rattle.std.specs.FinMap as map;
ghost use Rattle.objstore.specs.Omap.{key_cmp};
ghost use Rattle.sorted_map.specs.SortedMap.{contents, pairs_eq};

use mds_types::Bytes;
use sorted_map::{Iter, SortedMap};
use std::alloc::{AllocError, Global};
use std::marker::Model;

/// A set of keys.
#[derive(Debug, Drop)]
pub struct KeySet {
    keys: SortedMap<Bytes, ()>,
}

impl Model for KeySet {
    ghost use Rattle.std.specs.Coded.{codes};
    ghost use Rattle.std.specs.FinMap as map;
    ghost use Rattle.objstore.specs.Omap.{Keys, key_cmp};
    ghost use Rattle.sorted_map.specs.SortedMap.{contents};

    ghost Value = { Keys };

    ghost coded = { Prim.hlevel (codes, map.code) };

    ghost view = { λ s. contents key_cmp s.keys };
}

impl KeySet {
    /// No keys. Takes no memory.
    pub fn new(alloc: Global) -> KeySet
        ensures { result ≡ map.empty }
    {
        KeySet {
            keys: SortedMap::new(alloc),
        }
    }

    /// How many keys there are.
    pub fn len(&self) -> usize
        ensures { result ≡ map.len self.now }
    {
        self.keys.len()
    }

    /// Whether the key is in the set.
    pub fn contains(&self, key: &Bytes) -> bool
        ensures { result ≡ map.contains_key self.now key.now }
    {
        self.keys.contains(key)
    }

    /// Puts a key in. Takes memory for its place.
    pub fn put(&mut self, key: Bytes) -> Result<(), AllocError>
        ensures ok { OnOk result (self.new ≡ map.insert self.old key tt) }
        ensures err { OnErr result (self.new ≡ self.old) }
    {
        self.keys.reserve(1)?;
        let _ = self.keys.insert(key, ());
        Ok(())
    }

    /// The keys in their order.
    pub fn iter(&self) -> Iter<'_, Bytes, ()>
        ensures { result ≡ map.entries self.now }
    {
        self.keys.iter()
    }

    /// A copy. Takes memory for the keys.
    pub fn try_clone(&self) -> Result<KeySet, AllocError>
        ensures { IfOk result (λ copy. copy ≡ self.now) }
    {
        Ok(KeySet {
            keys: self.keys.clone()?,
        })
    }

    // The keys, as a map to nothing.
    pub(crate) fn as_map(&self) -> &SortedMap<Bytes, ()>
        ensures { contents key_cmp result.now ≡ self.now }
    {
        &self.keys
    }
}

impl Clone for KeySet {
    ghost is_clone = { λ old new. new ≡ old };

    fn clone(&self) -> Result<KeySet, AllocError> {
        self.try_clone()
    }
}

impl PartialEq for KeySet {
    ghost eq = { λ a b. pointwise (pairs_eq (pointwise ◌==◌) ⟦<() as PartialEq>⟧.eq) (map.entries a) (map.entries b) };

    ghost laws = { on_per (λ s. map.entries s) (partial_equiv_from_equiv (lists_equiv (decided (pairs_eq (pointwise ◌==◌) ⟦<() as PartialEq>⟧.eq) (pair_decides (pointwise ◌==◌) ⟦<() as PartialEq>⟧.eq bytes_eq-Decides (λ (a b : Unit {0}). Prim.search rules))))) };

    /// Whether both have the same keys.
    fn eq(&self, other: &KeySet) -> bool
        ensures value { result
            ≡ pointwise (pairs_eq (pointwise ◌==◌) ⟦<() as PartialEq>⟧.eq) (map.entries self.now)
            (map.entries other.now) }
        ensures same { IsTrue result ↔ (self.now ≡ other.now) }
    {
        // The contract of `len` is what says here that the keys of a map rise.
        let _ = self.keys.len();
        let _ = other.keys.len();
        self.keys == other.keys
    }
}

impl Eq for KeySet {
    ghost laws = { on_equiv (λ s. map.entries s) (lists_equiv (decided (pairs_eq (pointwise ◌==◌) ⟦<() as PartialEq>⟧.eq) (pair_decides (pointwise ◌==◌) ⟦<() as PartialEq>⟧.eq bytes_eq-Decides (λ (a b : Unit {0}). Prim.search rules)))) };
}
