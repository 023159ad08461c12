//! The pairs of an object.
ghost use Rattle.std.proofs.lemmas.Slice.Eq.{bytes_eq-Decides};
ghost use Rattle.std.specs.Cmp.{on_per, on_equiv, partial_equiv_from_equiv, decided};
ghost use Rattle.std.specs.Cmp.Lexicographic.{pointwise, lists_equiv};
ghost use Rattle.sorted_map.proofs.Decided.{pair_decides};
ghost use Rattle.std.specs.Prelude.{◌≡◌, ◌==◌, ◌↔◌, ◌≤◌, IfOk, IsTrue, OnOk, OnErr, option_copied};
ghost use Rattle.std.specs.FinMap as map;
ghost use Rattle.objstore.specs.Omap.{key_cmp, pairs_after, page_of};
ghost use Rattle.sorted_map.specs.SortedMap.{contents, pairs_eq};
ghost use Rattle.sorted_map.specs.Overlay.{overlaid, without_keys};

use crate::key_sets::KeySet;
use crate::pages::{Page, first_page};
use mds_types::Bytes;
use sorted_map::{Iter, SortedMap};
use std::alloc::{AllocError, Global};
use std::marker::Model;

/// Pairs of a key and a value, in the order of the keys.
#[derive(Debug, Drop)]
pub struct Pairs {
    pairs: SortedMap<Bytes, Bytes>,
}

impl Model for Pairs {
    ghost use Rattle.std.specs.Coded.{codes};
    ghost use Rattle.std.specs.FinMap as map;
    ghost use Rattle.objstore.specs.Omap.{PairMap, key_cmp};
    ghost use Rattle.sorted_map.specs.SortedMap.{contents};

    ghost Value = { PairMap };

    ghost coded = { Prim.hlevel (codes, map.code) };

    ghost view = { λ p. contents key_cmp p.pairs };
}

impl Pairs {
    /// No pairs. Takes no memory.
    pub fn new(alloc: Global) -> Pairs
        ensures { result ≡ map.empty }
    {
        Pairs {
            pairs: SortedMap::new(alloc),
        }
    }

    /// How many pairs there are.
    pub fn len(&self) -> usize
        ensures { result ≡ map.len self.now }
    {
        self.pairs.len()
    }

    /// The value of the key. Takes logarithmic time.
    pub fn get(&self, key: &Bytes) -> Option<&Bytes>
        ensures { option_copied result ≡ map.get self.now key.now }
    {
        self.pairs.get(key)
    }

    /// Gives the key a value. Takes memory for the place of a new key.
    pub fn put(&mut self, key: Bytes, value: Bytes) -> Result<(), AllocError>
        ensures ok { OnOk result (self.new ≡ map.insert self.old key value) }
        ensures err { OnErr result (self.new ≡ self.old) }
    {
        self.pairs.reserve(1)?;
        let _ = self.pairs.insert(key, value);
        Ok(())
    }

    /// The pairs, in the order of their keys.
    pub fn iter(&self) -> Iter<'_, Bytes, Bytes>
        ensures { result ≡ map.entries self.now }
    {
        self.pairs.iter()
    }

    /// The next pairs after a key, at most `max` of them, and whether more follow. Takes memory for copies of them.
    pub fn page(&self, alloc: Global, after: Option<&Bytes>, max: usize) -> Result<Page, AllocError>
        requires { 1 ≤ max }
        ensures { IfOk result (λ page. page ≡ page_of self.now (option_copied after.entry) max) }
    {
        first_page(alloc, rest_after(&self.pairs, after), max)
    }

    /// A copy. Takes memory for the pairs.
    pub fn try_clone(&self) -> Result<Pairs, AllocError>
        ensures { IfOk result (λ copy. copy ≡ self.now) }
    {
        Ok(Pairs {
            pairs: self.pairs.clone()?,
        })
    }

    // Gives each key of `set` its value there.
    pub(crate) fn overlay(&mut self, set: Pairs) -> Result<(), AllocError>
        ensures ok { OnOk result (self.new ≡ overlaid self.old set) }
        ensures err { OnErr result (self.new ≡ self.old) }
    {
        self.pairs.overlay(set.pairs)
    }

    // Takes the keys out.
    pub(crate) fn remove_all(&mut self, keys: &KeySet)
        ensures { self.new ≡ without_keys self.old keys.now }
    {
        self.pairs.remove_all(keys.as_map());
    }
}

impl Clone for Pairs {
    ghost is_clone = { λ old new. new ≡ old };

    fn clone(&self) -> Result<Pairs, AllocError> {
        self.try_clone()
    }
}

impl PartialEq for Pairs {
    ghost eq = { λ a b. pointwise (pairs_eq (pointwise ◌==◌) (pointwise ◌==◌)) (map.entries a) (map.entries b) };

    ghost laws = { on_per (λ p. map.entries p) (partial_equiv_from_equiv (lists_equiv (decided (pairs_eq (pointwise ◌==◌) (pointwise ◌==◌)) (pair_decides (pointwise ◌==◌) (pointwise ◌==◌) bytes_eq-Decides bytes_eq-Decides)))) };

    /// Whether both have the same pairs.
    fn eq(&self, other: &Pairs) -> bool
        ensures value { result
            ≡ pointwise (pairs_eq (pointwise ◌==◌) (pointwise ◌==◌)) (map.entries self.now) (map.entries other.now) }
        ensures same { IsTrue result ↔ (self.now ≡ other.now) }
    {
        // The contract of `len` is what says here that the keys of a map rise.
        let _ = self.pairs.len();
        let _ = other.pairs.len();
        self.pairs == other.pairs
    }
}

impl Eq for Pairs {
    ghost laws = { on_equiv (λ p. map.entries p) (lists_equiv (decided (pairs_eq (pointwise ◌==◌) (pointwise ◌==◌)) (pair_decides (pointwise ◌==◌) (pointwise ◌==◌) bytes_eq-Decides bytes_eq-Decides))) };
}

// The pairs after a key.
fn rest_after<'a>(
    pairs: &'a SortedMap<Bytes, Bytes>,
    after: Option<&Bytes>,
) -> Iter<'a, Bytes, Bytes>
    ensures { result ≡ pairs_after (contents key_cmp pairs.entry.now) (option_copied after.entry) }
{
    match after {
        Some(key) => pairs.iter_after(key),
        None => pairs.iter(),
    }
}
