//! A map in one vector: what a contract sees of it, and the calls that read it or make room.
ghost use Rattle.std.specs.Prelude.{◌≡◌, ◌≤◌, ◌↔◌, T, IsTrue, IsOk, OnOk, OnErr, is_some, option_copied};
ghost use Rattle.std.specs.FinMap as map;
ghost use Rattle.std.specs.FinMap.{is_sorted};
ghost use Rattle.sorted_map.specs.SortedMap.{contents, first_pair, last_pair};

use crate::chunks::IntoIter;
use crate::keys::{ExactOrd, Probe};
use crate::places::place;
use std::alloc::{AllocError, Global};
use std::marker::Model;

/// An ordered map in one vector.
#[derive(Debug, Drop)]
pub struct FlatMap<K: ExactOrd, V> {
    pub(crate) pairs: Vec<(K, V)>,
}

impl<K: ExactOrd, V> Model for FlatMap<K, V> {
    ghost use Rattle.std.specs.Prelude.{◌-◌, T, vec_len, vec_capacity};
    ghost use Rattle.std.specs.FinMap.{is_sorted};
    ghost use Rattle.sorted_map.specs.SortedMap.{Shown, shown_code};

    ghost Value = { Shown K V };

    ghost coded = { shown_code K.code V.code };

    ghost view = { λ m. record { entries = m.pairs.items; room = vec_capacity m.pairs - vec_len m.pairs } };

    ghost invariant = { λ m. T (is_sorted K.cmp m.pairs.items) };
}

impl<K: ExactOrd, V> FlatMap<K, V> {
    /// An empty map, with no room.
    pub fn new(alloc: Global) -> Self
        ensures empty { contents K.cmp result ≡ map.empty }
        ensures room { result.room ≡ 0 }
    {
        FlatMap {
            pairs: Vec::new(alloc),
        }
    }

    /// How many pairs there are.
    pub fn len(&self) -> usize
        ensures len { result ≡ map.len (contents K.cmp self.now) }
        ensures valid { T (is_sorted K.cmp self.now.entries) }
    {
        self.pairs.len()
    }

    /// How many new keys fit before memory is needed.
    pub fn room(&self) -> usize
        ensures { result ≡ self.now.room }
    {
        let pairs = &self.pairs;
        pairs.capacity() - pairs.len()
    }

    /// The value of the key. Takes logarithmic time.
    pub fn get<Q: Probe<K>>(&self, q: &Q) -> Option<&V>
        ensures { option_copied result ≡ map.get (contents K.cmp self.now) (Q.key q.now) }
    {
        match place(&self.pairs, q) {
            Ok(at) => Some(&self.pairs[at].1),
            Err(_) => None,
        }
    }

    /// The pair of the least key.
    pub fn first(&self) -> Option<&(K, V)>
        ensures { option_copied result ≡ first_pair (contents K.cmp self.now) }
    {
        self.pairs.first()
    }

    /// The pair of the greatest key.
    pub fn last(&self) -> Option<&(K, V)>
        ensures { option_copied result ≡ last_pair (contents K.cmp self.now) }
    {
        self.pairs.last()
    }

    /// The allocator.
    pub fn allocator(&self) -> Global {
        *self.pairs.allocator()
    }

    /// The pairs in the order of their keys, given away.
    pub(crate) fn into_iter(self) -> IntoIter<K, V>
        ensures { result ≡ self.entries }
    {
        let none = Vec::new(*self.pairs.allocator());
        IntoIter::new(self.pairs, none)
    }

    /// Makes room for `additional` more keys, so that as many insertions cannot fail.
    ///
    /// An error says that memory ran out. Where the room is there already nothing is done, and there is no error.
    pub fn reserve(&mut self, additional: usize) -> Result<(), AllocError>
        ensures ok { OnOk result (additional ≤ self.new.room) }
        ensures same { contents K.cmp self.new ≡ contents K.cmp self.old }
        ensures grows { self.old.room ≤ self.new.room }
        ensures ready { additional ≤ self.old.room → IsOk result × (self.new ≡ self.old) }
        ensures err { OnErr result (self.new ≡ self.old) }
    {
        if self.room() < additional {
            self.pairs.reserve(additional)?;
        }
        Ok(())
    }
}
