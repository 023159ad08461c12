//! A map in chunks: what a contract sees of it, and the calls that read it or make room.
ghost use Rattle.std.specs.Prelude.{◌≡◌, ◌-◌, ◌≤◌, ◌↔◌, T, IsTrue, IsOk, OnOk, OnErr, option_copied};
ghost use Rattle.std.specs.FinMap as map;
ghost use Rattle.std.specs.FinMap.{is_sorted};
ghost use Rattle.sorted_map.specs.SortedMap.{contents, first_pair, last_pair};
ghost use Rattle.sorted_map.specs.Chunks.{load, room_in};

use crate::chunked::places::spot;
use crate::chunks::{Chunks, HALF, IntoIter};
use crate::keys::{ExactOrd, Probe};
use std::alloc::{AllocError, Global};
use std::marker::Model;

/// An ordered map in chunks of pairs.
#[derive(Debug, Drop)]
pub(crate) struct ChunkMap<K: ExactOrd, V> {
    pub(crate) chunks: Chunks<K, V>,
}

impl<K: ExactOrd, V> Model for ChunkMap<K, V> {
    ghost use Rattle.std.specs.Prelude.{T};
    ghost use Rattle.std.specs.FinMap.{is_sorted};
    ghost use Rattle.sorted_map.specs.SortedMap.{Shown, shown_code};
    ghost use Rattle.sorted_map.specs.Chunks.{flat, room_in, AllSome};

    ghost Value = { Shown K V };

    ghost coded = { shown_code K.code V.code };

    ghost view = { λ m. record { entries = flat m.chunks.lists; room = room_in m.chunks } };

    ghost invariant = { λ m. T (is_sorted K.cmp (flat m.chunks.lists)) × AllSome m.chunks.lists };
}

impl<K: ExactOrd, V> ChunkMap<K, V> {
    /// An empty map, with no room.
    pub fn new(alloc: Global) -> Self
        ensures empty { contents K.cmp result ≡ map.empty }
        ensures room { result.room ≡ 0 }
    {
        ChunkMap {
            chunks: Chunks::new(alloc),
        }
    }

    /// The allocator.
    pub fn allocator(&self) -> Global {
        self.chunks.allocator()
    }

    /// How many pairs there are.
    pub fn len(&self) -> usize
        ensures len { result ≡ map.len (contents K.cmp self.now) }
        ensures valid { T (is_sorted K.cmp self.now.entries) }
    {
        self.chunks.len()
    }

    /// How many new keys surely fit before memory is needed.
    pub fn room(&self) -> usize
        ensures { result ≡ self.now.room }
    {
        room_of(&self.chunks)
    }

    /// The value of the key.
    pub fn get<Q: Probe<K>>(&self, q: &Q) -> Option<&V>
        ensures { option_copied result ≡ map.get (contents K.cmp self.now) (Q.key q.now) }
    {
        let row = self.chunks.row();
        match spot(row, q) {
            (home, Ok(at)) => Some(&row[home].pairs()[at].1),
            (_, Err(_)) => None,
        }
    }

    /// The pair of the least key.
    pub fn first(&self) -> Option<&(K, V)>
        ensures { option_copied result ≡ first_pair (contents K.cmp self.now) }
    {
        let row = self.chunks.row();
        if row.is_empty() {
            return None;
        }
        row[0].pairs().first()
    }

    /// The pair of the greatest key.
    pub fn last(&self) -> Option<&(K, V)>
        ensures { option_copied result ≡ last_pair (contents K.cmp self.now) }
    {
        let row = self.chunks.row();
        if row.is_empty() {
            return None;
        }
        row[row.len() - 1].pairs().last()
    }

    /// Makes room for so many more keys.
    pub fn reserve(&mut self, additional: usize) -> Result<(), AllocError>
        ensures ok { OnOk result (additional ≤ self.new.room) }
        ensures same { contents K.cmp self.new ≡ contents K.cmp self.old }
        ensures grows { self.old.room ≤ self.new.room }
        ensures ready { additional ≤ self.old.room → IsOk result × (self.new ≡ self.old) }
        ensures err { OnErr result (self.new ≡ self.old) }
    {
        if additional <= self.room() {
            return Ok(());
        }
        let before = self.chunks.spare();
        if let Err(error) = grow_to(&mut self.chunks, additional) {
            self.chunks.forget(before);
            return Err(error);
        }
        Ok(())
    }
}

impl<K: ExactOrd + Drop, V: Drop> ChunkMap<K, V> {
    /// The pairs in the order of their keys, given away.
    pub(crate) fn into_iter(self) -> IntoIter<K, V>
        ensures { result ≡ self.entries }
    {
        let none = Vec::new(self.chunks.allocator());
        IntoIter::new(none, self.chunks.into_row())
    }
}

// How many insertions surely fit.
fn room_of<K, V>(chunks: &Chunks<K, V>) -> usize
    ensures { result ≡ room_in chunks.now }
{
    let spare = chunks.spare();
    let load = load_of(chunks);
    let halves = (HALF * spare + HALF).saturating_sub(load);
    spare + halves.saturating_sub(spare)
}

// How many places of the halves are taken.
fn load_of<K, V>(chunks: &Chunks<K, V>) -> usize
    ensures { result ≡ load chunks.now.lists }
{
    let row = chunks.row();
    if row.is_empty() {
        return HALF;
    }
    chunks.extra() + within_half(row[row.len() - 1].len())
}

// How many pairs of a chunk of such a length its half has.
fn within_half(len: usize) -> usize
    ensures within { result ≡ len - (len - 32) }
    ensures few { result ≤ 32 }
{
    len - len.saturating_sub(HALF)
}

// Keeps empty chunks until so many insertions fit.
fn grow_to<K, V>(chunks: &mut Chunks<K, V>, additional: usize) -> Result<(), AllocError>
    ensures lists { chunks.new.lists ≡ chunks.old.lists }
    ensures grows { chunks.old.spare ≤ chunks.new.spare }
    ensures ok { OnOk result (additional ≤ room_in chunks.new) }
{
    while room_of(chunks) < additional {
        chunks.grow()?;
    }
    Ok(())
}
