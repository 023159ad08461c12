//! A chunk: some pairs, in memory for 64 of them.
ghost use Rattle.std.specs.Prelude.{◌≡◌, ◌+◌, ◌<◌, ◌≤◌, ◌++◌, [], length, take, drop, IfOk, slice_set, slice_index_or, insert, remove};
ghost use Rattle.std.specs.Borrow.{sem};
ghost use Rattle.std.specs.List.{AllZip};
ghost use Rattle.sorted_map.specs.Clones.{ClonePair};

use crate::chunks::vectors::{move_back, put_at, replaced};
use std::alloc::{AllocError, Global};
use std::marker::Model;

/// The most pairs of a chunk.
pub const MOST: usize = 64;

/// Half of `MOST`: how many pairs are left in a full chunk where it is split.
pub const HALF: usize = 32;

/// How many pairs the last chunk of a row gets before another one is opened behind it. The places that are left take
/// those which come between later: with none left each of them would part a chunk, and move all the chunks behind it.
pub(crate) const FILLED: usize = 58;

/// The most pairs that two neighbours have together where they are joined. The places that are left take those which come
/// next: a chunk that is joined full would be parted by the first of them. And a chunk that empties beside one that was
/// filled in order isn't joined with it, whose pairs would all move.
pub(crate) const JOINED: usize = 56;

/// Some pairs, at most 64, in the order in which they stand. Seen by the pairs alone.
#[derive(Debug, Drop)]
pub struct Chunk<K, V> {
    pairs: Vec<(K, V)>,
}

impl<K, V> Model for Chunk<K, V> {
    ghost use Rattle.std.specs.Prelude.{◌≤◌, List, length, vec_len, vec_capacity};

    ghost Value = { List (K × V) };

    ghost view = { λ c. c.pairs.items };

    ghost invariant = { λ c. (vec_len c.pairs ≤ 64) × (64 ≤ vec_capacity c.pairs) };
}

impl<K, V> Chunk<K, V> {
    ghost use Rattle.sorted_map.specs.ChunkValues.{lends_at};

    /// An empty chunk.
    pub(crate) fn new(alloc: Global) -> Result<Self, AllocError>
        ensures { IfOk result (λ c. c ≡ []) }
    {
        let pairs = Vec::with_capacity(alloc, MOST)?;
        Ok(Chunk { pairs })
    }

    /// The pairs.
    pub fn pairs(&self) -> &[(K, V)]
        ensures pairs { result.now ≡ self.now }
        ensures few { length self.now ≤ 64 }
    {
        &self.pairs
    }

    /// The pairs, given away.
    pub(crate) fn into_pairs(self) -> Vec<(K, V)>
        ensures { result.items ≡ self }
    {
        self.pairs
    }

    /// How many pairs there are.
    pub(crate) fn len(&self) -> usize
        ensures len { result ≡ length self.now }
        ensures few { result ≤ 64 }
    {
        self.pairs.len()
    }

    /// Puts a value at a place, and returns the one that was there.
    pub(crate) fn replaced(&mut self, at: usize, value: V) -> V
        requires { at < length self.old }
        ensures items { (d : K × V) → self.new ≡ slice_set self.old at ((slice_index_or self.old at d).0, value) }
        ensures value { (d : K × V) → result ≡ (slice_index_or self.old at d).1 }
    {
        replaced(&mut self.pairs, at, value)
    }

    /// The value at a place, to write to.
    pub(crate) fn value_mut(&mut self, at: usize) -> &mut V
        requires { at < length self.old }
        ensures* writes_back { sem 𝓛 (lends_at K.row V.row self.entry at result) }
        ensures value { (d : K × V) → result.now ≡ (slice_index_or self.old at d).1 }
    {
        &mut self.pairs[at].1
    }

    /// Takes the pair at a place out. Those behind it move.
    pub(crate) fn take_at(&mut self, at: usize) -> (K, V)
        requires { at < length self.old }
        ensures items { self.new ≡ remove self.old at }
        ensures value { (d : K × V) → result ≡ slice_index_or self.old at d }
    {
        self.pairs.remove(at)
    }
}

impl<K: Drop, V: Drop> Chunk<K, V> {
    /// Puts a pair in at a place. Those from there on move.
    #[inline(always)]
    pub(crate) fn put_at(&mut self, at: usize, pair: (K, V))
        requires within { at ≤ length self.old }
        requires room { length self.old < 64 }
        ensures { self.new ≡ insert self.old at pair }
    {
        put_at(&mut self.pairs, at, pair);
    }

    /// Forgets all pairs.
    pub(crate) fn clear(&mut self)
        ensures { self.new ≡ [] }
    {
        self.pairs.clear();
    }

    /// Moves the later half of the pairs of a full chunk to an empty one.
    pub(crate) fn move_half(&mut self, other: &mut Chunk<K, V>)
        requires full { length self.old ≡ 64 }
        requires empty { other.old ≡ [] }
        ensures kept { self.new ≡ take 32 self.old }
        ensures moved { other.new ≡ drop 32 self.old }
    {
        move_back(&mut self.pairs, &mut other.pairs, HALF);
        other.pairs.reverse();
    }

    /// Moves all the pairs of another chunk to the end of this one.
    pub(crate) fn take_all(&mut self, other: &mut Chunk<K, V>)
        requires { length self.old + length other.old ≤ 64 }
        ensures whole { self.new ≡ self.old ++ other.old }
        ensures empty { other.new ≡ [] }
    {
        let _ = self.pairs.append(&mut other.pairs);
    }
}

impl<K: Clone, V: Clone> Clone for Chunk<K, V> {
    ghost is_clone = { AllZip (ClonePair K.is_clone V.is_clone) };

    /// A chunk of clones of the pairs.
    fn clone(&self) -> Result<Self, AllocError> {
        let mut pairs = Vec::with_capacity(*self.pairs.allocator(), MOST)?;
        pairs.extend_with_clones(&self.pairs)?;
        Ok(Chunk { pairs })
    }
}
