//! Chunks in a row, with empty ones beside them that are kept as room.
ghost use Rattle.std.specs.Prelude.{◌≡◌, ◌+◌, ◌-◌, ◌<◌, ◌≤◌, ◌^◌, ◌++◌, ◌∷◌, [], length, take, drop, OnOk, OnErr, slice_set, slice_index_or, insert, remove, vec_len, vec_capacity};
ghost use Rattle.std.specs.List.{AllZip};
ghost use Rattle.sorted_map.specs.Chunks.{AllFew, AllSome, flat, total, over};
ghost use Rattle.sorted_map.specs.Clones.{ClonePair};
ghost use Rattle.std.specs.Borrow.{sem};

use crate::chunks::chunk::{Chunk, HALF};
use crate::chunks::vectors::put_at;
use std::alloc::{AllocError, Global};
use std::marker::Model;

/// The most chunks of a row, beyond all memory.
const LIMIT: usize = 1 << 40;

/// Chunks in a row, and empty ones beside them, for which the row has places. `ready` of those count as room: what a
/// refused growth had taken doesn't, until the next one asks for it. Seen by the pairs of each chunk, and by how many
/// empty chunks count.
#[derive(Debug, Drop)]
pub struct Chunks<K, V> {
    row: Vec<Chunk<K, V>>,
    spare: Vec<Chunk<K, V>>,
    ready: usize,
    len: usize,
    extra: usize,
}

impl<K, V> Model for Chunks<K, V> {
    ghost use Rattle.std.specs.Prelude.{◌+◌, ◌≤◌, vec_len, vec_capacity};
    ghost use Rattle.std.specs.Coded.{coded×};
    ghost use Rattle.sorted_map.specs.Chunks.{Chunked, chunked_code, AreLengths};

    ghost Value = { Chunked (K × V) };

    ghost coded = { chunked_code (coded× K.code V.code) };

    ghost view = { λ c. record { lists = c.row.items; spare = c.ready } };

    ghost invariant = { λ c. AreLengths c.row.items c.len c.extra × (c.ready ≤ vec_len c.spare)
        × (vec_len c.row + vec_len c.spare ≤ vec_capacity c.row)
        × (vec_len c.row + vec_len c.spare ≤ vec_capacity c.spare)
        × (vec_len c.row + vec_len c.spare ≤ 1099511627776) };
}

impl<K, V> Chunks<K, V> {
    ghost use Rattle.sorted_map.specs.RowValues.{lends_in};

    /// No chunks, and no room. Takes no memory.
    pub fn new(alloc: Global) -> Self
        ensures lists { result.lists ≡ [] }
        ensures spare { result.spare ≡ 0 }
    {
        Chunks {
            row: Vec::new(alloc),
            spare: Vec::new(alloc),
            ready: 0,
            len: 0,
            extra: 0,
        }
    }

    /// The allocator that the chunks are kept by.
    pub fn allocator(&self) -> Global {
        *self.row.allocator()
    }

    /// The chunks in their order.
    pub fn row(&self) -> &[Chunk<K, V>]
        ensures row { result.now ≡ self.now.lists }
        ensures few { AllFew self.now.lists }
        ensures fits { total length self.now.lists < 2 ^ 64 }
    {
        &self.row
    }

    /// How many pairs there are in all chunks.
    pub fn len(&self) -> usize
        ensures len { result ≡ total length self.now.lists }
        ensures few { AllFew self.now.lists }
    {
        self.len
    }

    /// How many pairs the chunks have beyond their halves of 32, added up.
    pub fn extra(&self) -> usize
        ensures extra { result ≡ over self.now.lists }
        ensures few { result ≤ 70368744177664 }
    {
        self.extra
    }

    /// How many empty chunks are kept as room.
    pub fn spare(&self) -> usize
        ensures spare { result ≡ self.now.spare }
        ensures few { result ≤ 1099511627776 }
    {
        self.ready
    }

    /// Keeps one more empty chunk as room.
    ///
    /// An error says that memory ran out, or that there are 2^40 chunks already. It leaves the chunks and their room as
    /// they were.
    pub fn grow(&mut self) -> Result<(), AllocError>
        ensures lists { self.new.lists ≡ self.old.lists }
        ensures ok { OnOk result (self.new.spare ≡ self.old.spare + 1) }
        ensures err { OnErr result (self.new.spare ≡ self.old.spare) }
    {
        let (count, spare) = (self.row.len(), self.spare.len());
        if self.ready < spare {
            self.ready += 1;
            return Ok(());
        }
        takes_more(count + spare)?;
        self.row.reserve(spare + 1)?;
        self.spare.reserve(count + 1)?;
        let fresh = Chunk::new(*self.row.allocator())?;
        self.spare.push_reserved(fresh);
        self.ready += 1;
        Ok(())
    }

    /// Counts no more empty chunks as room than so many, which are no more than count now. Their memory is kept for a
    /// later growth.
    pub fn forget(&mut self, count: usize)
        requires { count ≤ self.old.spare }
        ensures lists { self.new.lists ≡ self.old.lists }
        ensures spare { self.new.spare ≡ count }
    {
        self.ready = count;
    }

    /// Puts a value at a place of a chunk, and returns the one that was there.
    pub(crate) fn replaced(&mut self, home: usize, at: usize, value: V) -> V
        requires home { home < length self.old.lists }
        requires within { at < length (slice_index_or self.old.lists home []) }
        ensures lists { (d : K × V) → self.new.lists
            ≡ slice_set self.old.lists home
            (slice_set (slice_index_or self.old.lists home []) at
            ((slice_index_or (slice_index_or self.old.lists home []) at d).0, value)) }
        ensures value { (d : K × V) → result ≡ (slice_index_or (slice_index_or self.old.lists home []) at d).1 }
        ensures spare { self.new.spare ≡ self.old.spare }
    {
        self.row[home].replaced(at, value)
    }

    /// The value at a place of a chunk, to write to.
    pub fn value_mut(&mut self, home: usize, at: usize) -> &mut V
        requires home { home < length self.old.lists }
        requires within { at < length (slice_index_or self.old.lists home []) }
        ensures* writes_back { sem 𝓛 (lends_in K.row V.row self.entry home at result) }
        ensures value { (d : K × V) → result.now ≡ (slice_index_or (slice_index_or self.old.lists home []) at d).1 }
    {
        self.row[home].value_mut(at)
    }

    /// Takes the pair at a place of a chunk out.
    pub(crate) fn take_at(&mut self, home: usize, at: usize) -> (K, V)
        requires home { home < length self.old.lists }
        requires within { at < length (slice_index_or self.old.lists home []) }
        ensures lists { self.new.lists
            ≡ slice_set self.old.lists home (remove (slice_index_or self.old.lists home []) at) }
        ensures value { (d : K × V) → result ≡ slice_index_or (slice_index_or self.old.lists home []) at d }
        ensures spare { self.new.spare ≡ self.old.spare }
    {
        let len = self.row[home].len();
        self.len -= 1;
        self.extra = self.extra + beyond_half(len - 1) - beyond_half(len);
        self.row[home].take_at(at)
    }
}

impl<K: Drop, V: Drop> Chunks<K, V> {
    /// The chunks in their order, given away.
    pub(crate) fn into_row(self) -> Vec<Chunk<K, V>>
        ensures { result.items ≡ self.lists }
    {
        self.row
    }

    /// Gives back the memory of all empty chunks.
    pub(crate) fn give_back(&mut self)
        ensures lists { self.new.lists ≡ self.old.lists }
        ensures spare { self.new.spare ≡ 0 }
    {
        self.spare.clear();
        self.ready = 0;
    }

    /// Puts a pair in at a place of a chunk that isn't full.
    #[inline(always)]
    pub(crate) fn put_at(&mut self, home: usize, at: usize, pair: (K, V))
        requires home { home < length self.old.lists }
        requires within { at ≤ length (slice_index_or self.old.lists home []) }
        requires room { length (slice_index_or self.old.lists home []) < 64 }
        ensures lists { self.new.lists
            ≡ slice_set self.old.lists home (insert (slice_index_or self.old.lists home []) at pair) }
        ensures spare { self.new.spare ≡ self.old.spare }
    {
        let len = self.row[home].len();
        self.len += 1;
        self.extra = self.extra + beyond_half(len + 1) - beyond_half(len);
        self.row[home].put_at(at, pair);
    }

    /// Puts a spare chunk behind the others.
    pub(crate) fn open(&mut self)
        requires { 0 < self.old.spare }
        ensures lists { self.new.lists ≡ self.old.lists ++ [] ∷ [] }
        ensures spare { self.new.spare + 1 ≡ self.old.spare }
    {
        let fresh = taken(&mut self.spare);
        self.ready -= 1;
        self.row.push_reserved(fresh);
    }

    /// Moves the later half of a full chunk to a spare one, which comes behind it.
    pub(crate) fn split(&mut self, home: usize)
        requires home { home < length self.old.lists }
        requires full { length (slice_index_or self.old.lists home []) ≡ 64 }
        requires spare { 0 < self.old.spare }
        ensures lists { self.new.lists
            ≡ insert (slice_set self.old.lists home (take 32 (slice_index_or self.old.lists home []))) (home + 1)
            (drop 32 (slice_index_or self.old.lists home [])) }
        ensures few { length self.old.lists ≤ 1099511627776 }
        ensures spare { self.new.spare + 1 ≡ self.old.spare }
    {
        let mut fresh = taken(&mut self.spare);
        self.ready -= 1;
        self.row[home].move_half(&mut fresh);
        put_at(&mut self.row, home + 1, fresh);
        self.extra -= HALF;
    }

    /// Takes an empty chunk out of the row, and keeps it as room.
    pub(crate) fn set_aside(&mut self, home: usize)
        requires home { home < length self.old.lists }
        requires empty { slice_index_or self.old.lists home [] ≡ [] }
        ensures lists { self.new.lists ≡ remove self.old.lists home }
        ensures spare { self.new.spare ≡ self.old.spare + 1 }
    {
        let chunk = self.row.remove(home);
        self.spare.push_reserved(chunk);
        self.ready += 1;
    }

    /// Moves the pairs of a chunk to the end of the one before it.
    #[inline(never)]
    pub(crate) fn move_down(&mut self, home: usize)
        requires home { home + 1 < length self.old.lists }
        requires room { length (slice_index_or self.old.lists home [])
            + length (slice_index_or self.old.lists (home + 1) []) ≤ 64 }
        ensures lists { self.new.lists
            ≡ slice_set (remove self.old.lists (home + 1)) home
            (slice_index_or self.old.lists home [] ++ slice_index_or self.old.lists (home + 1) []) }
        ensures spare { self.new.spare ≡ self.old.spare + 1 }
    {
        let mut next = self.row.remove(home + 1);
        let (len, more) = (self.row[home].len(), next.len());
        self.extra = self.extra + beyond_half(len + more) - beyond_half(len) - beyond_half(more);
        self.row[home].take_all(&mut next);
        self.spare.push_reserved(next);
        self.ready += 1;
    }
}

impl<K: Clone, V: Clone> Clone for Chunks<K, V> {
    ghost is_clone = { λ old new. AllZip (ClonePair K.is_clone V.is_clone) (flat old.lists) (flat new.lists) × (AllSome old.lists → AllSome new.lists) };

    /// Clones of the pairs, in as many chunks, and no room.
    fn clone(&self) -> Result<Self, AllocError> {
        let row = self.row.clone()?;
        let spare = Vec::with_capacity(*self.row.allocator(), row.len())?;
        Ok(Chunks {
            row,
            spare,
            ready: 0,
            len: self.len,
            extra: self.extra,
        })
    }
}

// Whether there may be one more beside so many chunks. An error says that they are 2^40.
fn takes_more(chunks: usize) -> Result<(), AllocError>
    ensures ok { OnOk result (chunks < 1099511627776) }
    ensures err { OnErr result (1099511627776 ≤ chunks) }
{
    if chunks < LIMIT {
        Ok(())
    } else {
        Err(AllocError)
    }
}

// How many pairs a chunk of such a length has beyond its half.
fn beyond_half(len: usize) -> usize
    ensures { result ≡ len - 32 }
{
    len.saturating_sub(HALF)
}

// Takes the last spare chunk, empty.
fn taken<K: Drop, V: Drop>(spare: &mut Vec<Chunk<K, V>>) -> Chunk<K, V>
    requires { 0 < vec_len spare.old }
    ensures empty { result ≡ [] }
    ensures len { vec_len spare.new + 1 ≡ vec_len spare.old }
    ensures capacity { vec_capacity spare.new ≡ vec_capacity spare.old }
{
    match spare.pop() {
        Some(mut chunk) => {
            chunk.clear();
            chunk
        }
        None => unreachable!(),
    }
}
