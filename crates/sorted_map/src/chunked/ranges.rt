//! The pairs of a map in chunks, or those of its keys from one on.
ghost use Rattle.std.specs.Prelude.{◌≡◌, ◌+◌, ◌<◌, ◌≤◌, ◌^◌, [], T, drop, length, slice_index_or};
ghost use Rattle.std.specs.FinMap as map;
ghost use Rattle.std.specs.FinMap.{is_sorted};
ghost use Rattle.std.specs.FinMap.Entries.{where_key};
ghost use Rattle.sorted_map.specs.SortedMap.{contents, after, is_from};
ghost use Rattle.sorted_map.specs.Chunks.{flat, items_before, total, AllSome};

use crate::chunked::map::ChunkMap;
use crate::chunked::places::spot;
use crate::chunks::{Chunk, Iter};
use crate::keys::{ExactOrd, Probe};

impl<K: ExactOrd, V> ChunkMap<K, V> {
    /// The pairs in the order of their keys.
    pub fn iter(&self) -> Iter<'_, K, V>
        ensures { result ≡ map.entries (contents K.cmp self.now) }
    {
        Iter::of_chunks(&[], self.chunks.row())
    }

    /// The pairs whose keys are no less than the probe's.
    pub fn iter_from<Q: Probe<K>>(&self, q: &Q) -> Iter<'_, K, V>
        ensures { result ≡ where_key K.cmp (is_from K.cmp (Q.key q.now)) (map.entries (contents K.cmp self.now)) }
    {
        pairs_from(self.chunks.row(), q)
    }

    /// The pairs whose keys are greater than the probe's.
    pub fn iter_after<Q: Probe<K>>(&self, q: &Q) -> Iter<'_, K, V>
        ensures { result ≡ after K.cmp (Q.key q.now) (map.entries (contents K.cmp self.now)) }
    {
        pairs_after(self.chunks.row(), q)
    }
}

// The pairs of chunks in order whose keys are no less than the probe's.
fn pairs_from<'a, K: Ord, V, Q: Probe<K>>(row: &'a [Chunk<K, V>], q: &Q) -> Iter<'a, K, V>
    requires sorted { T (is_sorted K.cmp (flat row.now)) }
    requires some { AllSome row.now }
    requires fits { total length row.now < 2 ^ 64 }
    ensures { result ≡ where_key K.cmp (is_from K.cmp (Q.key q.now)) (flat row.now) }
{
    match spot(row, q) {
        (home, Ok(at)) => pairs_at(row, home, at),
        (home, Err(at)) => pairs_at(row, home, at),
    }
}

// The pairs of chunks in order whose keys are greater than the probe's.
fn pairs_after<'a, K: Ord, V, Q: Probe<K>>(row: &'a [Chunk<K, V>], q: &Q) -> Iter<'a, K, V>
    requires sorted { T (is_sorted K.cmp (flat row.now)) }
    requires some { AllSome row.now }
    requires fits { total length row.now < 2 ^ 64 }
    ensures { result ≡ after K.cmp (Q.key q.now) (flat row.now) }
{
    match spot(row, q) {
        (home, Ok(at)) => pairs_at(row, home, at + 1),
        (home, Err(at)) => pairs_at(row, home, at),
    }
}

// The pairs from a place of a chunk on.
fn pairs_at<'a, K, V>(row: &'a [Chunk<K, V>], home: usize, at: usize) -> Iter<'a, K, V>
    requires some { AllSome row.now }
    requires home { 0 < length row.now → home < length row.now }
    requires within { at ≤ length (slice_index_or row.now home []) }
    requires fits { total length row.now < 2 ^ 64 }
    ensures { result ≡ drop (items_before row.now home + at) (flat row.now) }
{
    if row.is_empty() {
        return Iter::of_pairs(&[]);
    }
    Iter::of_chunks(&row[home].pairs()[at..], &row[home + 1..])
}
