//! Where a key stands among pairs in chunks.
ghost use Rattle.std.specs.Prelude.{◌≡◌, ◌<◌, ◌≤◌, ◌+◌, [], T, Err, IfSome, OnOk, length, slice_index_or};
ghost use Rattle.std.specs.List.Sorted.{IsSearchInRange};
ghost use Rattle.std.specs.FinMap.{is_sorted};
ghost use Rattle.sorted_map.specs.Places.{IsPlace};
ghost use Rattle.sorted_map.specs.Chunks.{flat, items_before, AllSome};
ghost use Rattle.sorted_map.specs.Homes.{place_in, starts_above, IsHome};

use crate::chunks::Chunk;
use crate::keys::Probe;
use crate::places::{place, place_from_end};

/// The chunk of the probe's key, and its place there, or that where it would go.
pub(crate) fn spot<K: Ord, V, Q: Probe<K>>(
    chunks: &[Chunk<K, V>],
    q: &Q,
) -> (usize, Result<usize, usize>)
    requires sorted { T (is_sorted K.cmp (flat chunks.now)) }
    requires some { AllSome chunks.now }
    ensures found { OnOk result.1 (result.0 < length chunks.now) }
    ensures home { 0 < length chunks.now → result.0 < length chunks.now }
    ensures within { IsSearchInRange result.1 (length (slice_index_or chunks.now result.0 [])) }
    ensures place { IsPlace K.cmp (Q.key q.now) (flat chunks.now) (place_in chunks.now result.0 result.1) }
{
    if chunks.is_empty() {
        return (0, Err(0));
    }
    let home = home(chunks, q);
    (home, place(chunks[home].pairs(), q))
}

/// The same, but the end is tried first: keys often come in their order, or nearly so.
pub(crate) fn spot_from_end<K: Ord, V, Q: Probe<K>>(
    chunks: &[Chunk<K, V>],
    q: &Q,
) -> (usize, Result<usize, usize>)
    requires sorted { T (is_sorted K.cmp (flat chunks.now)) }
    requires some { AllSome chunks.now }
    ensures found { OnOk result.1 (result.0 < length chunks.now) }
    ensures home { 0 < length chunks.now → result.0 < length chunks.now }
    ensures within { IsSearchInRange result.1 (length (slice_index_or chunks.now result.0 [])) }
    ensures place { IsPlace K.cmp (Q.key q.now) (flat chunks.now) (place_in chunks.now result.0 result.1) }
{
    if chunks.is_empty() {
        return (0, Err(0));
    }
    let last = chunks.len() - 1;
    if starts_above(&chunks[last], q) {
        return spot(chunks, q);
    }
    (last, place_from_end(chunks[last].pairs(), q))
}

/// The last chunk and its end, where the probe's key is above all others: one comparison tells.
pub(crate) fn spot_behind<K: Ord, V, Q: Probe<K>>(
    chunks: &[Chunk<K, V>],
    q: &Q,
) -> Option<(usize, usize)>
    requires sorted { T (is_sorted K.cmp (flat chunks.now)) }
    requires some { AllSome chunks.now }
    ensures home { IfSome result (λ s. s.0 < length chunks.now) }
    ensures within { IfSome result (λ s. s.1 ≤ length (slice_index_or chunks.now s.0 [])) }
    ensures place { IfSome result (λ s. IsPlace K.cmp (Q.key q.now) (flat chunks.now) (Err (items_before chunks.now s.0 + s.1))) }
{
    if chunks.is_empty() {
        return None;
    }
    let home = chunks.len() - 1;
    let pairs = chunks[home].pairs();
    let at = pairs.len();
    if at > 0 && q.order(&pairs[at - 1].0).is_gt() {
        Some((home, at))
    } else {
        None
    }
}

// The chunk where the probe's key stands or would go.
fn home<K: Ord, V, Q: Probe<K>>(chunks: &[Chunk<K, V>], q: &Q) -> usize
    requires sorted { T (is_sorted K.cmp (flat chunks.now)) }
    requires some { AllSome chunks.now }
    requires any { 0 < length chunks.now }
    ensures within { result < length chunks.now }
    ensures home { IsHome K.cmp (Q.key q.now) chunks.now result }
{
    let mut low = 0;
    let mut high = chunks.len();
    while 1 < high - low {
        let middle = low + (high - low) / 2;
        if starts_above(&chunks[middle], q) {
            high = middle;
        } else {
            low = middle;
        }
    }
    low
}

// Whether the first key of a chunk is greater than the probe's.
fn starts_above<K: Ord, V, Q: Probe<K>>(chunk: &Chunk<K, V>, q: &Q) -> bool
    requires { 0 < length chunk.now }
    ensures { result ≡ starts_above K.cmp (Q.key q.now) chunk.now }
{
    q.order(&chunk.pairs()[0].0).is_lt()
}
