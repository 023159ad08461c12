//! Where a key stands among pairs in order.
ghost use Rattle.std.specs.Prelude.{◌≡◌, ◌≤◌, T, length, drop};
ghost use Rattle.std.specs.List.Sorted.{IsSearchInRange};
ghost use Rattle.std.specs.FinMap.{is_sorted};
ghost use Rattle.std.specs.FinMap.Entries.{where_key};
ghost use Rattle.sorted_map.specs.SortedMap.{after, is_from};
ghost use Rattle.sorted_map.specs.Places.{IsPlace};

use crate::keys::Probe;
use std::cmp::Ordering;

/// How many of the last pairs are tried one by one.
const TRIES: usize = 4;

// The place of the probe's key, or that where it would go.
pub(crate) fn place<K: Ord, V, Q: Probe<K>>(pairs: &[(K, V)], q: &Q) -> Result<usize, usize>
    requires { T (is_sorted K.cmp pairs.now) }
    ensures within { IsSearchInRange result (length pairs.now) }
    ensures place { IsPlace K.cmp (Q.key q.now) pairs.now result }
{
    pairs.binary_search_by(|pair| q.order(&pair.0).reverse())
}

// The same, but the last pairs are tried first, one after the other: keys often come in their order, or nearly so.
pub(crate) fn place_from_end<K: Ord, V, Q: Probe<K>>(
    pairs: &[(K, V)],
    q: &Q,
) -> Result<usize, usize>
    requires { T (is_sorted K.cmp pairs.now) }
    ensures within { IsSearchInRange result (length pairs.now) }
    ensures place { IsPlace K.cmp (Q.key q.now) pairs.now result }
{
    let mut high = pairs.len();
    let least = high.saturating_sub(TRIES);
    while least < high {
        match q.order(&pairs[high - 1].0) {
            Ordering::Greater => return Err(high),
            Ordering::Equal => return Ok(high - 1),
            Ordering::Less => high -= 1,
        }
    }
    place(&pairs[..high], q)
}

// The place from which on no key is less than the probe's.
pub(crate) fn place_from<K: Ord, V, Q: Probe<K>>(pairs: &[(K, V)], q: &Q) -> usize
    requires { T (is_sorted K.cmp pairs.now) }
    ensures within { result ≤ length pairs.now }
    ensures rest { where_key K.cmp (is_from K.cmp (Q.key q.now)) pairs.now ≡ drop result pairs.now }
{
    match place(pairs, q) {
        Ok(at) => at,
        Err(at) => at,
    }
}

// The place from which on each key is greater than the probe's.
pub(crate) fn place_after<K: Ord, V, Q: Probe<K>>(pairs: &[(K, V)], q: &Q) -> usize
    requires { T (is_sorted K.cmp pairs.now) }
    ensures within { result ≤ length pairs.now }
    ensures rest { after K.cmp (Q.key q.now) pairs.now ≡ drop result pairs.now }
{
    match place(pairs, q) {
        Ok(at) => at + 1,
        Err(at) => at,
    }
}
