//! The calls that look for a key where it was found before.
ghost use Rattle.std.specs.Prelude.{◌≡◌, ◌-◌, ◌<◌, ◌≤◌, if◌then◌else◌, Some, None, T, IfSome, IfNone, OnOk, [], length, slice_index_or, is_some, option_copied, option_map};
ghost use Rattle.std.specs.FinMap as map;
ghost use Rattle.std.specs.FinMap.{is_sorted};
ghost use Rattle.std.specs.List.Sorted.{IsSearchInRange};
ghost use Rattle.sorted_map.specs.SortedMap.{contents};
ghost use Rattle.sorted_map.specs.Chunks.{AllSome, flat};
ghost use Rattle.sorted_map.specs.Homes.{place_in};
ghost use Rattle.sorted_map.specs.Places.{IsPlace};

use crate::chunked::map::ChunkMap;
use crate::chunked::places::spot_from_end;
use crate::chunks::{Chunk, put_new, put_value, take_out};
use crate::fingers::{Finger, Spot};
use crate::keys::{ExactOrd, Probe};
use std::cell::Cell;
use std::cmp::Ordering;

impl<K: ExactOrd, V> ChunkMap<K, V> {
    /// The value of the key; the finger is where it is then, or would go.
    pub fn get_noting<Q: Probe<K>>(&self, near: &Cell<Finger>, q: &Q) -> Option<&V>
        ensures { option_copied result ≡ map.get (contents K.cmp self.now) (Q.key q.now) }
    {
        let row = self.chunks.row();
        match spot_from_end(row, q) {
            (home, Ok(at)) => {
                note(near, home, at);
                Some(&row[home].pairs()[at].1)
            }
            (home, Err(at)) => {
                note(near, home, at);
                None
            }
        }
    }

    /// The same, but the places of the finger are tried first.
    pub fn get_near_noting<Q: Probe<K>>(&self, near: &Cell<Finger>, q: &Q) -> Option<&V>
        ensures { option_copied result ≡ map.get (contents K.cmp self.now) (Q.key q.now) }
    {
        let row = self.chunks.row();
        match spot_near(row, &near.get(), q) {
            (home, Ok(at)) => {
                note(near, home, at);
                Some(&row[home].pairs()[at].1)
            }
            (home, Err(at)) => {
                note(near, home, at);
                None
            }
        }
    }

    /// The value of the key.
    pub fn get_near<Q: Probe<K>>(&self, near: &Finger, q: &Q) -> Option<&V>
        ensures { option_copied result ≡ map.get (contents K.cmp self.now) (Q.key q.now) }
    {
        self.get_near_noting(&Cell::new(*near), q)
    }
}

impl<K: ExactOrd + Drop, V: Drop> ChunkMap<K, V> {
    /// Gives the key a value, and returns the one that it had. A new key needs room.
    pub fn insert_near(&mut self, near: &Finger, key: K, value: V) -> Option<V>
        requires { map.get (contents K.cmp self.old) key ≡ None → 0 < self.old.room }
        ensures value { result ≡ map.get (contents K.cmp self.old) key }
        ensures inserted { contents K.cmp self.new ≡ map.insert (contents K.cmp self.old) key value }
        ensures room { (if is_some result then self.old.room else self.old.room - 1) ≤ self.new.room }
    {
        match spot_near(self.chunks.row(), near, &key) {
            (home, Ok(at)) => Some(put_value(&mut self.chunks, home, at, value)),
            (home, Err(at)) => {
                put_new(&mut self.chunks, home, at, (key, value));
                None
            }
        }
    }

    /// Takes the key out, and returns it with its value.
    pub fn remove_near<Q: Probe<K>>(&mut self, near: &Finger, q: &Q) -> Option<(K, V)>
        ensures value { result ≡ option_map (λ v. (Q.key q.now, v)) (map.get (contents K.cmp self.old) (Q.key q.now)) }
        ensures removed { contents K.cmp self.new ≡ map.remove (contents K.cmp self.old) (Q.key q.now) }
        ensures absent { IfNone result (self.new ≡ self.old) }
        ensures room { self.old.room ≤ self.new.room }
    {
        match spot_near(self.chunks.row(), near, q) {
            (home, Ok(at)) => Some(take_out(&mut self.chunks, home, at)),
            (_, Err(_)) => None,
        }
    }
}

// A key was sought, and found at this place. Where it was the last one already, the one before stays too.
fn note(near: &Cell<Finger>, home: usize, at: usize) {
    let before = near.get().last;
    let last = Spot {
        home: u32::try_from(home).unwrap_or(u32::MAX),
        at: u32::try_from(at).unwrap_or(u32::MAX),
    };
    if last.home != before.home || last.at != before.at {
        near.set(Finger { last, before });
    }
}

// The chunk of the probe's key and its place there, or that where it would go, as `spot_from_end` finds them.
#[inline(always)]
pub(crate) fn spot_near<K: Ord, V, Q: Probe<K>>(
    chunks: &[Chunk<K, V>],
    near: &Finger,
    q: &Q,
) -> (usize, Result<usize, usize>)
    requires sorted { T (is_sorted K.cmp (flat chunks.now)) }
    requires some { AllSome chunks.now }
    ensures found { OnOk result.1 (result.0 < length chunks.now) }
    ensures home { 0 < length chunks.now → result.0 < length chunks.now }
    ensures within { IsSearchInRange result.1 (length (slice_index_or chunks.now result.0 [])) }
    ensures place { IsPlace K.cmp (Q.key q.now) (flat chunks.now) (place_in chunks.now result.0 result.1) }
{
    if let Some(place) = place_at(chunks, &near.last, q) {
        return (near.last.home as usize, place);
    }
    spot_beside(chunks, near, q)
}

// The same, where it isn't the one that was sought last.
#[inline(never)]
fn spot_beside<K: Ord, V, Q: Probe<K>>(
    chunks: &[Chunk<K, V>],
    near: &Finger,
    q: &Q,
) -> (usize, Result<usize, usize>)
    requires sorted { T (is_sorted K.cmp (flat chunks.now)) }
    requires some { AllSome chunks.now }
    ensures found { OnOk result.1 (result.0 < length chunks.now) }
    ensures home { 0 < length chunks.now → result.0 < length chunks.now }
    ensures within { IsSearchInRange result.1 (length (slice_index_or chunks.now result.0 [])) }
    ensures place { IsPlace K.cmp (Q.key q.now) (flat chunks.now) (place_in chunks.now result.0 result.1) }
{
    if let Some(place) = place_at(chunks, &near.before, q) {
        return (near.before.home as usize, place);
    }
    spot_from_end(chunks, q)
}

// The place of the probe's key in the chunk of a spot, if that is this one, or where it would go.
#[inline(always)]
fn place_at<K: Ord, V, Q: Probe<K>>(
    chunks: &[Chunk<K, V>],
    spot: &Spot,
    q: &Q,
) -> Option<Result<usize, usize>>
    requires sorted { T (is_sorted K.cmp (flat chunks.now)) }
    ensures home { IfSome result (λ place. spot.now.home < length chunks.now) }
    ensures within { IfSome result (λ place. IsSearchInRange place
        (length (slice_index_or chunks.now spot.now.home []))) }
    ensures place { IfSome result (λ place. IsPlace K.cmp (Q.key q.now)
        (flat chunks.now) (place_in chunks.now spot.now.home place)) }
{
    if spot.home as usize >= chunks.len() {
        return None;
    }
    place_near(chunks, spot.home as usize, spot.at as usize, q)
}

// The place of the probe's key in a chunk, if that is this one, or where it would go.
#[inline(always)]
fn place_near<K: Ord, V, Q: Probe<K>>(
    chunks: &[Chunk<K, V>],
    home: usize,
    at: usize,
    q: &Q,
) -> Option<Result<usize, usize>>
    requires sorted { T (is_sorted K.cmp (flat chunks.now)) }
    requires home { home < length chunks.now }
    ensures within { IfSome result (λ place. IsSearchInRange place (length (slice_index_or chunks.now home []))) }
    ensures place { IfSome result (λ place. IsPlace K.cmp (Q.key q.now)
        (flat chunks.now) (place_in chunks.now home place)) }
{
    let pairs = chunks[home].pairs();
    if at >= pairs.len() {
        return None;
    }
    match q.order(&pairs[at].0) {
        Ordering::Equal => Some(Ok(at)),
        Ordering::Less if at > 0 && q.order(&pairs[at - 1].0).is_gt() => Some(Err(at)),
        _ => None,
    }
}
