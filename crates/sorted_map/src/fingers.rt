//! `Finger`: where a key was found, for the calls that look for it once more.
ghost use Rattle.std.specs.Prelude.{◌≡◌, ◌-◌, ◌<◌, ◌≤◌, if◌then◌else◌, None, IfNone, is_some, option_copied, option_map};
ghost use Rattle.std.specs.FinMap as map;
ghost use Rattle.sorted_map.specs.SortedMap.{contents};

use crate::keys::{ExactOrd, Probe};
use crate::map::{SortedMap, Store};
use std::cell::Cell;

/// Where the two keys of a large map are, or would go, that were sought last. It is a hint: a call that it is given tries
/// these places first, at a comparison or two each, and searches where the key isn't there. So no answer depends on it,
/// and it may be that of other keys, of a map that has changed since, or of another map.
#[derive(Clone, Copy, Debug)]
pub struct Finger {
    pub(crate) last: Spot,
    pub(crate) before: Spot,
}

/// A place of one of the chunks, in little room; of one beyond 32 bits it is none.
#[derive(Clone, Copy, Debug)]
pub(crate) struct Spot {
    pub(crate) home: u32,
    pub(crate) at: u32,
}

/// A place of no chunk.
pub(crate) const NOWHERE: Spot = Spot {
    home: u32::MAX,
    at: 0,
};

impl Finger {
    /// That of no key.
    pub fn none() -> Finger {
        Finger {
            last: NOWHERE,
            before: NOWHERE,
        }
    }
}

impl<K: ExactOrd, V> SortedMap<K, V> {
    /// The value of the key, as `get` finds it. In a large map the finger is where the key is then, or would go.
    pub fn get_noting<Q: Probe<K>>(&self, near: &Cell<Finger>, q: &Q) -> Option<&V>
        ensures { option_copied result ≡ map.get (contents K.cmp self.now) (Q.key q.now) }
    {
        match &self.store {
            Store::Flat(flat) => flat.get(q),
            Store::Chunked(chunked) => chunked.get_noting(near, q),
        }
    }

    /// The same, but the places of the finger are tried first: for keys that cost little to compare, or come again at once.
    pub fn get_near_noting<Q: Probe<K>>(&self, near: &Cell<Finger>, q: &Q) -> Option<&V>
        ensures { option_copied result ≡ map.get (contents K.cmp self.now) (Q.key q.now) }
    {
        match &self.store {
            Store::Flat(flat) => flat.get(q),
            Store::Chunked(chunked) => chunked.get_near_noting(near, q),
        }
    }

    /// The value of the key, as `get` finds it. The finger stays.
    pub fn get_near<Q: Probe<K>>(&self, near: &Finger, q: &Q) -> Option<&V>
        ensures { option_copied result ≡ map.get (contents K.cmp self.now) (Q.key q.now) }
    {
        match &self.store {
            Store::Flat(flat) => flat.get(q),
            Store::Chunked(chunked) => chunked.get_near(near, q),
        }
    }
}

impl<K: ExactOrd + Drop, V: Drop> SortedMap<K, V> {
    /// Gives the key a value, as `insert` does.
    pub fn insert_near(&mut self, near: &Finger, key: K, value: V) -> Option<V>
        requires { map.get (contents K.cmp self.old) key ≡ None → 0 < self.old.room }
        ensures value { result ≡ map.get (contents K.cmp self.old) key }
        ensures inserted { contents K.cmp self.new ≡ map.insert (contents K.cmp self.old) key value }
        ensures room { (if is_some result then self.old.room else self.old.room - 1) ≤ self.new.room }
    {
        match &mut self.store {
            Store::Flat(flat) => flat.insert(key, value),
            Store::Chunked(chunked) => chunked.insert_near(near, key, value),
        }
    }

    /// Takes the key out, and returns it with its value, as `remove` does.
    pub fn remove_near<Q: Probe<K>>(&mut self, near: &Finger, q: &Q) -> Option<(K, V)>
        ensures value { result ≡ option_map (λ v. (Q.key q.now, v)) (map.get (contents K.cmp self.old) (Q.key q.now)) }
        ensures removed { contents K.cmp self.new ≡ map.remove (contents K.cmp self.old) (Q.key q.now) }
        ensures absent { IfNone result (self.new ≡ self.old) }
        ensures room { self.old.room ≤ self.new.room }
    {
        match &mut self.store {
            Store::Flat(flat) => flat.remove(q),
            Store::Chunked(chunked) => chunked.remove_near(near, q),
        }
    }
}
