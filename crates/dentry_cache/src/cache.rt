//! `Cache`, what a contract sees of it, and the calls that read it.
ghost use Rattle.std.specs.Prelude.{◌≡◌, ◌≤◌, [], length, is_some, IfOk, option_copied};
ghost use Rattle.std.specs.Map.{lookup};
ghost use Rattle.lru.specs.LruCache.{lru_cache};
ghost use Rattle.dentry_cache.specs.Cache.{IsTouched, cached, leaf_is};
ghost use Rattle.dentry_cache.specs.Places.{IsCache};

use crate::candidates::Candidates;
use crate::place_lru::PlaceLru;
use cached_frag::CachedFrag;
use mds_types::{Frag, Ino};
use sorted_map::Finger;
use std::alloc::{AllocError, Global};
use std::cell::Cell;
use std::marker::Model;
use std::num::NonZeroUsize;

/// A place of a cache.
#[derive(Debug, Drop)]
pub struct Place {
    /// The fragment; in a place that is kept, a fresh one with no names, which isn't there yet.
    pub frag: CachedFrag,
    /// Whether the place is kept for a fragment that will be made.
    pub kept: bool,
}

/// Cached fragments, in the order of their use.
#[derive(Drop)]
pub struct Cache {
    pub(crate) places: PlaceLru,
    // what its rank would split or merge by the sizes of these
    pub(crate) candidates: Candidates,
    // where the two names were that were sought last among the dirty ones of their fragments
    pub(crate) near: Cell<Finger>,
}

impl Model for Cache {
    ghost use Rattle.std.specs.Coded.{codes};
    ghost use Rattle.std.specs.FinMap as map;
    ghost use Rattle.dentry_cache.specs.Cache.{Held};
    ghost use Rattle.dentry_cache.specs.CandidateSets.{AreTold};

    ghost Value = { Held };

    ghost coded = { Prim.hlevel (codes, map.code) };

    ghost view = { λ c. c.places };

    ghost invariant = { λ c. AreTold c.places.entries c.candidates };
}

impl Cache {
    /// A cache with so many places, none of them taken. Takes little memory.
    pub fn new(alloc: Global, places: usize) -> Result<Cache, AllocError>
        requires few { 512 ≤ places }
        requires many { places ≤ 65536 }
        ensures { IfOk result (λ cache. cache ≡ lru_cache [] places) }
    {
        match NonZeroUsize::new(places) {
            Some(cap) => Ok(Cache {
                places: PlaceLru::new(alloc, cap)?,
                candidates: Candidates::new(alloc),
                near: Cell::new(Finger::none()),
            }),
            None => unreachable!(),
        }
    }

    /// How many places it has.
    pub fn capacity(&self) -> usize
        ensures { result ≡ self.now.cap }
    {
        self.places.cap().get()
    }

    /// How many places are taken. No leaf has two of them.
    pub fn len(&self) -> usize
        ensures taken { result ≡ length self.now.entries }
        ensures valid { IsCache self.now }
    {
        self.places.len()
    }

    /// Makes a leaf's place the most recently used, and tells whether it has one.
    pub fn touch(&mut self, dir: Ino, frag: Frag) -> bool
        ensures { IsTouched (lookup (leaf_is (dir, frag)) self.old.entries) (dir, frag) self.old self.new result }
    {
        self.places.touch(&(dir, frag))
    }

    /// Whether a leaf has a place, be there a fragment in it or not.
    pub fn has_place(&self, dir: Ino, frag: Frag) -> bool
        ensures { result ≡ is_some (lookup (leaf_is (dir, frag)) self.now.entries) }
    {
        self.find(dir, frag).is_some()
    }

    /// The cached fragment. The order of use stays.
    pub fn get(&self, dir: Ino, frag: Frag) -> Option<&CachedFrag>
        ensures { option_copied result ≡ cached self.now.entries (dir, frag) }
    {
        match self.find(dir, frag) {
            Some(place) if !place.kept => Some(&place.frag),
            _ => None,
        }
    }

    // The place of a leaf.
    fn find(&self, dir: Ino, frag: Frag) -> Option<&Place>
        ensures { option_copied result ≡ lookup (leaf_is (dir, frag)) self.now.entries }
    {
        self.places.peek(&(dir, frag))
    }
}
