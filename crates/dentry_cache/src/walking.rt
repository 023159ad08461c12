//! The places of a rank one by one.
ghost use Rattle.std.specs.Prelude.{◌≡◌, ◌<◌, ◌≤◌, ◌∷◌, [], length, map, MatchOption, Some, option_copied};
ghost use Rattle.dentry_cache.specs.Cache.{fragment_in};
ghost use Rattle.dentry_cache.specs.CacheMap.{AreCaches, order};
ghost use Rattle.dentry_cache.specs.PlacesByUse.{in_place, places_at};

use crate::cache::{Cache, Place};
use crate::caches::Caches;
use crate::place_iters::PlaceIter;
use cached_frag::CachedFrag;
use mds_types::{Frag, Ino, Rank};
use std::marker::Model;

/// The places of a rank that a walk over them has not come to, the most recently used first.
#[derive(Drop)]
pub struct PlacesByUse<'a> {
    rest: PlaceIter<'a>,
}

impl<'a> Model for PlacesByUse<'a> {
    ghost use Rattle.std.specs.Coded.{codes};
    ghost use Rattle.std.specs.FinMap as finmap;
    ghost use Rattle.std.specs.Prelude.{List, map};
    ghost use Rattle.dentry_cache.specs.PlacesByUse.{PlaceOf, in_place};

    ghost Value = { List PlaceOf };

    ghost coded = { Prim.hlevel (codes, finmap.code) };

    ghost view = { λ p. map in_place p.rest };
}

impl<'a> PlacesByUse<'a> {
    /// Takes the next place: its leaf, and the fragment that is in it. None is in one that is kept for a fragment that
    /// will be made.
    pub fn next_place(&mut self) -> Option<(&'a (Ino, Frag), Option<&'a CachedFrag>)>
        ensures { MatchOption result (self.old ≡ [])
            (λ place. self.old ≡ (place.0.now, option_copied place.1) ∷ self.new) }
    {
        let (leaf, place) = self.rest.next()?;
        Some((leaf, place.fragment()))
    }
}

impl Place {
    // The fragment in it.
    fn fragment(&self) -> Option<&CachedFrag>
        ensures { option_copied result ≡ fragment_in (Some self.now) }
    {
        if self.kept {
            return None;
        }
        Some(&self.frag)
    }
}

impl Cache {
    // Its places, the most recently used first.
    fn places_by_use(&self) -> PlacesByUse<'_>
        ensures { result ≡ map in_place self.now.entries }
    {
        PlacesByUse {
            rest: self.places.iter(),
        }
    }
}

impl Caches {
    /// The places of a rank, the most recently used first. Takes no memory.
    pub fn places_of(&self, rank: Rank) -> PlacesByUse<'_>
        requires { rank.0 < length self.now.used }
        ensures places { result ≡ places_at self.now rank.0 }
        ensures few { length (order self.now rank.0) ≤ 65536 }
        ensures valid { AreCaches self.now }
    {
        self.caches[rank.0 as usize].places_by_use()
    }
}
