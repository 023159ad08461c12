//! Places kept for fragments that will be made, filled, and given up.
ghost use Rattle.std.specs.Prelude.{◌≡◌, ◌⊎◌, true, Some, None, OnOk, OnErr, IfErr};
ghost use Rattle.std.specs.Map.{lookup};
ghost use Rattle.mds_types.specs.declared.refusals.Refusal.TheVariants.{NoMemory, NothingToEvict};
ghost use Rattle.dentry_cache.specs.Cache.{IsFull, MayMakeRoom, TakesPlace, cached, fragment_in, held, is_kept, kept_place, leaf_is, used_as, without};
ghost use Rattle.dentry_cache.specs.Candidates.{size_in};
ghost use Rattle.dentry_cache.specs.Fetches.{IsRefusedIn};

use crate::cache::{Cache, Place};
use cached_frag::CachedFrag;
use mds_types::{Frag, Ino, Refusal};
use std::alloc::Global;

impl Cache {
    /// Keeps a place for a fragment that will be made. Where no place is free the least recently used of the clean
    /// fragments goes, but for the one that is to stay. Takes memory for the place.
    ///
    /// Refused `NothingToEvict` where no fragment can go, and `NoMemory`. The leaf has no place then; a clean fragment
    /// may have gone.
    pub fn keep(
        &mut self,
        alloc: Global,
        dir: Ino,
        frag: Frag,
        stay: Option<(Ino, Frag)>,
    ) -> Result<(), Refusal>
        requires { lookup (leaf_is (dir, frag)) self.old.entries ≡ None }
        ensures kept { OnOk result (TakesPlace stay (dir, frag) kept_place self.old self.new) }
        ensures left { OnErr result (MayMakeRoom stay self.old self.new) }
        ensures refused { IfErr result (λ refusal. (refusal ≡ NoMemory)
            ⊎ ((refusal ≡ NothingToEvict) × IsFull stay self.old)) }
        ensures room { IfErr result (IsRefusedIn stay self.old self.new) }
    {
        if let Err(refusal) = self.make_room(stay) {
            return Err(refusal);
        }
        self.hold(
            dir,
            frag,
            Place {
                frag: CachedFrag::fresh(alloc, 0),
                kept: true,
            },
        )
    }

    /// Puts a fragment into the place that is kept for it, as the most recently used one. Takes no memory.
    ///
    /// So a fragment is made: with no names (`CachedFrag::fresh`) for a new directory, and with those of others for a
    /// split or a merge. And so one is installed that an import got with a fresh base; one with a stored base is
    /// fetched, and its dirty names are put and erased. What an export sends of a fragment, its base and its dirty
    /// names, is told by `get`: `CachedFrag::base` and `CachedFrag::dirty`.
    pub fn fill(&mut self, dir: Ino, frag: Frag, fragment: CachedFrag)
        requires { is_kept (lookup (leaf_is (dir, frag)) self.old.entries) ≡ true }
        ensures { self.new ≡ used_as (dir, frag) (held fragment) self.old }
    {
        let now = Some(fragment.len());
        if !self.places.touch(&(dir, frag)) {
            unreachable!()
        }
        let Some(place) = self.places.peek_mut(&(dir, frag)) else {
            unreachable!()
        };
        place.frag = fragment;
        place.kept = false;
        self.candidates
            .resize(&self.places, &(dir, frag), None, now);
    }

    /// Gives up a leaf's place, with the fragment that is in it. A leaf that has none changes nothing. Takes no memory.
    pub fn forget(&mut self, dir: Ino, frag: Frag)
        ensures without { self.new ≡ without (dir, frag) self.old }
    {
        drop(self.give_up(&(dir, frag)));
    }

    /// Takes a fragment out. A place that is kept is given up.
    #[inline(always)]
    pub fn take(&mut self, dir: Ino, frag: Frag) -> Option<CachedFrag>
        ensures taken { result ≡ cached self.old.entries (dir, frag) }
        ensures without { self.new ≡ without (dir, frag) self.old }
    {
        match self.give_up(&(dir, frag)) {
            Some(place) if !place.kept => Some(place.frag),
            _ => None,
        }
    }

    // Gives up a leaf's place, with what is in it.
    #[inline(always)]
    pub(crate) fn give_up(&mut self, leaf: &(Ino, Frag)) -> Option<Place>
        ensures place { result ≡ lookup (leaf_is leaf.now) self.old.entries }
        ensures without { self.new ≡ without leaf.now self.old }
    {
        // The contract of `len` is what says here that no leaf has two places.
        let _ = self.places.len();
        let place = self.places.pop(leaf);
        let was = size_of(&place);
        self.candidates.resize(&self.places, leaf, was, None);
        place
    }
}

// The number of entries of the fragment in a place, if there is one.
fn size_of(place: &Option<Place>) -> Option<usize>
    ensures { result ≡ size_in (fragment_in place.now) }
{
    match place {
        Some(place) => place.size(),
        None => None,
    }
}
