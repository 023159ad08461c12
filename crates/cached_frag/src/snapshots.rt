//! What a commit's job carries of its fragment.
ghost use Rattle.std.specs.Prelude.{◌≡◌, ◌<◌, ◌^◌, ◌-◌, ◌↔◌, IfOk, IsTrue};
ghost use Rattle.std.specs.FinMap as map;
ghost use Rattle.cached_frag.specs.Marks.{patched};
ghost use Rattle.cached_frag.specs.Snap.{IsSnap, counts_of};

use crate::bases::{Base, EntryCounts};
use crate::dirty_names::DirtyNames;
use std::alloc::AllocError;
use std::marker::Model;

/// A fragment that isn't clean, as it stood when its commit began: what its object is to it, its dirty names, and how
/// many entries it shows.
#[derive(Debug, Drop)]
pub struct Snapshot {
    base: Base,
    names: DirtyNames,
    counts: EntryCounts,
}

impl Model for Snapshot {
    ghost use Rattle.std.specs.Coded.{codes};
    ghost use Rattle.std.specs.FinMap as map;
    ghost use Rattle.cached_frag.specs.Snap.{Snap, IsSnap};

    ghost Value = { Snap };

    ghost coded = { Prim.hlevel (codes, map.code) };

    ghost view = { λ s. record { base = s.base; names = s.names; counts = s.counts } };

    ghost invariant = { λ s. IsSnap (record { base = s.base; names = s.names; counts = s.counts }) };
}

impl Snapshot {
    /// A fragment whose object, if there is one, doesn't count: it shows the dirty names alone. Takes no memory.
    pub fn fresh(names: DirtyNames) -> Snapshot
        ensures { result ≡ record { base = Base.Fresh; names = names; counts = counts_of (patched map.empty names) } }
    {
        let counts = names.counts();
        counts.have_64_bits();
        let _ = names.as_map();
        Snapshot {
            base: Base::Fresh,
            names,
            counts,
        }
    }

    /// A fragment whose object spells it at this commit version but for the dirty names, with so many entries in all.
    /// Takes no memory.
    pub fn stored(version: u64, names: DirtyNames, counts: EntryCounts) -> Snapshot
        requires { version < 2 ^ 64 - 1 }
        ensures { result ≡ record { base = Base.Stored version; names = names; counts = counts } }
    {
        counts.have_64_bits();
        let _ = names.as_map();
        Snapshot {
            base: Base::Stored(version),
            names,
            counts,
        }
    }

    /// What the object is to the fragment.
    pub fn base(&self) -> Base
        ensures base { result ≡ self.now.base }
        ensures valid { IsSnap self.now }
    {
        self.base
    }

    /// The dirty names.
    pub fn names(&self) -> &DirtyNames
        ensures { result.now ≡ self.now.names }
    {
        &self.names
    }

    /// How many entries the fragment shows.
    pub fn counts(&self) -> EntryCounts
        ensures { result ≡ self.now.counts }
    {
        self.counts
    }

    /// A copy. Takes memory for the names.
    pub fn try_clone(&self) -> Result<Snapshot, AllocError>
        ensures { IfOk result (λ copy. copy ≡ self.now) }
    {
        Ok(Snapshot {
            base: self.base,
            names: self.names.try_clone()?,
            counts: self.counts,
        })
    }

    /// Whether both have the same base, names and counts.
    pub fn same(&self, other: &Snapshot) -> bool
        ensures { IsTrue result ↔ (self.now ≡ other.now) }
    {
        self.base == other.base && self.names == other.names && self.counts == other.counts
    }
}
