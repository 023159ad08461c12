//! The children of a cached fragment, made ready for a split with room for its names.
ghost use Rattle.std.specs.Prelude.{◌≡◌, ◌+◌, ◌≤◌, ◌^◌, IfOk, OnOk};
ghost use Rattle.std.specs.FinMap as map;
ghost use Rattle.cached_frag.specs.Cached.{Cached, shown_names};
ghost use Rattle.dentry_cache.specs.Cache.{HasCached, IsWritten, IsThere, cached};
ghost use Rattle.dentry_cache.specs.Divided.{AreNumbered, AreReady};

use crate::cache::Cache;
use crate::parts::{Parts, parts_of};
use mds_types::{Frag, Ino};
use std::alloc::{AllocError, Global};

impl Cache {
    // Makes room for a fragment's names in its children.
    pub(crate) fn ready_parts(
        &mut self,
        alloc: Global,
        dir: Ino,
        frag: Frag,
        nb: u8,
        generation: u64,
    ) -> Result<Parts, AllocError>
        requires few { nb ≤ 8 }
        requires bits { frag.bits + nb ≤ 24 }
        requires numbers { generation + 2 ^ nb ≤ 2 ^ 64 }
        requires there { IsThere (cached self.old.entries (dir, frag)) }
        ensures same { IsWritten (cached self.old.entries (dir, frag))
            (λ (f now : Cached). now ≡ record f { places = now.places }) (dir, frag) self.old self.new }
        ensures ready { IfOk result
            (λ parts. HasCached (cached self.new.entries (dir, frag))
            (λ (f : Cached). (map.len f.dirty ≤ f.places) × AreReady frag nb (shown_names f) parts)) }
        ensures numbered { IfOk result (λ parts. AreNumbered generation parts) }
    {
        self.ready_names(dir, frag)?;
        match self.get(dir, frag) {
            Some(fragment) => parts_of(alloc, fragment, frag, nb, generation),
            None => unreachable!(),
        }
    }

    // Makes a fragment ready to give its names away (`CachedFrag::into_names`). Takes memory for its dirty names.
    fn ready_names(&mut self, dir: Ino, frag: Frag) -> Result<(), AllocError>
        requires { IsThere (cached self.old.entries (dir, frag)) }
        ensures same { IsWritten (cached self.old.entries (dir, frag))
            (λ (f now : Cached). now ≡ record f { places = now.places }) (dir, frag) self.old self.new }
        ensures ready { OnOk result
            (HasCached (cached self.new.entries (dir, frag)) (λ (f : Cached). map.len f.dirty ≤ f.places)) }
    {
        let dirty = self.dirty_names(dir, frag);
        self.reserve_settled(dir, frag, dirty)
    }

    // How many names of a fragment are dirty.
    fn dirty_names(&self, dir: Ino, frag: Frag) -> usize
        requires { IsThere (cached self.now.entries (dir, frag)) }
        ensures { HasCached (cached self.now.entries (dir, frag)) (λ (f : Cached). result ≡ map.len f.dirty) }
    {
        match self.get(dir, frag) {
            Some(fragment) => fragment.dirty_count(),
            None => 0,
        }
    }
}

/// How many children of so many more bits a fragment has.
pub(crate) fn child_count(nb: u8) -> u32
    requires { nb ≤ 8 }
    ensures { result ≡ 2 ^ nb }
{
    1 << nb
}
