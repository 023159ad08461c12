//! Names of leaves, gathered for a fragment that will be made of them.
ghost use Rattle.std.specs.Prelude.{◌≡◌, OnOk, OnErr};
ghost use Rattle.cached_frag.specs.Cached.{Cached, shown_names};
ghost use Rattle.cached_frag.specs.Moving.{TakesIn};
ghost use Rattle.dentry_cache.specs.Cache.{HasCached, IsThere, cached};

use crate::cache::Cache;
use cached_frag::CachedFrag;
use mds_types::{Frag, Ino};
use std::alloc::AllocError;

impl Cache {
    /// Puts a copy of each name that a fragment shows into another one, dirty there at this version. The order of use
    /// stays. Takes memory for the copies and their room, before it changes a name.
    pub fn copy_names(
        &self,
        dir: Ino,
        frag: Frag,
        joined: &mut CachedFrag,
        version: u64,
    ) -> Result<(), AllocError>
        requires { IsThere (cached self.now.entries (dir, frag)) }
        ensures copied { OnOk result
            (HasCached (cached self.now.entries (dir, frag))
            (λ (f : Cached). TakesIn joined.old joined.new (shown_names f) version)) }
        ensures kept { OnErr result (joined.new ≡ record joined.old { room = joined.new.room }) }
    {
        match self.get(dir, frag) {
            Some(fragment) => joined.join_copy(fragment, version),
            None => Ok(()),
        }
    }
}
