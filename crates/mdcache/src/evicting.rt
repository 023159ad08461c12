//! Places of a rank's cache, made free.
ghost use Rattle.std.specs.Prelude.{◌≡◌, ◌<◌, Some, None, length, OnOk, OnErr, IfErr};
ghost use Rattle.mds_types.specs.declared.refusals.Refusal.TheVariants.{NothingToEvict};
ghost use Rattle.dentry_cache.specs.CacheMap.{evicted};
ghost use Rattle.mdcache.specs.Core.{IsSoundCore, state_of};

use crate::mdcache::MdCache;
use mds_types::{Rank, Refusal};
use objstore::Store;

impl<S: Store + Drop> MdCache<S> {
    /// Drops the least recently used of the clean fragments of a rank. The caches of the other ranks stay as they are.
    /// Takes no memory.
    ///
    /// Refused `NothingToEvict` exactly where no fragment of the rank is clean.
    pub fn evict(&mut self, rank: Rank) -> Result<(), Refusal>
        requires there { rank.0 < length self.old.caches.used }
        requires sound { IsSoundCore self.old }
        ensures evicted { OnOk result (evicted self.old.caches rank.0 None ≡ Some self.new.caches) }
        ensures beside { self.new ≡ record self.old { caches = self.new.caches } }
        ensures state { state_of self.new ≡ state_of self.old }
        ensures refused { IfErr result (λ reason. reason ≡ NothingToEvict) }
        ensures none { OnErr result (evicted self.old.caches rank.0 None ≡ None) }
        ensures left { OnErr result (self.new ≡ self.old) }
        ensures sound { IsSoundCore self.new }
    {
        self.caches.evict(rank)
    }
}
