//! Leaves handed over from the cache of one rank to that of another.
ghost use Rattle.std.specs.Prelude.{◌≡◌, ◌≢◌, ◌<◌, length, IfErr, OnErr, OnOk};
ghost use Rattle.std.specs.List.{IsDistinct};
ghost use Rattle.mds_types.specs.Leaf.{leaf_is};
ghost use Rattle.dentry_cache.specs.Handing.{AreCleanAt, AreUncleanAt, HandsFragmentsOver, MayNotHandOver};
ghost use Rattle.mdcache.specs.Core.{IsSoundCore, shown_in, state_of};
ghost use Rattle.mdcache.specs.Given.{HaveNoJobs, IsGivenOver};

use crate::mdcache::MdCache;
use mds_types::{Frag, Ino, Rank, Refusal};
use objstore::Store;

impl<S: Store + Drop> MdCache<S> {
    /// What a rank caches of these leaves goes to another rank: each fragment that isn't clean is there as it was, but
    /// of generation 0, and the first of the list is the most recently used; what is clean is cached no more. The tree
    /// that is shown stays. No commit of a leaf that isn't clean stands. The store isn't called. Takes memory for the
    /// places.
    ///
    /// Refused `NothingToEvict` where fewer places of the other rank are free or can become so than there are fragments
    /// that aren't clean, and `NoMemory` where as many are. Nothing went then; clean fragments of the other rank may
    /// have gone for want of memory.
    pub fn hand_over(
        &mut self,
        from: Rank,
        to: Rank,
        unclean: &[(Ino, Frag)],
        clean: &[(Ino, Frag)],
    ) -> Result<(), Refusal>
        requires apart { from.0 ≢ to.0 }
        requires there { from.0 < length self.old.caches.used }
        requires other { to.0 < length self.old.caches.used }
        requires sound { IsSoundCore self.old }
        requires cached { AreUncleanAt self.old.caches from.0 unclean.now }
        requires saved { AreCleanAt self.old.caches from.0 clean.now }
        requires once { IsDistinct leaf_is unclean.now }
        requires jobless { HaveNoJobs self.old.jobs unclean.now }
        ensures handed { OnOk result (HandsFragmentsOver from.0 to.0 unclean.now clean.now self.old.caches self.new.caches) }
        ensures given { OnOk result (IsGivenOver unclean.now (state_of self.old) (state_of self.new)) }
        ensures shown { shown_in self.new ≡ shown_in self.old }
        ensures refused { IfErr result (MayNotHandOver to.0 unclean.now self.old.caches self.new.caches) }
        ensures left { OnErr result (state_of self.new ≡ state_of self.old) }
        ensures beside { self.new ≡ record self.old { caches = self.new.caches } }
        ensures count { length self.new.caches.used ≡ length self.old.caches.used }
        ensures cap { self.new.caches.cap ≡ self.old.caches.cap }
        ensures sound { IsSoundCore self.new }
    {
        self.caches.hand_over(self.alloc, from, to, unclean, clean)
    }
}
