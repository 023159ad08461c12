//! A flush: all that isn't in the store is written.
ghost use Rattle.std.specs.Prelude.{◌≡◌, ◌+◌, ◌≤◌, length, OnOk, IfErr};
ghost use Rattle.std.specs.FinMap as map;
ghost use Rattle.std.specs.Result.{result_err};
ghost use Rattle.objstore.specs.Objects.{faults_told};
ghost use Rattle.mdcache.specs.Batches.{MayNotCommit};
ghost use Rattle.mdcache.specs.Core.{shown_in, state_of};
ghost use Rattle.mdcache.specs.Flushed.{AreExact, IsFlushed, KeepsTree};
ghost use Rattle.mdcache.specs.Mounted.{IsColdTree};
ghost use Rattle.dentry_cache.specs.CacheMap.{AreCaches};
ghost use Rattle.ranked_tree.specs.Exported.{StandSoundly};
ghost use Rattle.ranked_tree.specs.Held.{IsOwned};
ghost use Rattle.ranked_tree.specs.Ranked.{held_roots};

use crate::ranked_tree::RankedTree;
use mds_types::Refusal;
use objstore::Store;
use std::alloc::Global;
use std::thread::Threads;

impl<S: Store + Drop> RankedTree<S> {
    /// Writes all that isn't in the store, as `MdCache::flush` does and refuses. The roots stay, and so does whose each
    /// leaf is.
    pub fn flush(&mut self, rt: &(impl Threads + Sync), alloc: Global) -> Result<(), Refusal>
        requires few { length self.old.tree.caches.used ≤ 256 }
        ensures flushed { OnOk result (IsFlushed (state_of self.new.tree)) }
        ensures cold { OnOk result (IsColdTree self.new.tree.objects (shown_in self.old.tree)) }
        ensures exact { OnOk result (AreExact (state_of self.new.tree)) }
        ensures purged { OnOk result (self.new.tree.purge ≡ map.empty) }
        ensures jobs { self.new.tree.jobs ≡ map.empty }
        ensures number { self.new.tree.next_job ≡ self.old.tree.next_job }
        ensures tree { KeepsTree self.old.tree self.new.tree }
        ensures roots { self.new.subtrees ≡ self.old.subtrees }
        ensures exports { self.new.exports ≡ self.old.exports }
        ensures refused { IfErr result
            (MayNotCommit 256 (record (state_of self.old.tree) { jobs = map.empty }) self.old.tree.faults
            self.new.tree.faults) }
        ensures counted { self.new.tree.faults ≡ self.old.tree.faults + faults_told (result_err result) }
        ensures owned { IsOwned self.new.tree (held_roots self.new) }
        ensures stand { StandSoundly (state_of self.new.tree)
            (length self.new.tree.caches.used) self.new.subtrees self.new.exports }
        ensures orders { AreCaches self.new.tree.caches }
    {
        let done = self.tree.flush(rt, alloc);
        // The contract of `ranks` is what says it of the caches.
        let _ = self.tree.ranks();
        done
    }
}
