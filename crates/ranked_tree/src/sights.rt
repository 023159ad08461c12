//! What is read of the tree: by ranks to see what they would do next, by administrators to see why a step was refused.
//! No call takes memory.
ghost use Rattle.std.specs.Prelude.{◌≡◌};

use crate::ranked_tree::RankedTree;
use dentry_cache::Caches;
use mdcache::{PurgeList, StandingJobs};
use objstore::Store;

impl<S: Store + Drop> RankedTree<S> {
    /// The ranks' caches, to read.
    pub fn caches(&self) -> &Caches
        ensures { result.now ≡ self.now.tree.caches }
    {
        self.tree.caches()
    }

    /// The commits that were begun and not ended, to read.
    pub fn jobs(&self) -> &StandingJobs
        ensures { result.now.jobs ≡ self.now.tree.jobs }
    {
        self.tree.jobs()
    }

    /// The names of the objects that are to be removed, to read.
    pub fn purge_list(&self) -> &PurgeList
        ensures { result.now.names ≡ self.now.tree.purge }
    {
        self.tree.purge_list()
    }
}
