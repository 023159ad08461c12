//! What explains a refusal: the exports, the waiting requests, the grants, the commits under way, the cached fragments,
//! and the objects on the purge list. No call takes memory.
ghost use Rattle.std.specs.Prelude.{◌≡◌, ◌↔◌, IsTrue, length, slice_get};
ghost use Rattle.std.specs.Option.{option_copied};
ghost use Rattle.inboxes.specs.Inboxes.{waiting_at, waiting_in_all};
ghost use Rattle.ranked_tree.specs.Exported.{IsUnder};

use crate::clusters::Cluster;
use dentry_cache::Caches;
use export_steps::Exports;
use inboxes::Pin;
use mdcache::{PurgeList, StandingJobs};
use mds_types::{Frag, Ino, Rank, Request};
use objstore::Store;

impl<S: Store + Drop> Cluster<S> {
    /// The number of ranks, which are numbered from 0.
    pub fn ranks(&self) -> usize
        ensures { result ≡ length self.now.state.inboxes }
    {
        self.parts.waiting.inboxes.ranks()
    }

    /// The exports, each with its ranks and its state.
    pub fn exports(&self) -> &Exports
        ensures { result.now ≡ self.now.state.exports }
    {
        self.parts.tree.exports()
    }

    /// Whether a leaf is in the region that another leaf has as a subtree root. If that leaf is a root, it is its
    /// region.
    pub fn is_under(&self, root: &(Ino, Frag), leaf: &(Ino, Frag)) -> bool
        ensures { IsTrue result ↔ IsUnder self.now.state.roots self.now.state.tree.homes self.now.state.tree.covers
            root.now leaf.now }
    {
        self.parts.tree.is_under(root, leaf)
    }

    /// How many requests wait at all ranks together.
    pub fn waiting(&self) -> usize
        ensures { result ≡ waiting_in_all self.now.state.inboxes }
    {
        self.parts.waiting.inboxes.waiting_in_all()
    }

    /// How many requests wait at a rank.
    pub fn waiting_at(&self, rank: Rank) -> usize
        ensures { result ≡ length (waiting_at self.now.state.inboxes rank) }
    {
        self.parts.waiting.inboxes.waiting(rank)
    }

    /// The request at the front of a rank's inbox: the one that the rank serves next.
    pub fn front(&self, rank: Rank) -> Option<&Request>
        ensures { option_copied result ≡ slice_get (waiting_at self.now.state.inboxes rank) 0 }
    {
        self.parts.waiting.inboxes.front(rank)
    }

    /// The request in a rank's inbox behind so many others.
    pub fn request(&self, rank: Rank, index: usize) -> Option<&Request>
        ensures { option_copied result ≡ slice_get (waiting_at self.now.state.inboxes rank) index }
    {
        self.parts.waiting.inboxes.get(rank, index)
    }

    /// The grants: each is of a leaf, for a request that waits.
    pub fn grants(&self) -> &[Pin]
        ensures { result.now ≡ self.now.state.pins }
    {
        self.parts.waiting.pins.as_slice()
    }

    /// The commits that have begun and not ended.
    pub fn jobs(&self) -> &StandingJobs
        ensures { result.now.jobs ≡ self.now.state.tree.jobs }
    {
        self.parts.tree.jobs()
    }

    /// The ranks' caches: the fragments that a rank caches, in the order in which it used them, and which of them are
    /// clean.
    pub fn caches(&self) -> &Caches
        ensures { result.now ≡ self.now.caches }
    {
        self.parts.tree.caches()
    }

    /// The names of the objects that are to be removed.
    pub fn purge_list(&self) -> &PurgeList
        ensures { result.now.names ≡ self.now.state.tree.purge }
    {
        self.parts.tree.purge_list()
    }
}
