//! `RankedTree`, and what a contract sees of it.
ghost use Rattle.std.specs.Prelude.{◌≡◌};

use crate::regions::Regions;
use export_steps::Exports;
use mdcache::MdCache;
use mds_types::Limit;
use objstore::Store;
use std::alloc::Global;
use std::marker::Model;
use subtree_map::Subtrees;

/// A tree over caches and a store, its subtree roots with their ranks, and the exports that stand.
///
/// Of each it holds that the leaves of the root directory are subtree roots, and that only leaves are: so each leaf has
/// one authority; that a rank caches only leaves that it holds, and has places of no other live leaf; that what Finish
/// changes of the exports has its place; and that the tree is sound.
#[derive(Drop)]
pub struct RankedTree<S: Store + Drop> {
    pub(crate) tree: MdCache<S>,
    pub(crate) regions: Regions,
    /// For what is made ready.
    pub(crate) alloc: Global,
}

impl<S: Store + Drop> Model for RankedTree<S> {
    ghost use Rattle.std.specs.Coded.{codes};
    ghost use Rattle.std.specs.FinMap as map;
    ghost use Rattle.ranked_tree.specs.Ranked.{Ranked};
    ghost use Rattle.ranked_tree.specs.Exported.{IsDivided};

    ghost Value = { Ranked };

    ghost coded = { Prim.hlevel (codes, map.code) };

    ghost view = { λ t. record { tree = t.tree; subtrees = t.regions.roots; exports = t.regions.exports } };

    ghost invariant = { λ t. IsDivided t.tree t.regions };
}

impl<S: Store + Drop> RankedTree<S> {
    /// How many entries a directory may have.
    pub fn limit(&self) -> Limit
        ensures { result ≡ self.now.tree.limit }
    {
        self.tree.limit()
    }

    /// The subtree roots with their ranks, to read.
    pub fn roots(&self) -> &Subtrees
        ensures { result.now ≡ self.now.subtrees }
    {
        &self.regions.roots
    }

    /// The exports that stand, to read.
    pub fn exports(&self) -> &Exports
        ensures { result.now ≡ self.now.exports }
    {
        &self.regions.exports
    }
}
