//! A tree over a store that has no object, with its one subtree root.
ghost use Rattle.std.specs.Prelude.{◌≡◌, ◌+◌, ◌<◌, ◌≤◌, OnOk, IfOk, IfErr};
ghost use Rattle.std.specs.FinMap as map;
ghost use Rattle.objstore.specs.Objects.{faults_in};
ghost use Rattle.mdcache.specs.Core.{state_of};
ghost use Rattle.mdcache.specs.New.{MayNotFormat, new_caches, new_tree_state};
ghost use Rattle.ranked_tree.specs.Ranked.{new_roots};

use crate::ranked_tree::RankedTree;
use crate::regions::Regions;
use mdcache::MdCache;
use mds_types::{Frag, Ino, Limit, Rank, Refusal};
use objstore::Store;
use std::alloc::{AllocError, Global};
use subtree_map::Subtrees;

impl<S: Store + Drop> RankedTree<S> {
    /// The empty tree over a store that has no object, with a cache of so many places for each of so many ranks, as
    /// `MdCache::format` makes and refuses it. The root directory's leaf is rank 0's.
    pub fn format(
        alloc: Global,
        store: S,
        ranks: u8,
        places: usize,
        limit: Limit,
    ) -> Result<RankedTree<S>, (Refusal, S)>
        requires some { 0 < ranks }
        requires few { 512 ≤ places }
        requires many { places ≤ 65536 }
        ensures empty { OnOk result (S.objects store ≡ map.empty) }
        ensures state { IfOk result (λ t. state_of t.tree ≡ new_tree_state limit) }
        ensures roots { IfOk result (λ t. t.subtrees.roots ≡ new_roots) }
        ensures exports { IfOk result (λ t. t.exports ≡ map.empty) }
        ensures caches { IfOk result (λ t. t.tree.caches ≡ new_caches ranks places) }
        ensures refused { IfErr result
            (λ back. MayNotFormat (S.objects store) (S.faults store) (S.faults back.1) back.0) }
        ensures left { IfErr result (λ back. S.objects back.1 ≡ S.objects store) }
        ensures faults { IfOk result (λ t. t.tree.faults ≡ S.faults store) }
        ensures counted { IfErr result (λ back. S.faults back.1 ≡ S.faults store + faults_in back.0) }
    {
        match first_roots(alloc, ranks) {
            Err(_) => Err((Refusal::NoMemory, store)),
            Ok(roots) => match MdCache::format(alloc, store, ranks, places, limit) {
                Ok(tree) => Ok(RankedTree {
                    tree,
                    regions: Regions::new(alloc, roots),
                    alloc,
                }),
                Err(back) => Err(back),
            },
        }
    }
}

// The root directory's leaf as the one subtree root, rank 0's, in the lists of so many ranks.
fn first_roots(alloc: Global, ranks: u8) -> Result<Subtrees, AllocError>
    ensures { IfOk result (λ roots. roots.roots ≡ new_roots) }
{
    let mut roots = Subtrees::new(alloc, ranks)?;
    if roots.reserve(1).is_err() {
        return Err(AllocError);
    }
    roots.set(Ino::ROOT, Frag::ROOT, Rank(0));
    Ok(roots)
}
