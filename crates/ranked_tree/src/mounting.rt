//! A tree over a store as it is found, with its subtree roots.
ghost use Rattle.std.specs.Prelude.{◌≡◌, ◌+◌, ◌<◌, ◌≤◌, IfOk, IfErr};
ghost use Rattle.std.specs.FinMap as map;
ghost use Rattle.sorted_map.specs.SortedMap.{contents};
ghost use Rattle.mds_types.specs.Tree.{dentry_cmp};
ghost use Rattle.objstore.specs.Objects.{faults_in};
ghost use Rattle.mdcache.specs.Core.{shown_in};
ghost use Rattle.mdcache.specs.Mounted.{AreNumbers, IsColdTree, MayNotMount, Mounts};
ghost use Rattle.ranked_tree.specs.Mounted.{AreTopRoots};

use crate::ranked_tree::RankedTree;
use crate::regions::Regions;
use inode_table::Dirs;
use mdcache::{MdCache, Opening};
use mds_types::{Ino, Limit, Rank, Refusal};
use objstore::Store;
use std::alloc::{AllocError, Global};
use subtree_map::Subtrees;

impl<S: Store + Drop> RankedTree<S> {
    /// The tree over a store as it is found, as `MdCache::mount` makes and refuses it, with what that finds beside it.
    /// All leaves of the root directory are rank 0's, and nothing else is a root. Memory for the roots is linear in
    /// those leaves.
    pub fn mount(
        alloc: Global,
        store: S,
        ranks: u8,
        places: usize,
        limit: Limit,
    ) -> Result<(RankedTree<S>, Opening), (Refusal, S)>
        requires some { 0 < ranks }
        requires ranked { ranks ≤ 16 }
        requires few { 512 ≤ places }
        requires many { places ≤ 65536 }
        ensures mounted { IfOk result
            (λ m. Mounts limit (S.objects store) ranks places (contents dentry_cmp m.1.entries) m.0.tree) }
        ensures cold { IfOk result (λ m. IsColdTree (S.objects store) (shown_in m.0.tree)) }
        ensures opening { IfOk result (λ m. contents dentry_cmp m.1.entries ≡ shown_in m.0.tree) }
        ensures numbers { IfOk result (λ m. AreNumbers (shown_in m.0.tree) ranks m.1.numbers.items) }
        ensures roots { IfOk result (λ m. AreTopRoots m.0.tree.covers m.0.subtrees.roots) }
        ensures exports { IfOk result (λ m. m.0.exports ≡ map.empty) }
        ensures faults { IfOk result (λ m. m.0.tree.faults ≡ S.faults store) }
        ensures refused { IfErr result
            (λ back. MayNotMount (S.objects store) (S.faults store) (S.faults back.1) back.0) }
        ensures left { IfErr result (λ back. S.objects back.1 ≡ S.objects store) }
        ensures counted { IfErr result (λ back. S.faults back.1 ≡ S.faults store + faults_in back.0) }
    {
        match MdCache::mount(alloc, store, ranks, places, limit) {
            Err(back) => Err(back),
            Ok((tree, opening)) => match top_roots(alloc, ranks, tree.dirs()) {
                Ok(roots) => {
                    let regions = Regions::new(alloc, roots);
                    Ok((
                        RankedTree {
                            tree,
                            regions,
                            alloc,
                        },
                        opening,
                    ))
                }
                Err(_) => {
                    drop(opening);
                    Err((Refusal::NoMemory, tree.into_store()))
                }
            },
        }
    }

    /// The store, handed back; all else is dropped.
    pub fn into_store(self) -> S
        ensures objects { S.objects result ≡ self.tree.objects }
        ensures faults { S.faults result ≡ self.tree.faults }
    {
        let RankedTree {
            tree,
            regions,
            alloc: _,
        } = self;
        drop(regions);
        tree.into_store()
    }
}

// The leaves of the root directory as the subtree roots, rank 0's, in the lists of so many ranks.
fn top_roots(alloc: Global, ranks: u8, dirs: &Dirs) -> Result<Subtrees, AllocError>
    ensures { IfOk result (λ roots. AreTopRoots dirs.now.trees roots.roots) }
{
    let mut roots = Subtrees::new(alloc, ranks)?;
    if roots.reserve(dirs.leaf_count(Ino::ROOT)).is_err() {
        return Err(AllocError);
    }
    roots.fill(dirs, Ino::ROOT, Rank(0));
    Ok(roots)
}
