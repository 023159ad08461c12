//! Mounting: a cluster and a book over a store with objects.
ghost use Rattle.std.specs.Prelude.{◌≡◌, ◌+◌, ◌≤◌, [], length, Some, IfOk, IfErr};
ghost use Rattle.sessions.specs.Table.{no_table};
ghost use Rattle.sorted_map.specs.SortedMap.{contents};
ghost use Rattle.mds_types.specs.Tree.{dentry_cmp};
ghost use Rattle.objstore.specs.Objects.{faults_in};
ghost use Rattle.dentry_cache.specs.CacheMap.{AreCaches};
ghost use Rattle.mdcache.specs.Mounted.{IsColdTree, MayNotMount};
ghost use Rattle.mdcache.specs.Core.{state_of as tree_state};
ghost use Rattle.ranked_tree.specs.Exported.{StandSoundly};
ghost use Rattle.ranked_tree.specs.Held.{IsOwned};
ghost use Rattle.ranked_tree.specs.Ranked.{held_roots};
ghost use Rattle.cluster_core.specs.Opening.{fresh};
ghost use Rattle.cluster_core.specs.Mounted.{MountsCore};
ghost use Rattle.cluster_core.specs.Sound.{StandsBehind, IsSound, IsSoundKept};
ghost use Rattle.cluster_core.specs.State.{core_of, shown};

use crate::books::Book;
use crate::clusters::Cluster;
use crate::parts::{Given, Parts, Waiting};
use crate::plain_trees::PlainTree;
use crate::settled::Settled;
use mdcache::Opening;
use mds_types::{Limit, Refusal};
use objstore::Store;
use ranked_tree::RankedTree;
use std::alloc::Global;

impl<S: Store + Drop> Cluster<S> {
    /// A cluster of so many ranks over a store as it is, with so many places in each cache, and the tree that it opens
    /// with. `RankedTree::mount` makes the tree or refuses. Each rank has the numbers that the mount tells, and nothing
    /// waits.
    pub(crate) fn mount(
        alloc: Global,
        store: S,
        ranks: u8,
        places: usize,
        limit: Limit,
    ) -> Result<(Cluster<S>, PlainTree), (Refusal, S)>
        requires some { 1 ≤ ranks }
        requires ranked { ranks ≤ 16 }
        requires few { 512 ≤ places }
        requires many { places ≤ 65536 }
        ensures limit { IfOk result (λ m. m.0.state.tree.limit ≡ limit) }
        ensures mounted { IfOk result (λ m. MountsCore limit (S.objects store) ranks places m.1 m.0) }
        ensures cold { IfOk result (λ m. IsColdTree (S.objects store) (shown m.0.state)) }
        ensures opening { IfOk result (λ m. m.1 ≡ shown m.0.state) }
        ensures objects { IfOk result (λ m. m.0.state.tree.objects ≡ S.objects store) }
        ensures sound { IfOk result (λ m. IsSound (fresh m.1) [] m.0) }
        ensures faults { IfOk result (λ m. m.0.faults ≡ S.faults store) }
        ensures refused { IfErr result
            (λ back. MayNotMount (S.objects store) (S.faults store) (S.faults back.1) back.0) }
        ensures left { IfErr result (λ back. S.objects back.1 ≡ S.objects store) }
        ensures counted { IfErr result (λ back. S.faults back.1 ≡ S.faults store + faults_in back.0) }
    {
        match Waiting::new(alloc, ranks) {
            Err(_) => Err((Refusal::NoMemory, store)),
            Ok(waiting) => match RankedTree::mount(alloc, store, ranks, places, limit) {
                Ok((tree, opening)) => Ok(Cluster::of_mounted(alloc, tree, opening, waiting)),
                Err(back) => {
                    drop(waiting);
                    Err(back)
                }
            },
        }
    }

    /// Returns the store, and drops all else.
    pub(crate) fn into_store(self) -> S
        ensures objects { S.objects result ≡ self.state.tree.objects }
        ensures faults { S.faults result ≡ self.faults }
    {
        let Cluster { parts } = self;
        let Parts {
            tree,
            waiting,
            given,
        } = parts;
        drop(waiting);
        drop(given);
        tree.into_store()
    }

    // A cluster over a mounted tree, in which nothing waits, and the tree that it opens with.
    fn of_mounted(
        alloc: Global,
        tree: RankedTree<S>,
        opening: Opening,
        waiting: Waiting,
    ) -> (Cluster<S>, PlainTree)
        ensures core { result.0 ≡ core_of tree.tree tree.subtrees.roots tree.exports opening.numbers.items
            waiting.inboxes waiting.pins no_table }
        ensures opening { result.1 ≡ contents dentry_cmp opening.entries }
        ensures owned { IsOwned tree.tree (held_roots tree) }
        ensures stand { StandSoundly (tree_state tree.tree) (length tree.tree.caches.used) tree.subtrees tree.exports }
        ensures caches { AreCaches tree.tree.caches }
    {
        tree.is_sound();
        let Opening { entries, numbers } = opening;
        let parts = Parts {
            tree,
            waiting,
            given: Given::of(alloc, numbers),
        };
        (Cluster { parts }, PlainTree::of(entries))
    }
}

/// A book of so many ranks over a store as it is. It opens with the store's cold tree, the history is empty, and
/// nothing waits. `cache` is the number of fragments that a rank may cache. `limit` is the number of entries that a
/// directory may have: one that already has more stays as it is, and takes no new entry. Nothing is written. Takes
/// memory for all entries and for the names of all objects.
///
/// A store that has no object gives the book of `format`. Otherwise nothing is cached and all is clean. The authority
/// of the root directory's leaves is rank 0. Each rank's next number follows the greatest of its range in the tree, so
/// a number that was freed before may be given again. The objects that no directory reaches are on the purge list.
///
/// Refused `Damaged`, with the name of a faulty object, if the store has objects. Otherwise refused `StoreFault`, as
/// the store refuses a call, or `NoMemory`. Then the store is returned, with its objects as they were.
pub fn mount<S: Store + Drop>(
    alloc: Global,
    store: S,
    ranks: u8,
    cache: u32,
    limit: Limit,
) -> Result<Book<S>, (Refusal, S)>
    requires some { 1 ≤ ranks }
    requires ranked { ranks ≤ 16 }
    requires least { 512 ≤ cache }
    requires most { cache ≤ 65536 }
    ensures limit { IfOk result (λ book. book.core.state.tree.limit ≡ limit) }
    ensures mounted { IfOk result
        (λ book. MountsCore limit (S.objects store) ranks cache (shown book.core.state) book.core) }
    ensures cold { IfOk result (λ book. IsColdTree (S.objects store) (shown book.core.state)) }
    ensures opening { IfOk result (λ book. book.opening ≡ Some (shown book.core.state)) }
    ensures goes_on { IfOk result (λ book. StandsBehind (fresh (shown book.core.state)) [] book) }
    ensures history { IfOk result (λ book. book.history ≡ []) }
    ensures objects { IfOk result (λ book. book.core.state.tree.objects ≡ S.objects store) }
    ensures sound { IfOk result IsSoundKept }
    ensures faults { IfOk result (λ book. book.core.faults ≡ S.faults store) }
    ensures refused { IfErr result (λ back. MayNotMount (S.objects store) (S.faults store) (S.faults back.1) back.0) }
    ensures left { IfErr result (λ back. S.objects back.1 ≡ S.objects store) }
    ensures counted { IfErr result (λ back. S.faults back.1 ≡ S.faults store + faults_in back.0) }
{
    match Cluster::mount(alloc, store, ranks, cache as usize, limit) {
        Ok((cluster, opening)) => Ok(Book {
            cluster,
            history: Vec::new(alloc),
            opening: Some(opening),
            settled: Settled::new(alloc),
        }),
        Err(back) => Err(back),
    }
}
