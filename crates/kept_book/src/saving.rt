//! Saving the tree after the history on disk.
ghost use Rattle.std.specs.Prelude.{IfOk, IfSome};
ghost use Rattle.mds_types.specs.Tree.{Tree};
ghost use Rattle.cold_store.specs.ColdTree.{IsColdTree};
ghost use Rattle.cluster_core.specs.Opening.{after_from};
ghost use Rattle.cluster_core.specs.Sound.{GoesOnBehind, IsSoundKept, OfWhole};
ghost use Rattle.kept_store.specs.Kept.{TakesEdits};
ghost use Rattle.sqlite_trees.specs.View.{IsClean};
ghost use Rattle.kept_book.specs.Saves.{Saves};
ghost use Rattle.kept_book.specs.Survives.{IsOnDisk, Survives};

use cluster_core::{Book, flush};
use cold_store::laws::has_one_cold_tree;
use keeping::Unkept;
use kept_store::{Kept, Settle};
use mds_types::Refusal;
use sqlite_trees::store::Store as Trees;
use std::alloc::Global;
use std::snapshot::Snapshot;
use std::thread::Threads;
use thiserror::Error;

/// Why a tree isn't on disk.
#[derive(Clone, Copy, Debug, PartialEq, Eq, Error)]
pub enum Unsaved {
    /// The flush was refused.
    #[error("{0}")]
    Refused(Refusal),
    /// The flush was done, but not kept. The next one that is kept keeps its content too.
    #[error("{0}")]
    Unkept(Unkept),
}

/// Flushes a cluster, and keeps what it wrote. After Ok, if the disk was honest, the tree after the history is on disk:
/// a mount of whatever a crash leaves of the file from then on shows this tree and no other. Beside it are the sessions
/// and the ranks' next numbers, as `Book::keep` writes them. The results are the store before and after the call that
/// keeps, for contracts alone. Whatever the result, the tree and the history are unchanged.
pub fn save<T: Settle + Drop>(
    rt: &(impl Threads + Sync),
    alloc: Global,
    book: &mut Book<Kept<T>>,
) -> Result<(Snapshot<Kept<T>>, Snapshot<Kept<T>>), Unsaved>
    ensures on_disk { OfWhole book.old book.new (λ old _. IfOk result (λ s. IsClean (T.Store.view s.1.value.tables) →
        IsOnDisk (T.Store.recovers s.1.value.tables) (after_from old.core.state.tree.limit old.opening old.history))) }
    ensures saves { Saves (λ s edits. TakesEdits T.Store.view T.Store.recovers s.0.value edits s.1.value)
        book.old book.new result }
    ensures goes_on { GoesOnBehind book.old book.new }
    ensures sound { IsSoundKept book.new }
{
    if let Err(refusal) = flush(rt, alloc, book) {
        return Err(Unsaved::Refused(refusal));
    }
    has_one_cold_tree();
    match book.keep() {
        Ok(stores) => Ok(stores),
        Err(why) => Err(Unsaved::Unkept(why)),
    }
}

/// The store of a cluster, if its tables have all that the cluster wrote. If the disk was honest, whatever a crash
/// leaves then spells the cluster's objects and no others. If these have a cold tree, that tree is on disk. After a
/// flush it is the tree after the history.
pub fn kept_of<T: Trees + Drop>(book: &Book<Kept<T>>) -> Option<&Kept<T>>
    ensures survives { IfSome result (λ s. IsClean (T.Store.view s.now.tables)
        → Survives (T.Store.recovers s.now.tables) book.now.core.state.tree.objects) }
    ensures on_disk { IfSome result (λ s. IsClean (T.Store.view s.now.tables) → (tree : Tree)
        → IsColdTree book.now.core.state.tree.objects tree → IsOnDisk (T.Store.recovers s.now.tables) tree) }
{
    has_one_cold_tree();
    let store = book.cluster().store();
    if store.is_kept() { Some(store) } else { None }
}
