//! Closing a book, and opening it again from its store alone.
ghost use Rattle.std.specs.Prelude.{◌≡◌, ◌≤◌, ◌++◌, [], List, Some, IfErr, IfOk};
ghost use Rattle.cluster_core.specs.Opening.{Opening, fresh, after_from};
ghost use Rattle.mds_types.specs.declared.entries.Entry.{Entry as Applied};
ghost use Rattle.cluster_core.specs.Restart.{LosesNothing};
ghost use Rattle.cluster_core.specs.Sound.{StandsBehind, IsSoundKept};
ghost use Rattle.cluster_core.specs.State.{shown};

use crate::books::Book;
use crate::flushing::flush;
use crate::mounting::mount;
use mds_types::{Limit, Refusal};
use objstore::Store;
use std::alloc::Global;
use std::thread::Threads;

impl<S: Store + Drop> Book<S> {
    /// Returns the store, and drops all else.
    pub fn into_store(self) -> S
        ensures objects { S.objects result ≡ self.core.state.tree.objects }
        ensures faults { S.faults result ≡ self.core.faults }
    {
        let Book {
            cluster,
            history,
            opening,
            settled,
        } = self;
        drop(history);
        drop(opening);
        drop(settled);
        cluster.into_store()
    }
}

/// Why a book was not opened again.
#[derive(Drop)]
pub enum NotRestarted<S: Store + Drop> {
    /// The flush was refused, as `flush` refuses.
    Unflushed(Refusal, Book<S>),
    /// The mount of the store after the flush was refused, as `mount` refuses.
    Unmounted(Refusal, S),
}

/// Flushes a book, drops all of it but its store, and mounts the store. The new book has so many ranks, whatever ranks
/// and caches the old one had, and opens with the tree after the old history. Sessions are lost: a request that was
/// applied before is a new one. If the restart fails, the tree isn't lost: the book is returned as a refused flush
/// leaves it, or the store with the tree after the history.
pub fn restart<S: Store + Drop>(
    rt: &(impl Threads + Sync),
    alloc: Global,
    book: Book<S>,
    ranks: u8,
    cache: u32,
    limit: Limit,
) -> Result<Book<S>, NotRestarted<S>>
    requires some { 1 ≤ ranks }
    requires ranked { ranks ≤ 16 }
    requires least { 512 ≤ cache }
    requires most { cache ≤ 65536 }
    ensures opening { (opening : Opening) (past : List Applied) → StandsBehind opening past book → IfOk result
        (λ next. next.opening ≡ Some (after_from book.core.state.tree.limit opening (past ++ book.history))) }
    ensures history { IfOk result (λ next. next.history ≡ []) }
    ensures limit { IfOk result (λ next. next.core.state.tree.limit ≡ limit) }
    ensures shows { IfOk result (λ next. next.opening ≡ Some (shown next.core.state)) }
    ensures goes_on { IfOk result (λ next. StandsBehind (fresh (shown next.core.state)) [] next) }
    ensures sound { IfOk result IsSoundKept }
    ensures left { IfErr result (LosesNothing S.objects S.faults book) }
{
    let mut closed = book;
    if let Err(refusal) = flush(rt, alloc, &mut closed) {
        return Err(NotRestarted::Unflushed(refusal, closed));
    }
    match mount(alloc, closed.into_store(), ranks, cache, limit) {
        Ok(next) => Ok(next),
        Err((refusal, store)) => Err(NotRestarted::Unmounted(refusal, store)),
    }
}
