//! Whole runs of a book.
ghost use Rattle.std.specs.Prelude.{◌≡◌, ◌+◌, ◌<◌, ◌≤◌, ◌++◌, ◌∷◌, [], vec_len, vec_capacity, Contains, IfErr, IfOk, OnOk};
ghost use Rattle.std.specs.List.{AllByRecursion};
ghost use Rattle.cluster_core.specs.Sound.{GoesOnBehind, IsSoundKept, OfWhole};
ghost use Rattle.cluster_core.specs.State.{places_of};
ghost use Rattle.cluster_core.specs.OneThread.{InOrder, IsOneThread, IsOneThreadThroughout, arrivals, receipts_of, waiting_in};
ghost use Rattle.cluster_core.specs.Runs.{IsRun};

use crate::books::Book;
use crate::events::{Answer, Event};
use mds_types::Refusal;
use objstore::Store;
use std::alloc::Global;

/// Steps a book by each event of a list, one after the other, and returns a result for each. The replies among them are
/// those of one thread that serves one plain tree the requests that waited and those that arrive. The memory for the
/// results is taken before the first event: an error tells that it was refused, and that nothing was done.
pub fn run<S: Store + Drop>(
    alloc: Global,
    book: &mut Book<S>,
    events: Vec<Event>,
) -> Result<Vec<Result<Answer, Refusal>>, Refusal>
    ensures one_thread { OfWhole book.old book.new (λ old new. IfOk result (λ results. IsOneThread
        old.core.state.tree.limit old.opening old.history new.history (waiting_in old.core.state.inboxes ++ arrivals
        events.items) (receipts_of results.items))) }
    ensures in_order { IfOk result
        (λ results. InOrder (places_of book.old) (receipts_of results.items) (places_of book.new)) }
    ensures waits { OnOk result
        (AllByRecursion (Contains (waiting_in book.old.core.state.inboxes ++ arrivals events.items))
        (waiting_in book.new.core.state.inboxes)) }
    ensures throughout { OfWhole book.old book.new (λ old new. IfOk result (λ results. IsOneThreadThroughout
        old.core.state.tree.limit old.opening old.history new.history (waiting_in old.core.state.inboxes) events.items
        results.items)) }
    ensures ran { OfWhole book.old book.new (λ old new. IfOk result (λ results. IsRun old events.items results.items
        new)) }
    ensures refused { IfErr result (λ reason. (reason ≡ Refusal.NoMemory) × (book.new ≡ book.old)) }
    ensures goes_on { GoesOnBehind book.old book.new }
    ensures opening { book.new.opening ≡ book.old.opening }
    ensures sound { IsSoundKept book.new }
{
    book.is_sound();
    let mut results = Vec::with_capacity(alloc, events.len())?;
    let mut events = events.into_iter();
    while let Some(event) = events.next() {
        put(&mut results, book.step(alloc, event));
    }
    Ok(results)
}

// Puts a result at the end of a list that has room for it.
fn put(results: &mut Vec<Result<Answer, Refusal>>, newest: Result<Answer, Refusal>)
    requires { vec_len results.old < vec_capacity results.old }
    ensures items { results.new.items ≡ results.old.items ++ newest ∷ [] }
    ensures len { vec_len results.new ≡ vec_len results.old + 1 }
    ensures capacity { vec_capacity results.old ≤ vec_capacity results.new }
{
    results.push_reserved(newest);
}
