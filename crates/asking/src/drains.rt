//! Draining: answering all requests that wait.
ghost use Rattle.std.specs.Prelude.{◌≡◌, ◌≢◌, ◌⊎◌, ◌-◌, ◌<◌, ◌≤◌, ◌++◌, [], true, cond, vec_capacity, vec_len, List, Ok, Err, IfErr, MatchBool, MatchOption, MatchResult, OnOk};
ghost use Rattle.std.specs.FinMap as map;
ghost use Rattle.cluster_core.specs.OneThread.{InOrder, IsOneThread, receipt_of, waiting_in};
ghost use Rattle.cluster_core.specs.Runs.{GoesOnFrom};
ghost use Rattle.cluster_core.specs.Sound.{GoesOnBehind, IsSoundKept, OfWhole};
ghost use Rattle.cluster_core.specs.State.{places_of};
ghost use Rattle.asking.specs.Ask.{NoneWaits};
ghost use Rattle.asking.specs.Drain.{IsLowest, IsStopped, RoundEnds, forwards, waiting_in_all};
ghost use Rattle.asking.specs.Reached.{ServesWaiting};
ghost use Rattle.cluster_core.specs.declared.receipts.Receipt.{Receipt as Told};

use crate::grants::grant_all;
use cluster_core::{Answer, Book, Event, Receipt};
use mds_types::{Rank, Refusal};
use objstore::Store;
use std::alloc::Global;

/// A request that waits at the front of a rank's inbox.
#[derive(Clone, Copy, Debug)]
pub(crate) struct Waiter {
    pub(crate) rank: Rank,
    pub(crate) client: u64,
    pub(crate) tid: u64,
}

/// How many requests may wait in all.
const MOST: usize = 1024;

/// The replies that a drain gave, and how it ended.
#[derive(Drop)]
pub struct Drained {
    /// The replies, in the order in which they were given.
    pub receipts: Vec<Receipt>,
    /// Ok if nothing waits any more; otherwise the reason why the next request can't be served.
    pub ended: Result<(), Refusal>,
}

/// Answers every request that waits at any rank of a book in which at most 1024 wait in all. A request that is too old,
/// or for which there is no number, leaves without a reply. The only steps are that ranks serve and grant.
///
/// Fails at the first request that can't be served: memory or the store refuses it, a rank lacks places, or it would
/// change a frozen fragment. It never fails `Frozen` if no export exists. The requests before that one are answered.
pub fn drain<S: Store + Drop>(alloc: Global, book: &mut Book<S>) -> Drained
    requires { waiting_in_all book.old.core.state.inboxes ≤ 1024 }
    ensures served { OfWhole book.old book.new (λ old new. ServesWaiting old new result.receipts.items) }
    ensures one_thread { OfWhole book.old book.new (λ old new. IsOneThread old.core.state.tree.limit old.opening
        old.history new.history (waiting_in old.core.state.inboxes) result.receipts.items) }
    ensures in_order { InOrder (places_of book.old) result.receipts.items (places_of book.new) }
    ensures drained { OnOk result.ended (NoneWaits book.new.core.state.inboxes) }
    ensures stopped { IfErr result.ended (IsStopped book.new.core) }
    ensures thawed { book.old.core.state.exports ≡ map.empty → result.ended ≢ Err Refusal.Frozen }
    ensures exports { book.new.core.state.exports ≡ book.old.core.state.exports }
    ensures few { waiting_in_all book.new.core.state.inboxes ≤ 1024 }
    ensures grows { GoesOnFrom book.new.history book.old.history }
    ensures opening { book.new.opening ≡ book.old.opening }
    ensures goes_on { GoesOnBehind book.old book.new }
    ensures sound { IsSoundKept book.new }
{
    book.is_sound();
    let mut receipts = Vec::new(alloc);
    let ended = answer_all(alloc, book, &mut receipts);
    Drained { receipts, ended }
}

// Drains a book, one round after the other. The list of replies is empty at first.
fn answer_all<S: Store + Drop>(
    alloc: Global,
    book: &mut Book<S>,
    receipts: &mut Vec<Receipt>,
) -> Result<(), Refusal>
    requires few { waiting_in_all book.old.core.state.inboxes ≤ 1024 }
    requires empty { receipts.old.items ≡ [] }
    ensures served { OfWhole book.old book.new (λ old new. ServesWaiting old new receipts.new.items) }
    ensures drained { OnOk result (NoneWaits book.new.core.state.inboxes) }
    ensures stopped { IfErr result (IsStopped book.new.core) }
    ensures thawed { book.old.core.state.exports ≡ map.empty → result ≢ Err Refusal.Frozen }
    ensures exports { book.new.core.state.exports ≡ book.old.core.state.exports }
    ensures few { waiting_in_all book.new.core.state.inboxes ≤ 1024 }
    ensures grows { GoesOnFrom book.new.history book.old.history }
    ensures opening { book.new.opening ≡ book.old.opening }
    ensures goes_on { GoesOnBehind book.old book.new }
    ensures sound { IsSoundKept book.new }
{
    book.is_sound();
    let mut strays = MOST;
    while let Some(found) = lowest(book) {
        let moved = match play_round(alloc, book, found, receipts) {
            Ok(moved) => moved,
            Err(refusal) => return Err(refusal),
        };
        strays = strays_after(strays, moved);
    }
    Ok(())
}

// A bound on the requests that aren't at their master, after a round. It is one lower if a request was forwarded to its
// master. If one has left, others may have another master now.
fn strays_after(strays: usize, moved: bool) -> usize
    requires { moved ≡ true → 0 < strays }
    ensures { result ≡ cond moved (strays - 1) 1024 }
{
    if moved { strays - 1 } else { MOST }
}

// The request at the front of the lowest rank where something waits.
pub(crate) fn lowest<S: Store + Drop>(book: &Book<S>) -> Option<Waiter>
    ensures { MatchOption result (NoneWaits book.now.core.state.inboxes) (IsLowest book.now.core.state.inboxes) }
{
    book.is_sound();
    for rank in 0..16 {
        if let Some(request) = book.cluster().front(Rank(rank)) {
            return Some(Waiter {
                rank: Rank(rank),
                client: request.client,
                tid: request.tid,
            });
        }
    }
    None
}

// One round: each rank grants a request at a front what it needs, and the rank where it waits serves it. Returns true
// if the request was forwarded to its master, and false if it has left. Its reply, if it has one, is put behind the
// others.
fn play_round<S: Store + Drop>(
    alloc: Global,
    book: &mut Book<S>,
    found: Waiter,
    receipts: &mut Vec<Receipt>,
) -> Result<bool, Refusal>
    requires few { waiting_in_all book.old.core.state.inboxes ≤ 1024 }
    requires lowest { IsLowest book.old.core.state.inboxes found }
    ensures ends { RoundEnds book.old.core book.new.core result }
    ensures served { OfWhole book.old book.new (λ old new. (replies : List Told) × (receipts.new.items ≡
        receipts.old.items ++ replies) × ServesWaiting old new replies) }
    ensures exports { book.new.core.state.exports ≡ book.old.core.state.exports }
    ensures grows { GoesOnFrom book.new.history book.old.history }
    ensures opening { book.new.opening ≡ book.old.opening }
    ensures goes_on { GoesOnBehind book.old book.new }
    ensures sound { IsSoundKept book.new }
{
    book.is_sound();
    // room for the reply is reserved first: a reply that was given can't be lost
    if receipts.reserve(1).is_err() {
        return Err(Refusal::NoMemory);
    }
    if let Err(refusal) = grant_all(alloc, book, found.client, found.tid) {
        return Err(refusal);
    }
    match book.step(alloc, Event::Serve { rank: found.rank }) {
        Ok(answer) => Ok(note(answer, receipts)),
        Err(refusal) => unless_gone(refusal),
    }
}

// Puts the receipt of an answer, if it is a reply, into a list that has room for it. Returns whether the request was
// forwarded to its master.
fn note(answer: Answer, receipts: &mut Vec<Receipt>) -> bool
    requires { vec_len receipts.old < vec_capacity receipts.old }
    ensures moved { result ≡ forwards answer }
    ensures told { receipts.new.items ≡ receipts.old.items ++ receipt_of (Ok answer) }
{
    match answer {
        Answer::Reply {
            client,
            tid,
            place,
            first,
            reply,
        } => {
            let _ = receipts.push(Receipt {
                client,
                tid,
                place,
                first,
                reply,
            });
            false
        }
        Answer::Forwarded(_) => true,
        Answer::Deferred => false,
        Answer::Nothing => false,
        Answer::Job(job) => {
            drop(job);
            false
        }
        Answer::Sent(bytes) => {
            drop(bytes);
            false
        }
    }
}

// A request that has left the inbox for good ends its round without an error.
fn unless_gone(refusal: Refusal) -> Result<bool, Refusal>
    ensures { MatchResult result
        (λ moved. MatchBool moved ⊥ ((refusal ≡ Refusal.Trimmed) ⊎ (refusal ≡ Refusal.NoInodes)))
        (λ reason. (reason ≡ refusal) × (refusal ≢ Refusal.Trimmed) × (refusal ≢ Refusal.NoInodes)) }
{
    match refusal {
        Refusal::Trimmed => Ok(false),
        Refusal::NoInodes => Ok(false),
        other => Err(other),
    }
}
