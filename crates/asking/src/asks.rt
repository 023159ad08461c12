//! Asking: a request arrives and gets its answer.
ghost use Rattle.std.specs.Prelude.{◌≡◌, ◌≢◌, ◌+◌, ◌≤◌, ◌++◌, ◌∷◌, [], List, IfOk, OnOk, Err};
ghost use Rattle.std.specs.FinMap as map;
ghost use Rattle.std.specs.Result.{result_err};
ghost use Rattle.mds_types.specs.declared.entries.Entry.{Entry as Applied};
ghost use Rattle.objstore.specs.Objects.{faults_told};
ghost use Rattle.cluster_core.specs.OneThread.{InOrder, IsOneThread, StandsInHistory, waiting_in};
ghost use Rattle.cluster_core.specs.Sound.{GoesOnBehind, IsSoundKept, OfWhole};
ghost use Rattle.cluster_core.specs.State.{places_of, whole_of};
ghost use Rattle.cluster_core.specs.declared.events.Answer.TheVariants.{Nothing};
ghost use Rattle.asking.specs.Among.{AsksAmong};
ghost use Rattle.asking.specs.Ask.{Answers, AsksAlone, HasComeBehind, IsNewAtMaster, NoneWaits, Question};
ghost use Rattle.asking.specs.Drain.{waiting_in_all};
ghost use Rattle.asking.specs.Reached.{IsBroughtBy, LeadsTo, receipt_in};

use crate::drains::{Drained, drain};
use crate::grants::grant_all;
use crate::serves::{Served, serve};
use cluster_core::{Answer, Book, Event, Receipt};
use mds_types::{Rank, Refusal, Request};
use objstore::Store;
use std::alloc::Global;

/// Asks a request at a rank of a book in which nothing else waits. The request arrives there. That rank or its master
/// serves it, once each rank has granted what it needs. The answer is the reply that the history holds, never that the
/// request was forwarded or deferred. At most twenty steps are made, all of them for this request.
///
/// Refused `NotAuthority` exactly where there is no such rank. Refused `Trimmed` or `NoInodes` where serving it is
/// refused so; then the request has left. It is also refused if memory or the store refuses it, if a rank lacks places,
/// or `Frozen` if it would change a frozen fragment. After each of these last four the request still waits, alone.
#[inline(always)]
pub fn ask<S: Store + Drop>(
    alloc: Global,
    book: &mut Book<S>,
    rank: Rank,
    request: Request,
) -> Result<Receipt, Refusal>
    requires { NoneWaits book.old.core.state.inboxes }
    ensures asked { OfWhole book.old book.new (λ old new. AsksAlone old.core new.core old.history new.history rank
        request result) }
    ensures thawed { book.old.core.state.exports ≡ map.empty → result ≢ Err Refusal.Frozen }
    ensures none { OnOk result (NoneWaits book.new.core.state.inboxes) }
    ensures stands { OfWhole book.old book.new (λ _ new. IfOk result (λ receipt. StandsInHistory new.history
        receipt.client receipt.tid receipt.place receipt.reply)) }
    ensures one_thread { OfWhole book.old book.new (λ old new. IsOneThread old.core.state.tree.limit old.opening
        old.history new.history (request ∷ []) (receipt_in result)) }
    ensures in_order { InOrder (places_of book.old) (receipt_in result) (places_of book.new) }
    ensures reached { OfWhole book.old book.new (λ old new. IsBroughtBy request 20 result old new) }
    ensures limit { book.new.core.state.tree.limit ≡ book.old.core.state.tree.limit }
    ensures opening { book.new.opening ≡ book.old.opening }
    ensures goes_on { GoesOnBehind book.old book.new }
    ensures sound { IsSoundKept book.new }
    ensures counted { book.new.core.faults ≡ book.old.core.faults + faults_told (result_err result) }
{
    book.is_sound();
    let (client, tid) = (request.client, request.tid);
    match book.step(alloc, Event::Arrive { rank, request }) {
        Ok(answer) => {
            drop_nothing(answer);
            serve_first(alloc, book, rank, client, tid)
        }
        Err(refusal) => Err(refusal),
    }
}

// Drops an answer that is `Nothing`. Inlined into its callers this costs nothing.
#[inline(always)]
fn drop_nothing(answer: Answer)
    requires { answer ≡ Nothing }
{
    match answer {
        Answer::Nothing => {}
        Answer::Reply { .. }
        | Answer::Job(_)
        | Answer::Sent(_)
        | Answer::Forwarded(_)
        | Answer::Deferred => unreachable!(),
    }
}

// Serves the request at the rank where it arrived. The reply is taken from the step's answer at once, so that it is
// moved only once.
#[inline(always)]
fn serve_first<S: Store + Drop>(
    alloc: Global,
    book: &mut Book<S>,
    rank: Rank,
    client: u64,
    tid: u64,
) -> Result<Receipt, Refusal>
    requires { (q : Question) × (past : List Applied) × HasComeBehind q past book.old rank client tid }
    ensures asked { (q : Question) (past : List Applied) → HasComeBehind q past book.old rank client tid
        → Answers q (whole_of q.opening past book.new) result }
    ensures stands { OfWhole book.old book.new (λ _ new. IfOk result (λ receipt. StandsInHistory new.history
        receipt.client receipt.tid receipt.place receipt.reply)) }
    ensures reached { OfWhole book.old book.new (λ old new. LeadsTo client tid [] 19 (receipt_in result) (result_err
        result) old new) }
    ensures opening { book.new.opening ≡ book.old.opening }
    ensures goes_on { GoesOnBehind book.old book.new }
    ensures sound { IsSoundKept book.new }
    ensures counted { book.new.core.faults ≡ book.old.core.faults + faults_told (result_err result) }
{
    match book.step(alloc, Event::Serve { rank }) {
        Ok(
            Answer::Reply {
                client: whose,
                tid: number,
                place,
                first,
                reply,
            },
        ) => Ok(Receipt {
            client: whose,
            tid: number,
            place,
            first,
            reply,
        }),
        Ok(Answer::Forwarded(master)) => serve_there(alloc, book, master, client, tid),
        Ok(Answer::Deferred) => serve_granted(alloc, book, rank, client, tid),
        Ok(Answer::Nothing) => unreachable!(),
        Ok(Answer::Job(_)) => unreachable!(),
        Ok(Answer::Sent(_)) => unreachable!(),
        Err(refusal) => Err(refusal),
    }
}

// Serves the request at its master.
#[inline(never)]
fn serve_there<S: Store + Drop>(
    alloc: Global,
    book: &mut Book<S>,
    rank: Rank,
    client: u64,
    tid: u64,
) -> Result<Receipt, Refusal>
    requires { (q : Question) × (past : List Applied) × HasComeBehind q past book.old rank client tid
        × IsNewAtMaster q rank }
    ensures asked { (q : Question) (past : List Applied) → HasComeBehind q past book.old rank client tid
        → IsNewAtMaster q rank → Answers q (whole_of q.opening past book.new) result }
    ensures stands { OfWhole book.old book.new (λ _ new. IfOk result (λ receipt. StandsInHistory new.history
        receipt.client receipt.tid receipt.place receipt.reply)) }
    ensures reached { OfWhole book.old book.new (λ old new. LeadsTo client tid [] 18 (receipt_in result) (result_err
        result) old new) }
    ensures opening { book.new.opening ≡ book.old.opening }
    ensures goes_on { GoesOnBehind book.old book.new }
    ensures sound { IsSoundKept book.new }
    ensures counted { book.new.core.faults ≡ book.old.core.faults + faults_told (result_err result) }
{
    match serve(alloc, book, rank) {
        Ok(Served::Replied(receipt)) => Ok(receipt),
        Ok(Served::Goes(_)) => unreachable!(),
        Ok(Served::Waits) => serve_granted(alloc, book, rank, client, tid),
        Err(refusal) => Err(refusal),
    }
}

// Serves the request at its master, once each rank has granted what it needs.
#[inline(never)]
fn serve_granted<S: Store + Drop>(
    alloc: Global,
    book: &mut Book<S>,
    rank: Rank,
    client: u64,
    tid: u64,
) -> Result<Receipt, Refusal>
    requires { (q : Question) × (past : List Applied) × HasComeBehind q past book.old rank client tid
        × IsNewAtMaster q rank }
    ensures asked { (q : Question) (past : List Applied) → HasComeBehind q past book.old rank client tid
        → IsNewAtMaster q rank → Answers q (whole_of q.opening past book.new) result }
    ensures stands { OfWhole book.old book.new (λ _ new. IfOk result (λ receipt. StandsInHistory new.history
        receipt.client receipt.tid receipt.place receipt.reply)) }
    ensures reached { OfWhole book.old book.new (λ old new. LeadsTo client tid [] 17 (receipt_in result) (result_err
        result) old new) }
    ensures opening { book.new.opening ≡ book.old.opening }
    ensures goes_on { GoesOnBehind book.old book.new }
    ensures sound { IsSoundKept book.new }
    ensures counted { book.new.core.faults ≡ book.old.core.faults + faults_told (result_err result) }
{
    if let Err(refusal) = grant_all(alloc, book, client, tid) {
        return Err(refusal);
    }
    match serve(alloc, book, rank) {
        Ok(Served::Replied(receipt)) => Ok(receipt),
        Ok(Served::Goes(_)) => unreachable!(),
        Ok(Served::Waits) => unreachable!(),
        Err(refusal) => Err(refusal),
    }
}

/// The answers where a request was asked while others waited.
#[derive(Drop)]
pub struct Among {
    /// The replies to the others, in the order in which they were given.
    pub others: Vec<Receipt>,
    pub answer: Result<Receipt, Refusal>,
}

/// Asks a request at a rank of a book in which others may wait, at most 1024 in all. The others are answered first,
/// then this request is asked. If one of the others can't be served, this request doesn't arrive.
pub fn ask_among<S: Store + Drop>(
    alloc: Global,
    book: &mut Book<S>,
    rank: Rank,
    request: Request,
) -> Among
    requires { waiting_in_all book.old.core.state.inboxes ≤ 1024 }
    ensures one_thread { OfWhole book.old book.new (λ old new. IsOneThread old.core.state.tree.limit old.opening
        old.history new.history (waiting_in old.core.state.inboxes ++ request ∷ []) (result.others.items ++ receipt_in
        result.answer)) }
    ensures in_order { InOrder (places_of book.old)
        (result.others.items ++ receipt_in result.answer) (places_of book.new) }
    ensures asked { OfWhole book.old book.new (λ old new. AsksAmong old new result.others.items rank request
        result.answer) }
    ensures thawed { book.old.core.state.exports ≡ map.empty → result.answer ≢ Err Refusal.Frozen }
    ensures stands { OfWhole book.old book.new (λ _ new. IfOk result.answer (λ receipt. StandsInHistory new.history
        receipt.client receipt.tid receipt.place receipt.reply)) }
    ensures few { waiting_in_all book.new.core.state.inboxes ≤ 1024 }
    ensures opening { book.new.opening ≡ book.old.opening }
    ensures goes_on { GoesOnBehind book.old book.new }
    ensures sound { IsSoundKept book.new }
{
    let Drained {
        receipts: others,
        ended,
    } = drain(alloc, book);
    if let Err(refusal) = ended {
        drop(request);
        return Among {
            others,
            answer: Err(refusal),
        };
    }
    let answer = ask(alloc, book, rank, request);
    Among { others, answer }
}
