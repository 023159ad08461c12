//! A run of a book on many threads.
ghost use Rattle.std.specs.Prelude.{◌≡◌, ◌+◌, ◌≤◌, ◌++◌, Contains, List, IfOk, IfErr, vec_len};
ghost use Rattle.std.specs.List.{AllByRecursion};
ghost use Rattle.cluster_core.specs.Opening.{Opening};
ghost use Rattle.mds_types.specs.declared.entries.Entry.{Entry as Applied};
ghost use Rattle.cluster_core.specs.OneThread.{Agree, IsAskedFor, IsOneThread, waiting_in};
ghost use Rattle.cluster_core.specs.Sound.{StandsBehind};
ghost use Rattle.cluster_core.specs.State.{places_of};
ghost use Rattle.rank_threads.specs.Continued.{Continues};
ghost use Rattle.rank_threads.specs.Sent.{Serves, plans_arrivals};
ghost use Rattle.rank_threads.specs.Standing.{StandAmong};
ghost use Rattle.rank_threads.specs.TookTurn.{PlansTook, by_rank, kept_of};
ghost use Rattle.rank_threads.specs.Turns.{PlansAnswered, firsts_of_all, lists_of, receipts_of_all};

use crate::desks::{Desk, Handed};
use crate::gates::Gate;
use crate::outcomes::{Outcome, RunError, RunFault};
use crate::plans::Turn;
use crate::prepared::prepare;
use crate::ranks::Answered;
use crate::receipts::receipts_of_all;
use crate::scopes::{Ran, run_all};
use crate::standing::stand;
use cluster_core::{Book, Receipt};
use objstore::Store;
use std::alloc::Global;
use std::marker::Brand;
use std::sync::ledger::Blank;
use std::sync::{Mutex, Wait};
use std::thread::Threads;

/// Runs a book on many threads: one for each plan, the first of which is rank 0's, and so many workers beside them. A
/// rank's thread makes the turns of its plan, and takes the lock of the book once for each. A worker encodes a commit
/// that a turn began, with no lock held. The calling thread ends the commit; where that is refused for another reason
/// than a stale job, it gives the commit up. The memory that the threads need is taken before the first lock, except
/// the memory of the steps, the messages and the receipts.
///
/// Whatever the schedule was, the run returns a sound book. Whatever opening tree and past the book handed in goes on
/// from, the returned book goes on from too. Its history begins with the history handed in: a run forgets nothing.
/// Where the run succeeds, each turn of each plan has a result. The receipts are the replies among the results. They
/// are those of one thread that serves one plain tree the requests that waited and those that the plans bring. Each
/// turn did what it says, with its result. Each thread returns the bytes that its turns sent or kept, and that none of
/// its turns imported.
///
/// The run waits for its threads. It fails with `NoMemory` if memory was refused, and with `Spawn` if a thread couldn't
/// be made. It fails with `Strayed` if the history doesn't hold a reply that was handed out, or if the entry of that
/// reply was forgotten before: `Book::forget_passed` forgets no entry whose reply may be handed out again, but
/// `Book::forget` may.
pub fn run_cluster<S, G, R>(
    rt: &R,
    alloc: Global,
    book: Book<S>,
    plans: Vec<Vec<Turn>>,
    workers: u8,
    gate: &G,
) -> Result<Outcome<S>, RunError<S>>
where
    S: Store + Drop + Send,
    G: Gate,
    R: Threads + Wait + Sync,
    requires planned { vec_len plans ≤ 16 }
    requires some { 1 ≤ workers }
    requires most { workers ≤ 16 }
    ensures ok { IfOk result (λ o. Continues book o.book) }
    ensures err { IfErr result (λ e. Continues book e.book) }
    ensures answered { IfOk result (λ o. PlansAnswered (lists_of plans.items) (lists_of o.answers.items)) }
    ensures took { IfOk result (λ o.
        PlansTook (by_rank (lists_of plans.items)) (lists_of o.answers.items) (kept_of o.kept.items)) }
    ensures told { IfOk result (λ o. o.receipts.items ≡ receipts_of_all (lists_of o.answers.items)) }
    ensures one_thread { (opening : Opening) (past : List Applied) → StandsBehind opening past book → IfOk result
        (λ o. IsOneThread book.core.state.tree.limit opening (past ++ book.history) (past ++ o.book.history)
        (waiting_in book.core.state.inboxes ++ plans_arrivals (lists_of plans.items)) o.receipts.items) }
    ensures waits { IfOk result (λ o.
        AllByRecursion (Contains (waiting_in book.core.state.inboxes ++ plans_arrivals (lists_of plans.items)))
        (waiting_in o.book.core.state.inboxes)) }
{
    let blank = Blank::new(plans.len() as u64 + 1);
    let asked = Asked { plans, workers };
    run_as::<S, Brand, G, R>(rt, alloc, book, blank, asked, gate)
}

// What a caller asks of a run: the turns of each rank's thread, and the number of workers.
#[derive(Drop)]
struct Asked {
    plans: Vec<Vec<Turn>>,
    workers: u8,
}

// Runs a book under a ledger that was picked for this run.
fn run_as<S, L, G, R>(
    rt: &R,
    alloc: Global,
    book: Book<S>,
    blank: Blank,
    asked: Asked,
    gate: &G,
) -> Result<Outcome<S>, RunError<S>>
where
    S: Store + Drop + Send,
    L: Handed + Send + Sync,
    G: Gate,
    R: Threads + Wait + Sync,
    requires name { blank.name ≡ L.name }
    requires parts { blank.parts ≡ L.parts }
    requires each { blank.parts ≡ vec_len asked.plans + 1 }
    requires few { vec_len asked.plans ≤ 16 }
    requires first { L.first ≡ book }
    requires sent { L.sent ≡ waiting_in book.core.state.inboxes ++ plans_arrivals (lists_of asked.plans.items) }
    ensures ok { IfOk result (λ o. Continues book o.book) }
    ensures err { IfErr result (λ e. Continues book e.book) }
    ensures answered { IfOk result (λ o. PlansAnswered (lists_of asked.plans.items) (lists_of o.answers.items)) }
    ensures took { IfOk result (λ o.
        PlansTook (by_rank (lists_of asked.plans.items)) (lists_of o.answers.items) (kept_of o.kept.items)) }
    ensures told { IfOk result (λ o. o.receipts.items ≡ receipts_of_all (lists_of o.answers.items)) }
    ensures one_thread { (opening : Opening) (past : List Applied) → StandsBehind opening past book → IfOk result
        (λ o. IsOneThread book.core.state.tree.limit opening (past ++ book.history) (past ++ o.book.history)
        (waiting_in book.core.state.inboxes ++ plans_arrivals (lists_of asked.plans.items)) o.receipts.items) }
    ensures waits { IfOk result (λ o.
        AllByRecursion (Contains (waiting_in book.core.state.inboxes ++ plans_arrivals (lists_of asked.plans.items)))
        (waiting_in o.book.core.state.inboxes)) }
    ensures agree { (opening : Opening) (past : List Applied) → StandsBehind opening past book → IfOk result
        (λ o. Agree (past ++ o.book.history) (places_of book) o.receipts.items) }
{
    book.is_sound();
    let from = book.places();
    let (mut total, mut all) = blank.open::<L>();
    total.add(&mut all, from as u64);
    let Asked { plans, workers } = asked;
    let Ok(needs) = prepare(alloc, plans, workers, all) else {
        return Err(RunError {
            fault: RunFault::NoMemory,
            book,
        });
    };
    let desk = Mutex::new(Desk { book, total });
    let ran = run_all(rt, alloc, &desk, gate, needs);
    let desk = desk.into_inner();
    match ran {
        Ok(ran) => settled(alloc, desk, from, ran),
        Err(fault) => Err(RunError {
            fault,
            book: desk.close(),
        }),
    }
}

// The outcome of a run, once its threads have ended. Each receipt is looked up in the history. The shares tell how many
// receipts are marked first.
fn settled<S: Store + Drop, L: Handed>(
    alloc: Global,
    desk: Desk<S, L>,
    from: usize,
    ran: Ran<L>,
) -> Result<Outcome<S>, RunError<S>>
    requires parts { ran.all.parts ≡ L.parts }
    requires from { from ≡ places_of L.first }
    requires amount { ran.all.amount ≡ places_of L.first + firsts_of_all (lists_of ran.answers.items) }
    requires asked_for { ∥ AllByRecursion (IsAskedFor L.sent) (receipts_of_all (lists_of ran.answers.items)) ∥₁ }
    ensures ok { IfOk result (λ o. Continues L.first o.book) }
    ensures err { IfErr result (λ e. Continues L.first e.book) }
    ensures told { IfOk result (λ o. o.receipts.items ≡ receipts_of_all (lists_of o.answers.items)) }
    ensures one_thread { (opening : Opening) (past : List Applied) → StandsBehind opening past L.first → IfOk result
        (λ o. IsOneThread L.first.core.state.tree.limit opening (past ++ L.first.history) (past ++ o.book.history)
        L.sent o.receipts.items) }
    ensures waits { IfOk result (λ o. AllByRecursion (Contains L.sent) (waiting_in o.book.core.state.inboxes)) }
    ensures agree { (opening : Opening) (past : List Applied) → StandsBehind opening past L.first → IfOk result
        (λ o. Agree (past ++ o.book.history) (places_of L.first) o.receipts.items) }
    ensures answers { IfOk result (λ o. o.answers ≡ ran.answers) }
    ensures kept { IfOk result (λ o. o.kept ≡ ran.kept) }
{
    let Ran {
        answers,
        kept,
        commits,
        mut all,
    } = ran;
    let book = desk.settle(&mut all);
    match checked(alloc, &book, from, &answers) {
        Ok(receipts) => Ok(Outcome {
            book,
            answers,
            kept,
            receipts,
            commits,
        }),
        Err(fault) => Err(RunError { fault, book }),
    }
}

// The receipts of the replies among all results, if the history holds each at its place and its entry isn't forgotten.
fn checked<S: Store + Drop>(
    alloc: Global,
    book: &Book<S>,
    from: usize,
    answers: &Vec<Vec<Answered>>,
) -> Result<Vec<Receipt>, RunFault>
    ensures told { IfOk result (λ receipts. receipts.items ≡ receipts_of_all (lists_of answers.now.items)) }
    ensures stand { IfOk result (λ receipts.
        StandAmong book.now.core.state.sessions.forgotten book.now.history from receipts.items) }
{
    let Ok(receipts) = receipts_of_all(alloc, answers) else {
        return Err(RunFault::NoMemory);
    };
    match stand(alloc, book, from, receipts.as_slice()) {
        Ok(true) => Ok(receipts),
        Ok(false) => Err(RunFault::Strayed),
        Err(_) => Err(RunFault::NoMemory),
    }
}
