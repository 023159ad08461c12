//! A whole run of `cephmeta serve`.
ghost use Rattle.std.specs.Prelude.{◌≡◌, ◌⊎◌, ◌≤◌, IfErr, IfOk, IfSome, IsTrue, false, vec_len};
ghost use Rattle.admin_cli.specs.Left.{BookGrows};
ghost use Rattle.admin_cli.specs.Loads.{IsLoad};
ghost use Rattle.admin_cli.specs.Reports.{IsText, OpensEmpty, ServesOut};

use crate::workload::loads::Load;
use crate::workload::plans::plans_of;
use crate::workload::reports::report;
use crate::workload::setup::make_homes;
use crate::workload::steps::forget_passed;
use cluster_core::{Book, PlainTree, format};
use keeping::Keep;
use mds_types::Limit;
use objstore::{MemStore, Store};
use rank_threads::{Gate, OpenGate, Outcome, RunError, RunFault, Turn, run_cluster};
use script_output::{WriteFault, write_all_of};
use std::alloc::Global;
use std::io::Write;
use std::sync::Wait;
use std::thread::Threads;
use thiserror::Error;

/// Why a run failed.
#[derive(Clone, Copy, Debug, PartialEq, Eq, Error)]
pub enum ServeFault {
    /// A run fault: 1 if memory was refused or a step of one thread was, 2 if a thread couldn't be made, 3 if the
    /// receipts don't agree with the history.
    #[error("fault {0}")]
    Fault(u8),
    /// The writer failed, or took no byte.
    #[error("write fault")]
    Write,
}

/// Runs a load over a cluster with an empty tree. One thread makes each client's directory. Then the ranks' threads
/// create files in the directories and commit after each tenth, while workers encode. The text that is written tells
/// how many requests were applied, whether the audit holds, and every path below the root, one a line and sorted by
/// bytes. At the run faults 1 and 2 nothing is written. At run fault 3 the text tells that the audit failed. At a write
/// fault a beginning of the text is written.
pub fn run_serve<W: Write, R: Threads + Wait + Sync + AllocGlobal>(
    rt: &R,
    writer: &mut W,
    ranks: u8,
    workers: u8,
    clients: u8,
    creates: u16,
) -> Result<(), ServeFault>
    requires { IsLoad ranks workers clients creates }
    ensures { ServesOut (W.contents writer.old) (W.contents writer.new) result }
{
    let load = Load {
        ranks,
        workers,
        clients,
        creates,
    };
    run_watched(rt, writer, load, &OpenGate)
}

/// Runs a load as `run_serve` does, and calls the gate before each encoding and after each reply.
pub fn run_watched<W: Write, R: Threads + Wait + Sync + AllocGlobal, G: Gate>(
    rt: &R,
    writer: &mut W,
    load: Load,
    gate: &G,
) -> Result<(), ServeFault>
    requires { IsLoad load.ranks load.workers load.clients load.creates }
    ensures { ServesOut (W.contents writer.old) (W.contents writer.new) result }
{
    match new_book(rt.alloc(), load.ranks) {
        Some(book) => {
            let Served { book, ended } = run_over_book(rt, writer, book, load, gate);
            drop(book);
            ended
        }
        none => {
            drop(none);
            Err(ServeFault::Fault(RunFault::NoMemory.number()))
        }
    }
}

/// How many fragments each rank may cache.
pub const CACHE: u32 = 4096;

// A new book over an empty store in memory.
#[tactic(auto, using(crate::proofs::GoesOnLaws::opens_fresh))]
fn new_book(alloc: Global, ranks: u8) -> Option<Book<MemStore>>
    requires some { 1 ≤ ranks }
    requires ranked { ranks ≤ 16 }
    ensures { IfSome result OpensEmpty }
{
    match format(alloc, MemStore::new(alloc), ranks, CACHE, Limit::MAX) {
        Ok(book) => Some(book),
        Err(back) => {
            drop(back);
            None
        }
    }
}

/// Whether a book is known to have opened with the empty tree and with no session: it still keeps its opening tree,
/// which is empty, and it has given no reply.
#[tactic(auto, using(crate::proofs::GoesOnLaws::opens_empty_of))]
pub fn opens_empty<S: Store + Drop>(alloc: Global, book: &Book<S>) -> bool
    ensures { IsTrue result → OpensEmpty book.now }
{
    book.is_sound();
    if book.places() > 0 {
        return false;
    }
    let empty = PlainTree::new(alloc);
    let is_empty = match book.opening() {
        Some(tree) => tree.eq(&empty),
        None => false,
    };
    drop(empty);
    is_empty
}

/// A load that was run, and the book after it.
#[derive(Drop)]
pub struct Served<S: Keep + Drop> {
    pub book: Book<S>,
    pub ended: Result<(), ServeFault>,
}

/// Runs a load as `run_watched` does, over a book of as many ranks that opened with the empty tree. Before the threads
/// start, the book forgets the entries that no client may repeat. Whatever the outcome, the returned book opened with
/// that tree, and its whole history begins with the whole history from before.
pub fn run_over_book<W, S, R, G>(
    rt: &R,
    writer: &mut W,
    book: Book<S>,
    load: Load,
    gate: &G,
) -> Served<S>
where
    W: Write,
    S: Keep + Drop + Send,
    R: Threads + Wait + Sync + AllocGlobal,
    G: Gate,
    requires load { IsLoad load.ranks load.workers load.clients load.creates }
    requires opening { OpensEmpty book }
    ensures served { ServesOut (W.contents writer.old) (W.contents writer.new) result.ended }
    ensures left { BookGrows book result.book }
{
    let Loaded { book, gave } = run_load(rt, book, load, gate);
    let ended = match gave {
        Ok(printed) => print(writer, printed),
        Err(number) => Err(ServeFault::Fault(number)),
    };
    Served { book, ended }
}

/// The text that a run prints, and whether its receipts agreed.
#[derive(Drop)]
struct Printed {
    text: Vec<u8>,
    agrees: bool,
}

// The result of a run, the text or the number of the run fault, and the book after it.
#[derive(Drop)]
struct Loaded<S: Keep + Drop> {
    book: Book<S>,
    gave: Result<Printed, u8>,
}

// Runs a load.
#[tactic(auto, using(crate::proofs::GoesOnLaws::goes_on_here, crate::proofs::GoesOnLaws::goes_on_past, crate::proofs::GoesOnLaws::goes_on_run))]
fn run_load<S, R, G>(rt: &R, mut book: Book<S>, load: Load, gate: &G) -> Loaded<S>
where
    S: Keep + Drop + Send,
    R: Threads + Wait + Sync + AllocGlobal,
    G: Gate,
    requires load { IsLoad load.ranks load.workers load.clients load.creates }
    requires opening { OpensEmpty book }
    ensures ok { IfOk result.gave (λ p. IsText p.agrees p.text.items) }
    ensures err { IfErr result.gave (λ number. (number ≡ 1) ⊎ (number ≡ 2)) }
    ensures left { BookGrows book result.book }
{
    let alloc = rt.alloc();
    let plans = planned(alloc, &mut book, load);
    let Some(plans) = plans else {
        return Loaded {
            book,
            gave: Err(RunFault::NoMemory.number()),
        };
    };
    // the book keeps each entry that a receipt of the run may name
    forget_passed(&mut book);
    match run_cluster(rt, alloc, book, plans, load.workers, gate) {
        Ok(Outcome { book, .. }) => reported(alloc, book, true),
        Err(RunError { fault, book }) => failed(alloc, book, fault),
    }
}

// Makes the directories of all clients, and lists the turns of each rank's thread. None if memory or a step is refused.
#[tactic(auto, using(crate::proofs::GoesOnLaws::goes_on_here, crate::proofs::GoesOnLaws::goes_on_past, crate::proofs::GoesOnLaws::goes_on_run))]
fn planned<S: Keep + Drop>(alloc: Global, book: &mut Book<S>, load: Load) -> Option<Vec<Vec<Turn>>>
    requires { IsLoad load.ranks load.workers load.clients load.creates }
    ensures goes_on { BookGrows book.old book.new }
    ensures ranks { IfSome result (λ plans. vec_len plans ≡ load.ranks) }
{
    let homes = make_homes(alloc, book, load.ranks, load.clients)?;
    plans_of(alloc, load.ranks, homes.as_slice(), load.creates)
}

// The text of a run that gave no outcome. If the history doesn't hold a reply, it is the text of a success but for one
// word; otherwise there is only the number of the fault.
#[tactic(auto, using(crate::proofs::GoesOnLaws::goes_on_here, crate::proofs::GoesOnLaws::goes_on_past, crate::proofs::GoesOnLaws::goes_on_run))]
fn failed<S: Keep + Drop>(alloc: Global, book: Book<S>, fault: RunFault) -> Loaded<S>
    requires opening { OpensEmpty book }
    ensures ok { IfOk result.gave (λ p. IsText p.agrees p.text.items) }
    ensures strayed { IfOk result.gave (λ p. p.agrees ≡ false) }
    ensures err { IfErr result.gave (λ number. (number ≡ 1) ⊎ (number ≡ 2)) }
    ensures left { BookGrows book result.book }
{
    if fault == RunFault::Strayed {
        return reported(alloc, book, false);
    }
    Loaded {
        book,
        gave: Err(fault.number()),
    }
}

// The text of a run that ended.
#[tactic(auto, using(crate::proofs::GoesOnLaws::goes_on_here, crate::proofs::GoesOnLaws::goes_on_past, crate::proofs::GoesOnLaws::goes_on_run))]
fn reported<S: Keep + Drop>(alloc: Global, book: Book<S>, agrees: bool) -> Loaded<S>
    requires opening { OpensEmpty book }
    ensures ok { IfOk result.gave (λ p. IsText p.agrees p.text.items) }
    ensures agrees { IfOk result.gave (λ p. p.agrees ≡ agrees) }
    ensures err { IfErr result.gave (λ number. number ≡ 1) }
    ensures left { BookGrows book result.book }
{
    let mut book = book;
    match report(alloc, &mut book, agrees) {
        Some(text) => Loaded {
            book,
            gave: Ok(Printed { text, agrees }),
        },
        None => Loaded {
            book,
            gave: Err(RunFault::NoMemory.number()),
        },
    }
}

// Writes the text.
fn print<W: Write>(writer: &mut W, printed: Printed) -> Result<(), ServeFault>
    requires { IsText printed.agrees printed.text.items }
    ensures { ServesOut (W.contents writer.old) (W.contents writer.new) result }
{
    let Printed { text, agrees } = printed;
    match write_all_of(writer, text.as_slice()) {
        Ok(()) if agrees => Ok(()),
        Ok(()) => Err(ServeFault::Fault(RunFault::Strayed.number())),
        Err(WriteFault) => Err(ServeFault::Write),
    }
}
