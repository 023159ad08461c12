//! Whether receipts agree with a history.
ghost use Rattle.std.specs.Prelude.{◌≡◌, ◌↔◌, ◌-◌, ◌<◌, ◌≤◌, ◌++◌, List, IfOk, IfErr, IsTrue, false, get_or, length, vec_len};
ghost use Rattle.std.specs.List.{AllByRecursion};
ghost use Rattle.cluster_core.specs.Opening.{Opening};
ghost use Rattle.mds_types.specs.declared.entries.Entry.{Entry as Applied};
ghost use Rattle.cluster_core.specs.OneThread.{Agree, first_places};
ghost use Rattle.cluster_core.specs.Sound.{StandsBehind};
ghost use Rattle.rank_threads.specs.Standing.{Fits, IsHeldAmong, HasEntry, StandAmong, places_marked};

use crate::replies::is_same;
use cluster_core::{Book, Receipt};
use mds_types::{Entry, Refusal};
use objstore::Store;
use std::alloc::{AllocError, Global};

/// Whether receipts agree with a book's history from a place on. Each receipt names a place that holds its client,
/// transaction number and reply. The receipts marked first name distinct places from that place on, as many as the
/// history has there. Places are counted from the first entry ever. A receipt whose entry is forgotten agrees with
/// nothing, since nobody can tell what that entry held. No receipt of a run has such an entry if the book forgot by
/// `Book::forget_passed` alone, since a run itself forgets nothing. Takes memory, a byte for each entry that isn't
/// forgotten. The only refusal is `NoMemory`.
pub fn audit<S: Store + Drop>(
    alloc: Global,
    book: &Book<S>,
    from: usize,
    receipts: &[Receipt],
) -> Result<bool, Refusal>
    ensures ok { (opening : Opening) (past : List Applied) → StandsBehind opening past book.now → IfOk result
        (λ yes. IsTrue yes ↔ (Agree (past ++ book.now.history) from receipts.now
        × AllByRecursion (HasEntry (length past)) receipts.now)) }
    ensures err { IfErr result (λ refusal. refusal ≡ Refusal.NoMemory) }
{
    let new = book.places().saturating_sub(from);
    match stand(alloc, book, from, receipts) {
        Ok(true) => Ok(count_firsts(receipts) == new),
        Ok(false) => Ok(false),
        Err(_) => Err(Refusal::NoMemory),
    }
}

/// Whether the entry at each receipt's place isn't forgotten and holds the receipt, and the receipts marked first name
/// distinct places from this place on.
pub(crate) fn stand<S: Store + Drop>(
    alloc: Global,
    book: &Book<S>,
    from: usize,
    receipts: &[Receipt],
) -> Result<bool, AllocError>
    ensures { IfOk result (λ yes. IsTrue yes
        ↔ StandAmong book.now.core.state.sessions.forgotten book.now.history from receipts.now) }
{
    let history = book.history();
    let forgotten = book.places() - history.len();
    stand_among(alloc, forgotten, history, from, receipts)
}

// `stand` with the kept entries, behind so many forgotten ones.
#[tactic(auto, using(crate::proofs::ReceiptLaws::marked_none, crate::proofs::ReceiptLaws::stand_end))]
fn stand_among(
    alloc: Global,
    forgotten: usize,
    history: &[Entry],
    from: usize,
    receipts: &[Receipt],
) -> Result<bool, AllocError>
    ensures { IfOk result (λ yes. IsTrue yes ↔ StandAmong forgotten history.now from receipts.now) }
{
    let mut named = vec![in alloc; false; history.len()]?;
    let mut left = receipts.len();
    while left > 0 {
        left -= 1;
        let receipt = &receipts[left];
        if !fits(forgotten, history, from, &named, receipt) {
            return Ok(false);
        }
        mark(forgotten, &mut named, receipt);
    }
    Ok(true)
}

// How many receipts are marked first.
#[tactic(auto, using(crate::proofs::ReceiptLaws::count_more))]
fn count_firsts(receipts: &[Receipt]) -> usize
    ensures { result ≡ length (first_places receipts.now) }
{
    let mut count = 0;
    for receipt in receipts {
        if receipt.first {
            count += 1;
        }
    }
    count
}

// Whether the history holds a receipt, and its place, if it is marked first, is a new one that isn't named yet.
fn fits(
    forgotten: usize,
    history: &[Entry],
    from: usize,
    named: &Vec<bool>,
    receipt: &Receipt,
) -> bool
    requires { vec_len named.now ≡ length history.now }
    ensures { IsTrue result ↔ Fits forgotten history.now from named.now.items receipt.now }
{
    is_held(forgotten, history, receipt)
        && (!receipt.first
            || (from <= receipt.place && !is_named(named, receipt.place - forgotten)))
}

// Whether a place is named.
fn is_named(named: &Vec<bool>, place: usize) -> bool
    ensures { result ≡ get_or named.now.items place false }
{
    match named.get(place) {
        Some(yes) => *yes,
        None => false,
    }
}

// Names the place of a receipt that is marked first.
fn mark(forgotten: usize, named: &mut Vec<bool>, receipt: &Receipt)
    requires there { HasEntry forgotten receipt.now }
    requires below { receipt.now.place - forgotten < vec_len named.old }
    ensures { named.new.items ≡ places_marked forgotten named.old.items receipt.now }
{
    if receipt.first {
        named[receipt.place - forgotten] = true;
    }
}

// Whether a receipt's place isn't forgotten, and holds its client, transaction number and reply.
fn is_held(forgotten: usize, history: &[Entry], receipt: &Receipt) -> bool
    ensures { IsTrue result ↔ IsHeldAmong forgotten history.now receipt.now }
{
    if receipt.place < forgotten {
        return false;
    }
    match history.get(receipt.place - forgotten) {
        Some(entry) => {
            entry.client == receipt.client
                && entry.tid == receipt.tid
                && is_same(&entry.reply, &receipt.reply)
        }
        None => false,
    }
}
