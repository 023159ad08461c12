//! Asking through exports: an export whose frozen region a request would change is ended first.
ghost use Rattle.std.specs.Prelude.{◌≡◌, ◌≢◌, ◌∷◌, [], Err, IfOk, MatchOption, MatchResult};
ghost use Rattle.cluster_core.specs.OneThread.{InOrder, IsOneThread, StandsInHistory};
ghost use Rattle.cluster_core.specs.Sound.{GoesOnBehind, IsSoundKept, OfWhole};
ghost use Rattle.cluster_core.specs.State.{places_of};
ghost use Rattle.asking.specs.Ask.{NoneWaits};
ghost use Rattle.asking.specs.Ending.{HasAllBytes, IsFreezing, NoneFreezing, NoneFreezingOf};
ghost use Rattle.asking.specs.Reached.{receipt_in};
ghost use Rattle.asking.specs.Through.{AsksCopy, AsksThrough, CantSend, IsToldOf};

use crate::ending::end_export;
use crate::services::ask_once;
use cluster_core::{Book, KeptBytes, Receipt};
use export_steps::Exports;
use mds_types::{Frag, Ino, Rank, Refusal, Request};
use objstore::Store;
use std::alloc::Global;

/// Asks a request at a rank of a book in which nothing else waits, as `ask_once` does. If the request would change
/// frozen fragments, exports are ended one after the other, in the order of their exporters and roots, until it
/// wouldn't. Each export takes at most four steps of its own (`end_export`). Nothing waits afterwards, whatever the
/// answer is.
///
/// Refused as `ask_once` is, but never `Frozen` if each export could be ended. An export that can't be ended refuses
/// the request: if memory is refused, or the importer lacks places; and `Frozen` if `kept` has other bytes than the
/// export sent, or, without `cancel`, if the export has too many dirty names.
pub fn ask_through<S: Store + Drop>(
    alloc: Global,
    book: &mut Book<S>,
    kept: &mut KeptBytes,
    rank: Rank,
    request: Request,
    cancel: bool,
) -> Result<Receipt, Refusal>
    requires { NoneWaits book.old.core.state.inboxes }
    ensures one_thread { OfWhole book.old book.new (λ old new. IsOneThread old.core.state.tree.limit old.opening
        old.history new.history (request ∷ []) (receipt_in result)) }
    ensures in_order { InOrder (places_of book.old) (receipt_in result) (places_of book.new) }
    ensures asked { OfWhole book.old book.new (λ old new. AsksThrough cancel rank request old new kept.old kept.new
        result) }
    ensures thawed { HasAllBytes book.old.core.state kept.old → result ≡ Err Refusal.Frozen → CantSend cancel book.new.core.state }
    ensures none { NoneWaits book.new.core.state.inboxes }
    ensures stands { OfWhole book.old book.new (λ _ new. IfOk result (λ receipt. StandsInHistory new.history
        receipt.client receipt.tid receipt.place receipt.reply)) }
    ensures limit { book.new.core.state.tree.limit ≡ book.old.core.state.tree.limit }
    ensures opening { book.new.opening ≡ book.old.opening }
    ensures goes_on { GoesOnBehind book.old book.new }
    ensures sound { IsSoundKept book.new }
{
    book.is_sound();
    while let Some(root) = first_frozen(book) {
        match ask_copy(alloc, book, rank, &request) {
            Ok(receipt) => {
                drop(request);
                return Ok(receipt);
            }
            Err(refusal) => {
                if let Err(other) = unless_frozen(refusal) {
                    drop(request);
                    return Err(other);
                }
            }
        }
        if let Err(refusal) = end_export(alloc, book, kept, root.0, root.1, cancel) {
            drop(request);
            return Err(told_of(refusal));
        }
    }
    ask_once(alloc, book, rank, request)
}

// Asks a copy of a request. The request itself is asked once no export is frozen any more.
fn ask_copy<S: Store + Drop>(
    alloc: Global,
    book: &mut Book<S>,
    rank: Rank,
    request: &Request,
) -> Result<Receipt, Refusal>
    requires { NoneWaits book.old.core.state.inboxes }
    ensures one_thread { OfWhole book.old book.new (λ old new. IsOneThread old.core.state.tree.limit old.opening
        old.history new.history (request.now ∷ []) (receipt_in result)) }
    ensures in_order { InOrder (places_of book.old) (receipt_in result) (places_of book.new) }
    ensures asked { OfWhole book.old book.new (λ old new. AsksCopy old new rank request.now result) }
    ensures none { NoneWaits book.new.core.state.inboxes }
    ensures stands { OfWhole book.old book.new (λ _ new. IfOk result (λ receipt. StandsInHistory new.history
        receipt.client receipt.tid receipt.place receipt.reply)) }
    ensures limit { book.new.core.state.tree.limit ≡ book.old.core.state.tree.limit }
    ensures opening { book.new.opening ≡ book.old.opening }
    ensures goes_on { GoesOnBehind book.old book.new }
    ensures sound { IsSoundKept book.new }
{
    book.is_sound();
    match request.try_clone() {
        Ok(copy) => ask_once(alloc, book, rank, copy),
        Err(_) => Err(Refusal::NoMemory),
    }
}

// A frozen fragment is no error here: an export is ended next.
fn unless_frozen(refusal: Refusal) -> Result<(), Refusal>
    ensures { MatchResult result (λ done. refusal ≡ Refusal.Frozen)
        (λ reason. (reason ≡ refusal) × (refusal ≢ Refusal.Frozen)) }
{
    match refusal {
        Refusal::Frozen => Ok(()),
        other => Err(other),
    }
}

// The refusal of a request whose export can't be ended.
fn told_of(refusal: Refusal) -> Refusal
    ensures { IsToldOf refusal result }
{
    match refusal {
        Refusal::NoMemory => Refusal::NoMemory,
        Refusal::NothingToEvict => Refusal::NothingToEvict,
        _ => Refusal::Frozen,
    }
}

// The root of the first export that is frozen to imported, in the order of exporters and then of roots.
fn first_frozen<S: Store + Drop>(book: &Book<S>) -> Option<(Ino, Frag)>
    ensures { MatchOption result
        (NoneFreezing book.now.core.state.exports) (IsFreezing book.now.core.state.exports) }
{
    book.is_sound();
    for rank in 0..16 {
        if let Some(root) = first_of(book.cluster().exports(), Rank(rank)) {
            return Some(root);
        }
    }
    None
}

// The root of the first such export of a rank.
fn first_of(exports: &Exports, rank: Rank) -> Option<(Ino, Frag)>
    ensures { MatchOption result (NoneFreezingOf exports.now rank) (IsFreezing exports.now) }
{
    let mut after = None;
    while let Some(found) = exports.next_of(rank, after) {
        if found.1.state.is_freezing() {
            return Some(found.0);
        }
        after = Some(found.0);
    }
    None
}
