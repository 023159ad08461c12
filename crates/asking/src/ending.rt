//! Ending an export whose region is frozen, by the next steps of the export itself.
ghost use Rattle.std.specs.Prelude.{◌≡◌, ◌<◌, ℕ, List, Some, OnOk};
ghost use Rattle.std.specs.FinMap as map;
ghost use Rattle.export_steps.specs.declared.exports.ExportState.TheVariants as at;
ghost use Rattle.export_steps.specs.Standing.{state_at};
ghost use Rattle.cluster_core.specs.Exporting.{IsUnsent};
ghost use Rattle.cluster_core.specs.Sound.{GoesOnBehind, IsSoundKept, OfWhole};
ghost use Rattle.cluster_core.specs.declared.events.Answer.TheVariants.{Sent};
ghost use Rattle.asking.specs.Ending.{CancelsOr, EndsExport, EndsFrozen, HasEnded, TriesToSend};

use cluster_core::{Answer, Book, Event, KeptBytes};
use export_steps::ExportState;
use mds_types::{Frag, Ino, Refusal};
use objstore::Store;
use std::alloc::Global;

/// Ends the export of a root that is frozen, prepared, sent or imported, by its own next steps, at most four: Prep,
/// Send, Import with the bytes that it sent, Finish. The bytes of an earlier Send are taken from `kept`. The bytes of a
/// Send of this call are in `kept` until they are imported. With `cancel`, an export that can't be sent is cancelled.
///
/// Refused `WrongExportState` exactly where no export of this root has frozen its region. Also refused if memory is
/// refused or the importer lacks places, `Damaged` if `kept` has other bytes than were sent, and `TooManyFrags` as Send
/// is, never with `cancel`. In these cases the export still exists, and another call may end it.
pub fn end_export<S: Store + Drop>(
    alloc: Global,
    book: &mut Book<S>,
    kept: &mut KeptBytes,
    ino: Ino,
    frag: Frag,
    cancel: bool,
) -> Result<(), Refusal>
    ensures ends { OfWhole book.old book.new (λ old new. EndsExport cancel (ino, frag) old new kept.old kept.new
        result) }
    ensures opening { book.new.opening ≡ book.old.opening }
    ensures goes_on { GoesOnBehind book.old book.new }
    ensures sound { IsSoundKept book.new }
{
    book.is_sound();
    match state_of(book, ino, frag) {
        None => Err(Refusal::WrongExportState),
        Some(ExportState::Started) => Err(Refusal::WrongExportState),
        Some(ExportState::Frozen) => end_frozen(alloc, book, kept, ino, frag, cancel),
        Some(ExportState::Prepared) => end_prepared(alloc, book, kept, ino, frag, cancel),
        Some(ExportState::Sent) => end_sent(alloc, book, kept, ino, frag, cancel),
        Some(ExportState::Imported) => {
            finish(alloc, book, kept, ino, frag, cancel);
            Ok(())
        }
    }
}

// The state of the export of a root, if there is one.
fn state_of<S: Store + Drop>(book: &Book<S>, ino: Ino, frag: Frag) -> Option<ExportState>
    ensures { result ≡ state_at book.now.core.state.exports (ino, frag) }
{
    match book.cluster().exports().get(ino, frag) {
        Some(export) => Some(export.state),
        None => None,
    }
}

// Ends an export that is frozen.
fn end_frozen<S: Store + Drop>(
    alloc: Global,
    book: &mut Book<S>,
    kept: &mut KeptBytes,
    ino: Ino,
    frag: Frag,
    cancel: bool,
) -> Result<(), Refusal>
    requires { state_at book.old.core.state.exports (ino, frag) ≡ Some at.Frozen }
    ensures ends { OfWhole book.old book.new (λ old new. EndsFrozen cancel (ino, frag) 4 old new kept.old kept.new
        result) }
    ensures opening { book.new.opening ≡ book.old.opening }
    ensures goes_on { GoesOnBehind book.old book.new }
    ensures sound { IsSoundKept book.new }
{
    book.is_sound();
    match book.step(alloc, Event::Prep { ino, frag }) {
        Ok(answer) => {
            drop(answer);
            end_prepared(alloc, book, kept, ino, frag, cancel)
        }
        Err(refusal) => unless_cancelled(alloc, book, ino, frag, cancel, refusal),
    }
}

// Ends an export that is prepared.
fn end_prepared<S: Store + Drop>(
    alloc: Global,
    book: &mut Book<S>,
    kept: &mut KeptBytes,
    ino: Ino,
    frag: Frag,
    cancel: bool,
) -> Result<(), Refusal>
    requires { state_at book.old.core.state.exports (ino, frag) ≡ Some at.Prepared }
    ensures ends { OfWhole book.old book.new (λ old new. EndsFrozen cancel (ino, frag) 3 old new kept.old kept.new
        result) }
    ensures opening { book.new.opening ≡ book.old.opening }
    ensures goes_on { GoesOnBehind book.old book.new }
    ensures sound { IsSoundKept book.new }
{
    book.is_sound();
    match send(alloc, book, kept, ino, frag) {
        Ok(answer) => {
            keep_sent(kept, ino, frag, answer);
            end_sent(alloc, book, kept, ino, frag, cancel)
        }
        Err(refusal) => unless_cancelled(alloc, book, ino, frag, cancel, refusal),
    }
}

// Makes a Send, once room for its bytes is reserved: after it they can't be lost.
fn send<S: Store + Drop>(
    alloc: Global,
    book: &mut Book<S>,
    kept: &mut KeptBytes,
    ino: Ino,
    frag: Frag,
) -> Result<Answer, Refusal>
    ensures sends { OfWhole book.old book.new (λ old new. TriesToSend (ino, frag) old new result) }
    ensures room { OnOk result (0 < kept.new.room) }
    ensures bytes { kept.new.bytes ≡ kept.old.bytes }
    ensures opening { book.new.opening ≡ book.old.opening }
    ensures goes_on { GoesOnBehind book.old book.new }
    ensures sound { IsSoundKept book.new }
{
    book.is_sound();
    match kept.reserve() {
        Ok(()) => book.step(alloc, Event::Send { ino, frag }),
        Err(_) => Err(Refusal::NoMemory),
    }
}

// Keeps the bytes that a Send gave.
fn keep_sent(kept: &mut KeptBytes, ino: Ino, frag: Frag, answer: Answer)
    requires room { 0 < kept.old.room }
    requires sent { (bytes : List ℕ) × (answer ≡ Sent bytes) }
    ensures { (bytes : List ℕ) → answer ≡ Sent bytes → kept.new.bytes ≡ map.insert kept.old.bytes (ino, frag) bytes }
{
    match answer {
        Answer::Sent(bytes) => kept.keep(ino, frag, bytes),
        Answer::Nothing
        | Answer::Reply { .. }
        | Answer::Job(_)
        | Answer::Forwarded(_)
        | Answer::Deferred => unreachable!(),
    }
}

// Ends an export that is sent. The importer gets a copy of the bytes, since a refused Import consumes its bytes.
fn end_sent<S: Store + Drop>(
    alloc: Global,
    book: &mut Book<S>,
    kept: &mut KeptBytes,
    ino: Ino,
    frag: Frag,
    cancel: bool,
) -> Result<(), Refusal>
    requires { state_at book.old.core.state.exports (ino, frag) ≡ Some at.Sent }
    ensures ends { OfWhole book.old book.new (λ old new. EndsFrozen cancel (ino, frag) 2 old new kept.old kept.new
        result) }
    ensures opening { book.new.opening ≡ book.old.opening }
    ensures goes_on { GoesOnBehind book.old book.new }
    ensures sound { IsSoundKept book.new }
{
    book.is_sound();
    let Ok(bytes) = kept.copy_of(ino, frag) else {
        return Err(Refusal::NoMemory);
    };
    match book.step(alloc, Event::Import { ino, frag, bytes }) {
        Ok(answer) => {
            drop(answer);
            finish(alloc, book, kept, ino, frag, cancel);
            Ok(())
        }
        Err(refusal) => Err(refusal),
    }
}

// Finishes an export that is imported, which nothing can refuse, and removes its kept bytes.
fn finish<S: Store + Drop>(
    alloc: Global,
    book: &mut Book<S>,
    kept: &mut KeptBytes,
    ino: Ino,
    frag: Frag,
    cancel: bool,
)
    requires { state_at book.old.core.state.exports (ino, frag) ≡ Some at.Imported }
    ensures ends { OfWhole book.old book.new (λ old new. HasEnded cancel (ino, frag) 1 old new kept.old kept.new) }
    ensures opening { book.new.opening ≡ book.old.opening }
    ensures goes_on { GoesOnBehind book.old book.new }
    ensures sound { IsSoundKept book.new }
{
    book.is_sound();
    kept.forget(ino, frag);
    match book.step(alloc, Event::Finish { ino, frag }) {
        Ok(answer) => drop(answer),
        Err(_) => unreachable!(),
    }
}

// If a step before the Send was refused, cancels the export where the caller allows it. Nothing can refuse the Cancel.
fn unless_cancelled<S: Store + Drop>(
    alloc: Global,
    book: &mut Book<S>,
    ino: Ino,
    frag: Frag,
    cancel: bool,
    refusal: Refusal,
) -> Result<(), Refusal>
    requires { IsUnsent book.old.core.state (ino, frag) }
    ensures cancels { OfWhole book.old book.new (λ old new. CancelsOr cancel (ino, frag) old new refusal result) }
    ensures opening { book.new.opening ≡ book.old.opening }
    ensures goes_on { GoesOnBehind book.old book.new }
    ensures sound { IsSoundKept book.new }
{
    book.is_sound();
    if !cancel {
        return Err(refusal);
    }
    match book.step(alloc, Event::Cancel { ino, frag }) {
        Ok(answer) => {
            drop(answer);
            Ok(())
        }
        Err(_) => unreachable!(),
    }
}
