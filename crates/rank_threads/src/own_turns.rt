//! The steps that a rank proposes and makes itself.
ghost use Rattle.std.specs.Prelude.{◌≡◌, Ok, Some};
ghost use Rattle.std.specs.FinMap as map;
ghost use Rattle.cluster_core.specs.declared.events.Event.TheVariants.{Send};
ghost use Rattle.cluster_core.specs.Proposal.{Proposes};
ghost use Rattle.cluster_core.specs.SentBytes.{none_sent};
ghost use Rattle.cluster_core.specs.Sound.{IsSoundKept, OfWhole};
ghost use Rattle.cluster_core.specs.State.{Core};
ghost use Rattle.rank_threads.specs.OneStep.{answer_of};
ghost use Rattle.rank_threads.specs.OwnTurn.{KeepsBytes, StepsOwn, TakesOwnTurn, import_with, step_of};

use crate::desks::{Desk, Handed};
use cluster_core::{Answer, Event, KeptBytes};
use mds_types::{Bytes, Frag, Ino, Rank, Refusal};
use objstore::Store;
use std::alloc::Global;

/// The rank whose turns a thread makes. It keeps the bytes that the rank's exports sent, from their Send to their
/// Import.
#[derive(Drop)]
pub(crate) struct OwnTurns {
    pub(crate) rank: Rank,
    pub(crate) kept: KeptBytes,
}

impl OwnTurns {
    /// A rank that has sent nothing. Takes no memory.
    pub(crate) fn new(alloc: Global, rank: Rank) -> OwnTurns
        ensures { result ≡ record { rank = rank; kept = none_sent } }
    {
        OwnTurns {
            rank,
            kept: KeptBytes::new(alloc),
        }
    }

    /// Keeps the bytes of an export that was sent before the run.
    pub(crate) fn keep(&mut self, ino: Ino, frag: Frag, bytes: Bytes) -> Result<(), Refusal>
        ensures rank { self.new.rank ≡ self.old.rank }
        ensures kept { KeepsBytes self.old.kept.bytes self.new.kept.bytes (ino, frag) bytes result }
    {
        if self.kept.reserve().is_err() {
            return Err(Refusal::NoMemory);
        }
        self.kept.keep(ino, frag, bytes);
        Ok(())
    }
}

impl<S: Store + Drop, L: Handed> Desk<S, L> {
    /// A rank proposes a step of its own and makes it. An Import gets the bytes that the rank's thread keeps; if the
    /// thread doesn't keep them, no step is made. The history doesn't change. Returns whether a step was made.
    #[tactic(auto, using(crate::proofs::OwnTurnLaws::took_behind))]
    pub(crate) fn own(&mut self, alloc: Global, own: &mut OwnTurns) -> Result<bool, Refusal>
        ensures rank { own.new.rank ≡ own.old.rank }
        ensures turn { OfWhole self.old.book self.new.book (λ old new. TakesOwnTurn old new own.old.rank
            own.old.kept.bytes own.new.kept.bytes result) }
        ensures sound { IsSoundKept self.old.book }
    {
        self.book.is_sound();
        match self.book.propose(own.rank) {
            Ok(Some(event)) => self.make(alloc, &mut own.kept, event),
            Ok(None) => Ok(false),
            Err(refusal) => Err(refusal),
        }
    }

    // Makes a step that a rank proposed.
    #[tactic(auto, using(crate::proofs::OwnTurnLaws::made_other, crate::proofs::StepLaws::made_step))]
    fn make(&mut self, alloc: Global, kept: &mut KeptBytes, event: Event) -> Result<bool, Refusal>
        requires { (core : Core) × (rank : Rank) × Proposes core rank (Ok (Some event)) }
        ensures { OfWhole self.old.book self.new.book (λ old new. StepsOwn old new kept.old.bytes kept.new.bytes
            (step_of kept.old.bytes event) result) }
    {
        self.book.is_sound();
        match event {
            Event::Send { ino, frag } => self.send(alloc, kept, ino, frag),
            Event::Import { ino, frag, bytes } => {
                drop(bytes);
                self.import(alloc, kept, ino, frag)
            }
            other => made(self.book.step(alloc, other)),
        }
    }

    // Makes a Send and keeps the bytes that it hands out. Room for them is reserved first, since after the Send nothing
    // but its Import ends the export.
    #[tactic(auto, using(crate::proofs::OwnTurnLaws::sent_nothing, crate::proofs::StepLaws::made_step))]
    fn send(
        &mut self,
        alloc: Global,
        kept: &mut KeptBytes,
        ino: Ino,
        frag: Frag,
    ) -> Result<bool, Refusal>
        ensures { OfWhole self.old.book self.new.book (λ old new. StepsOwn old new kept.old.bytes kept.new.bytes (Some
            (Send ino frag)) result) }
    {
        self.book.is_sound();
        if kept.reserve().is_err() {
            return Err(Refusal::NoMemory);
        }
        match self.book.step(alloc, Event::Send { ino, frag }) {
            Ok(Answer::Sent(bytes)) => {
                kept.keep(ino, frag, bytes);
                Ok(true)
            }
            Ok(other) => {
                drop(other);
                Ok(true)
            }
            Err(refusal) => Err(refusal),
        }
    }

    // Makes an Import if its bytes are kept. It gets a copy of them, since a refused Import consumes its bytes.
    #[tactic(auto, using(crate::proofs::OwnTurnLaws::passed_over, crate::proofs::OwnTurnLaws::not_copied, crate::proofs::OwnTurnLaws::imported, crate::proofs::StepLaws::made_step))]
    fn import(
        &mut self,
        alloc: Global,
        kept: &mut KeptBytes,
        ino: Ino,
        frag: Frag,
    ) -> Result<bool, Refusal>
        ensures { OfWhole self.old.book self.new.book (λ old new. StepsOwn old new kept.old.bytes kept.new.bytes
            (import_with ino frag (map.get kept.old.bytes (ino, frag))) result) }
    {
        self.book.is_sound();
        if !kept.has(ino, frag) {
            return Ok(false);
        }
        let Ok(bytes) = kept.copy_of(ino, frag) else {
            return Err(Refusal::NoMemory);
        };
        match self.book.step(alloc, Event::Import { ino, frag, bytes }) {
            Ok(answer) => {
                drop(answer);
                kept.forget(ino, frag);
                Ok(true)
            }
            Err(refusal) => Err(refusal),
        }
    }
}

// Whether a step was made, or why it was refused.
fn made(came: Result<Answer, Refusal>) -> Result<bool, Refusal>
    ensures { result ≡ answer_of came }
{
    match came {
        Ok(answer) => {
            drop(answer);
            Ok(true)
        }
        Err(refusal) => Err(refusal),
    }
}
