//! The book and its count of shares, which one lock guards.
ghost use Rattle.std.specs.Prelude.{Result, None, ◌≡◌, ◌+◌, ◌<◌, List, [], Contains, cond, length, take};
ghost use Rattle.std.specs.List.{AllByRecursion};
ghost use Rattle.std.specs.Coded.{codes};
ghost use Rattle.std.specs.FinMap as map;
ghost use Rattle.mds_types.specs.declared.requests.Request.{Request as Asked};
ghost use Rattle.cluster_core.specs.OneThread.{IsAskedFor, arrival, receipt_of};
ghost use Rattle.cluster_core.specs.Sound.{IsSoundKept, OfWhole};
ghost use Rattle.cluster_core.specs.State.{KeptState, new_caches, new_state, places_of};
ghost use Rattle.cluster_core.specs.declared.events.Event.TheVariants.{CommitBegin, CommitDrop, CommitEnd};
ghost use Rattle.rank_threads.specs.Continued.{Continues, StaysBehind};
ghost use Rattle.rank_threads.specs.OneStep.{IsOneStep, IsStepTold, done_of, job_of};
ghost use Rattle.rank_threads.specs.Sent.{Serves};
ghost use Rattle.rank_threads.specs.TookTurn.{MadeStep};
ghost use Rattle.rank_threads.specs.Turns.{first_in};

use cached_frag::{Encoded, Job};
use cluster_core::{Answer, Book, Event};
use mds_types::{Frag, Ino, Rank, Refusal};
use objstore::Store;
use std::alloc::Global;
use std::marker::Brand;
use std::sync::ledger;
use std::sync::ledger::{Ledger, Share};

/// The ledger of a run, which knows what the run was handed. Each call of a run picks its own.
pub trait Handed: Ledger {
    /// The book that the run was handed.
    ghost first: { KeptState };

    /// The requests that waited in that book, and those that the turns of the plans bring.
    ghost sent: { List Asked };
}

impl Handed for Brand {
    ghost first = { record {
      opening = None;
      history = [];
      core = record { state = new_state 1 1; caches = new_caches 1 512; faults = 0 };
    } };

    ghost sent = { [] };
}

/// The book, with the total of all shares, which is the number of places of the history. Whatever opening tree and past
/// the book handed in goes on from, this one goes on from too. Its history begins with the history handed in, of which
/// no entry was forgotten. Each request that was applied since then, and each that waits, is one of those that were
/// sent.
#[derive(Drop)]
pub(crate) struct Desk<S: Store + Drop, L: Handed> {
    pub(crate) book: Book<S>,
    pub(crate) total: ledger::Book<L>,
    ghost counted: { places_of book ≡ total.total },
    ghost begins: { take (length L.first.history) book.history ≡ L.first.history },
    ghost same_past: { book.core.state.sessions.forgotten ≡ L.first.core.state.sessions.forgotten },
    ghost opens: { book.opening ≡ L.first.opening } by { Prim.hlevel (codes, map.code) },
    ghost goes_on: { ∥ StaysBehind L.first book ∥₁ },
    ghost serves: { ∥ Serves L.first.core.state.tree.limit L.sent L.first.history book ∥₁ },
}

impl<S: Store + Drop, L: Handed> Desk<S, L> {
    /// Makes one step of the book, for an event whose request, if it brings one, was sent. The share rises by one if
    /// the step adds an entry to the history. A reply that the step hands out was asked for.
    #[tactic(auto, using(crate::proofs::StepLaws::counts_on, crate::proofs::StepLaws::made_step))]
    pub(crate) fn step(
        &mut self,
        alloc: Global,
        mine: &mut Share<L>,
        event: Event,
    ) -> Result<Answer, Refusal>
        requires parts { 0 < mine.old.parts }
        requires sent { ∥ AllByRecursion (Contains L.sent) (arrival event) ∥₁ }
        ensures parts { mine.new.parts ≡ mine.old.parts }
        ensures amount { mine.new.amount ≡ mine.old.amount + first_in result }
        ensures asked_for { ∥ AllByRecursion (IsAskedFor L.sent) (receipt_of result) ∥₁ }
        ensures stepped { OfWhole self.old.book self.new.book (λ old new. IsOneStep old new event result) }
        ensures sound { IsSoundKept self.old.book }
    {
        let Desk { book, total } = self;
        book.is_sound();
        let answer = book.step(alloc, event);
        if is_first(&answer) {
            total.add(mine, 1);
        }
        answer
    }

    /// Begins a commit of a leaf at a rank, and returns its job, or none if the leaf is clean. The history doesn't
    /// change.
    #[tactic(auto, using(crate::proofs::StepLaws::made_step))]
    pub(crate) fn begin(
        &mut self,
        alloc: Global,
        rank: Rank,
        ino: Ino,
        frag: Frag,
    ) -> Result<Option<Job>, Refusal>
        ensures told { OfWhole self.old.book self.new.book (λ old new. IsStepTold old new (CommitBegin rank ino frag)
            job_of result) }
        ensures sound { IsSoundKept self.old.book }
    {
        self.book.is_sound();
        match self
            .book
            .step(alloc, Event::CommitBegin { rank, ino, frag })
        {
            Ok(Answer::Job(job)) => Ok(Some(job)),
            Ok(other) => {
                drop(other);
                Ok(None)
            }
            Err(refusal) => Err(refusal),
        }
    }

    /// Ends the commit of an encoded job. The history doesn't change.
    #[tactic(auto, using(crate::proofs::StepLaws::made_step))]
    pub(crate) fn end(&mut self, alloc: Global, encoded: Encoded) -> Result<(), Refusal>
        ensures { OfWhole self.old.book self.new.book (λ old new. IsStepTold old new (CommitEnd encoded) done_of
            result) }
    {
        self.book.is_sound();
        done(self.book.step(alloc, Event::CommitEnd(encoded)))
    }

    /// Gives a commit up. The history doesn't change.
    #[tactic(auto, using(crate::proofs::StepLaws::made_step))]
    pub(crate) fn give_up(&mut self, alloc: Global, job: u64)
        ensures { (came : Result Answer Refusal) × MadeStep (CommitDrop job) came }
    {
        self.book.is_sound();
        let _ = self.book.step(alloc, Event::CommitDrop { job });
    }

    /// Returns the book, also where shares were lost.
    #[tactic(auto, using(crate::proofs::StepLaws::continued))]
    pub(crate) fn close(self) -> Book<S>
        ensures { Continues L.first result }
    {
        let Desk { book, .. } = self;
        book.is_sound();
        book
    }

    /// Returns the book once all shares are gathered. Its history has as many places as the shares count.
    #[tactic(auto, using(crate::proofs::StepLaws::continued, crate::proofs::Found::kept_serves))]
    pub(crate) fn settle(self, all: &mut Share<L>) -> Book<S>
        requires { all.old.parts ≡ L.parts }
        ensures counted { places_of result ≡ all.old.amount }
        ensures continued { Continues L.first result }
        ensures serves { Serves L.first.core.state.tree.limit L.sent L.first.history result }
    {
        let Desk {
            book,
            mut total,
            ..
        } = self;
        total.audit(all);
        book.is_sound();
        book
    }
}

// Whether a step was made, or why it was refused.
fn done(came: Result<Answer, Refusal>) -> Result<(), Refusal>
    ensures { result ≡ done_of came }
{
    match came {
        Ok(answer) => {
            drop(answer);
            Ok(())
        }
        Err(refusal) => Err(refusal),
    }
}

// Whether a result is the reply to a request that was applied now.
fn is_first(told: &Result<Answer, Refusal>) -> bool
    ensures { first_in told.now ≡ cond result 1 0 }
{
    matches!(told, Ok(Answer::Reply { first: true, .. }))
}
