//! A service: a book that is only asked, and in which no request is left waiting.
ghost use Rattle.std.specs.Prelude.{◌≡◌, ◌≢◌, ◌∷◌, [], true, List, None, Err, IfErr, IfOk, MatchResult, OnErr, OnOk};
ghost use Rattle.std.specs.FinMap as map;
ghost use Rattle.cluster_core.specs.Opening.{Opening};
ghost use Rattle.mds_types.specs.declared.entries.Entry.{Entry as Applied};
ghost use Rattle.cluster_core.specs.Flush.{Flushes, IsColdTree};
ghost use Rattle.cluster_core.specs.KeptSessions.{KeepsSessions, with_stored};
ghost use Rattle.cluster_core.specs.OneThread.{InOrder, IsOneThread, StandsInHistory, arrival};
ghost use Rattle.cluster_core.specs.Sound.{GoesOnBehind, IsSoundKept, OfWhole, StandsBehind};
ghost use Rattle.cluster_core.specs.State.{places_of, shown};
ghost use Rattle.cluster_core.specs.Steps.{Steps};
ghost use Rattle.cluster_core.specs.Uses.{UsesStep};
ghost use Rattle.asking.specs.Ask.{NoneWaits};
ghost use Rattle.asking.specs.Ending.{HasAllBytes};
ghost use Rattle.asking.specs.Drain.{waiting_in_all};
ghost use Rattle.asking.specs.Once.{AsksOnce, Leaves};
ghost use Rattle.asking.specs.Reached.{receipt_in};
ghost use Rattle.asking.specs.Services.{AsksAndForgets, AsksThroughAndForgets, GoesOnAsOne};
ghost use Rattle.asking.specs.Through.{CantSend};

use crate::asks::ask;
use crate::drains::lowest;
use crate::through::ask_through;
use cluster_core::{Answer, Book, Event, KeptBytes, Receipt, flush, give_up};
use keeping::{Keep, Unkept};
use mds_types::{Rank, Refusal, Request};
use objstore::Store;
use std::alloc::Global;
use std::snapshot::Snapshot;
use std::thread::Threads;

/// Asks a request at a rank of a book in which nothing else waits. If it is refused, it is given up, as if it had never
/// arrived. Nothing waits afterwards, whatever the answer is.
///
/// Refused `NotAuthority` exactly where there is no such rank, `Trimmed` and `NoInodes` where serving it is refused so,
/// and `Frozen` if it would change a frozen fragment. Also refused if memory or the store refuses it, or a rank lacks
/// places.
#[inline(always)]
pub fn ask_once<S: Store + Drop>(
    alloc: Global,
    book: &mut Book<S>,
    rank: Rank,
    request: Request,
) -> Result<Receipt, Refusal>
    requires { NoneWaits book.old.core.state.inboxes }
    ensures one_thread { OfWhole book.old book.new (λ old new. IsOneThread old.core.state.tree.limit old.opening
        old.history new.history (request ∷ []) (receipt_in result)) }
    ensures in_order { InOrder (places_of book.old) (receipt_in result) (places_of book.new) }
    ensures asked { OfWhole book.old book.new (λ old new. AsksOnce old.core new.core old.history new.history rank
        request result) }
    ensures thawed { book.old.core.state.exports ≡ map.empty → result ≢ Err Refusal.Frozen }
    ensures none { NoneWaits book.new.core.state.inboxes }
    ensures stands { OfWhole book.old book.new (λ _ new. IfOk result (λ receipt. StandsInHistory new.history
        receipt.client receipt.tid receipt.place receipt.reply)) }
    ensures limit { book.new.core.state.tree.limit ≡ book.old.core.state.tree.limit }
    ensures opening { book.new.opening ≡ book.old.opening }
    ensures goes_on { GoesOnBehind book.old book.new }
    ensures sound { IsSoundKept book.new }
{
    book.is_sound();
    match ask(alloc, book, rank, request) {
        Ok(receipt) => Ok(receipt),
        Err(refusal) => {
            leave(book);
            Err(refusal)
        }
    }
}

// Gives up the request at the front of the lowest rank where something waits, if there is one.
#[inline(never)]
fn leave<S: Store + Drop>(book: &mut Book<S>)
    ensures left { Leaves book.old book.new }
    ensures opening { book.new.opening ≡ book.old.opening }
    ensures goes_on { GoesOnBehind book.old book.new }
    ensures sound { IsSoundKept book.new }
{
    book.is_sound();
    if let Some(found) = lowest(book) {
        give_up(book, found.rank);
    }
}

// How many entries of a history a service keeps by default.
const STAY: usize = 1000;

/// A book that is only asked. Nothing waits between two requests, so each request may be asked. After each request the
/// service forgets old entries of the history, so its memory is bounded by the tree, the clients and the entries kept.
#[derive(Drop)]
pub struct Service<S: Store + Drop> {
    book: Book<S>,
    /// How many of the last entries are kept. Between two requests the book has fewer than twice as many.
    history: usize,
    ghost idle: { waiting_in_all book.core.state.inboxes ≡ 0 },
}

impl<S: Store + Drop> Service<S> {
    /// A service over a book, which keeps the last 1,000 entries of the history. Returns the book if something waits in
    /// it.
    pub fn of(book: Book<S>) -> Result<Service<S>, Book<S>>
        ensures of { MatchResult result (λ service. service.book ≡ book) (λ back. back ≡ book) }
        ensures history { IfOk result (λ service. service.history ≡ 1000) }
    {
        match lowest(&book) {
            Some(_) => Err(book),
            None => Ok(Service {
                book,
                history: STAY,
            }),
        }
    }

    /// Sets how many of the last entries of the history are kept. With `usize::MAX` all are.
    pub fn set_history(&mut self, count: usize)
        ensures book { self.new.book ≡ self.old.book }
        ensures history { self.new.history ≡ count }
    {
        self.history = count;
    }

    /// The book, to read.
    pub fn book(&self) -> &Book<S>
        ensures { result.now ≡ self.now.book }
    {
        &self.book
    }

    /// Returns the book.
    pub fn into_book(self) -> Book<S>
        ensures { result ≡ self.book }
    {
        let Service { book, .. } = self;
        book
    }

    /// How many entries there ever were, as `Book::places` tells: the forgotten ones and those of the history.
    pub fn places(&self) -> usize
        ensures { result ≡ places_of self.now.book }
    {
        self.book.places()
    }

    /// Drops the tree that the book opened with, as `Book::drop_opening` does. No request needs it.
    pub fn drop_opening(&mut self)
        ensures gone { self.new.book.opening ≡ None }
        ensures history { self.new.book.history ≡ self.old.book.history }
        ensures core { self.new.book.core ≡ self.old.book.core }
        ensures goes_on { GoesOnBehind self.old.book self.new.book }
    {
        self.book.drop_opening();
    }

    /// Makes one step of the book, for an event that brings no request, such as an administrator's.
    pub fn step(&mut self, alloc: Global, event: Event) -> Result<Answer, Refusal>
        requires { arrival event ≡ [] }
        ensures stepped { OfWhole self.old.book self.new.book (λ old new. Steps old.core new.core old.history
            new.history result event) }
        ensures uses { UsesStep self.old.book.core self.new.book.core result event }
        ensures silent { self.new.book.history ≡ self.old.book.history }
        ensures limit { self.new.book.core.state.tree.limit ≡ self.old.book.core.state.tree.limit }
        ensures goes_on { GoesOnBehind self.old.book self.new.book }
        ensures opening { self.new.book.opening ≡ self.old.book.opening }
    {
        self.book.is_sound();
        self.book.step(alloc, event)
    }

    /// Writes all that the store doesn't have yet, as `flush` does.
    pub fn flush(&mut self, rt: &(impl Threads + Sync), alloc: Global) -> Result<(), Refusal>
        ensures cold { OnOk result
            (IsColdTree self.new.book.core.state.tree.objects (shown self.old.book.core.state)) }
        ensures outcome { Flushes self.old.book self.new.book result }
        ensures goes_on { GoesOnBehind self.old.book self.new.book }
    {
        flush(rt, alloc, &mut self.book)
    }

    /// Asks a request at a rank, as `ask_once` does. After a refusal nothing of the request is left.
    #[inline(always)]
    pub fn ask(&mut self, alloc: Global, rank: Rank, request: Request) -> Result<Receipt, Refusal>
        ensures one_thread { (opening : Opening) (past : List Applied) → StandsBehind opening past self.old.book
            → GoesOnAsOne opening past self.old.book self.new.book (request ∷ []) result }
        ensures in_order { InOrder (places_of self.old.book) (receipt_in result) (places_of self.new.book) }
        ensures asked { AsksAndForgets self.old.history self.old.book self.new.book rank request result }
        ensures thawed { self.old.book.core.state.exports ≡ map.empty → result ≢ Err Refusal.Frozen }
        ensures limit { self.new.book.core.state.tree.limit ≡ self.old.book.core.state.tree.limit }
        ensures history { self.new.history ≡ self.old.history }
    {
        let answer = ask_once(alloc, &mut self.book, rank, request);
        let _ = self.book.forget(self.history);
        answer
    }

    /// Asks a request at a rank, as `ask_through` does: exports whose frozen region the request would change are ended
    /// first.
    pub fn ask_through(
        &mut self,
        alloc: Global,
        kept: &mut KeptBytes,
        rank: Rank,
        request: Request,
        cancel: bool,
    ) -> Result<Receipt, Refusal>
        ensures one_thread { (opening : Opening) (past : List Applied) → StandsBehind opening past self.old.book
            → GoesOnAsOne opening past self.old.book self.new.book (request ∷ []) result }
        ensures in_order { InOrder (places_of self.old.book) (receipt_in result) (places_of self.new.book) }
        ensures asked { AsksThroughAndForgets cancel self.old.history rank request self.old.book self.new.book kept.old
            kept.new result }
        ensures thawed { HasAllBytes self.old.book.core.state kept.old → result ≡ Err Refusal.Frozen
            → CantSend cancel self.new.book.core.state }
        ensures limit { self.new.book.core.state.tree.limit ≡ self.old.book.core.state.tree.limit }
        ensures history { self.new.history ≡ self.old.history }
    {
        let answer = ask_through(alloc, &mut self.book, kept, rank, request, cancel);
        let _ = self.book.forget(self.history);
        answer
    }
}

impl<S: Keep + Drop> Service<S> {
    /// Keeps the content of the store so that it outlives the process, as `Book::keep` does. The results are the store
    /// before and after, for contracts alone.
    pub fn keep(&mut self) -> Result<(Snapshot<S>, Snapshot<S>), Unkept>
        ensures stored { OnOk result (self.new.book ≡ with_stored self.old.book) }
        ensures same { OnErr result (self.new.book ≡ self.old.book) }
        ensures sessions { S.has_rows ≡ true
            → IfOk result (λ s. KeepsSessions self.old.book (λ edits. S.Takes s.0.value edits s.1.value)) }
        ensures goes_on { GoesOnBehind self.old.book self.new.book }
        ensures failed { IfErr result (λ _. S.may_fail) }
    {
        match self.book.keep() {
            Ok(stores) => Ok(stores),
            Err(why) => Err(why),
        }
    }

    /// Gathers all that was kept in one place, at the end of a run.
    pub fn settle(&mut self) -> Result<(), Unkept>
        ensures same { self.new.book ≡ self.old.book }
        ensures failed { IfErr result (λ _. S.may_fail) }
    {
        self.book.settle()
    }
}
