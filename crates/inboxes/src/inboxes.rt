//! The inboxes of all ranks.
ghost use Rattle.std.specs.Prelude.{◌≡◌, ◌<◌, [], length, replicate, slice_get, IfOk, OnOk, IfErr};
ghost use Rattle.std.specs.Option.{option_copied};
ghost use Rattle.inboxes.specs.Inbox.{rotated};
ghost use Rattle.inboxes.specs.Inboxes.{Arrives, Forwards, TakesAt, TakesNoMore, first_waiting, waiting_at, waiting_in_all, with_last, with_waiting};

use crate::inbox::Inbox;
use mds_types::{Rank, Refusal, Request};
use std::alloc::{AllocError, Global};
use std::marker::Model;

/// For each rank the requests that wait there. A call at a rank that isn't there is refused, or finds nothing. The calls
/// that each request goes through are put into their callers, so that it is moved once.
#[derive(Debug, Drop)]
pub struct Inboxes {
    inboxes: Vec<Inbox>,
}

impl Model for Inboxes {
    ghost use Rattle.std.specs.Prelude.{◌≤◌, length};
    ghost use Rattle.inboxes.specs.Inboxes.{Inboxes as Waiting};

    ghost Value = { Waiting };

    ghost view = { λ i. i.inboxes.items };

    ghost invariant = { λ i. length i.inboxes.items ≤ 255 };
}

impl Inboxes {
    /// An inbox where nothing waits for each of so many ranks. All memory is taken here.
    pub fn new(alloc: Global, ranks: u8) -> Result<Inboxes, AllocError>
        ensures { IfOk result (λ inboxes. inboxes ≡ replicate ranks []) }
    {
        let mut inboxes = Vec::with_capacity(alloc, usize::from(ranks))?;
        for _ in 0..ranks {
            inboxes.push(Inbox::new(alloc)?)?;
        }
        Ok(Inboxes { inboxes })
    }

    /// How many ranks there are.
    pub fn ranks(&self) -> usize
        ensures { result ≡ length self.now }
    {
        self.inboxes.len()
    }

    /// Puts a request at the back of a rank's inbox: refused `NotAuthority` where there is no such rank, `InboxFull`
    /// where as many as may are waiting.
    #[inline(always)]
    pub fn arrive(&mut self, rank: Rank, request: Request) -> Result<(), Refusal>
        ensures { Arrives self.old self.new rank request result }
    {
        if let Err(refusal) = self.check_room(rank) {
            drop(request);
            return Err(refusal);
        }
        self.put(rank, request);
        Ok(())
    }

    /// The request at the front of a rank's inbox.
    pub fn front(&self, rank: Rank) -> Option<&Request>
        ensures { option_copied result ≡ slice_get (waiting_at self.now rank) 0 }
    {
        self.inboxes.get(usize::from(rank.0))?.front()
    }

    /// How many requests wait at a rank.
    pub fn waiting(&self, rank: Rank) -> usize
        ensures { result ≡ length (waiting_at self.now rank) }
    {
        match self.inboxes.get(usize::from(rank.0)) {
            Some(inbox) => inbox.len(),
            None => 0,
        }
    }

    /// How many requests wait at all ranks together.
    pub fn waiting_in_all(&self) -> usize
        ensures { result ≡ waiting_in_all self.now }
    {
        let mut count = 0;
        for inbox in &self.inboxes {
            count += inbox.len();
        }
        count
    }

    /// The request in a rank's inbox with so many in front of it.
    pub fn get(&self, rank: Rank, index: usize) -> Option<&Request>
        ensures { option_copied result ≡ slice_get (waiting_at self.now rank) index }
    {
        self.inboxes.get(usize::from(rank.0))?.get(index)
    }

    /// Takes the request at the front of a rank's inbox out.
    #[inline(always)]
    pub fn take(&mut self, rank: Rank) -> Option<Request>
        ensures { TakesAt self.old self.new rank result (waiting_at self.old rank) }
    {
        self.inboxes.get_mut(usize::from(rank.0))?.take()
    }

    /// Puts a request at the back of the inbox of a rank that is there, where there is room.
    #[inline(always)]
    pub fn put(&mut self, rank: Rank, request: Request)
        requires there { rank.0 < length self.old }
        requires room { length (waiting_at self.old rank) < 1024 }
        ensures { self.new ≡ with_last self.old rank request }
    {
        self.inboxes[usize::from(rank.0)].put(request);
    }

    /// Refused where a rank's inbox takes no more: `NotAuthority` where there is no such rank, `InboxFull` where as
    /// many as may are waiting.
    pub fn check_room(&self, rank: Rank) -> Result<(), Refusal>
        ensures ok { OnOk result ((rank.0 < length self.now) × (length (waiting_at self.now rank) < 1024)) }
        ensures err { IfErr result (TakesNoMore self.now rank) }
    {
        match self.inboxes.get(usize::from(rank.0)) {
            None => Err(Refusal::NotAuthority),
            Some(inbox) if inbox.has_room() => Ok(()),
            Some(_) => Err(Refusal::InboxFull),
        }
    }

    /// Puts the request at the front of a rank's inbox behind all others there.
    pub fn rotate(&mut self, rank: Rank)
        ensures { self.new ≡ with_waiting self.old rank (rotated (waiting_at self.old rank)) }
    {
        if let Some(inbox) = self.inboxes.get_mut(usize::from(rank.0)) {
            inbox.rotate();
        }
    }

    /// Puts the request at the front of one rank's inbox at the back of another's. Refused `InboxEmpty` where nothing
    /// waits at the first, `NotAuthority` where there is no second, `InboxFull` where no more may wait there; a refusal
    /// leaves both as they were.
    pub fn forward(&mut self, from: Rank, to: Rank) -> Result<(), Refusal>
        ensures { Forwards self.old self.new from to result (waiting_at self.old from) }
    {
        if self.front(from).is_none() {
            return Err(Refusal::InboxEmpty);
        }
        self.check_room(to)?;
        if let Some(request) = self.take(from) {
            self.put(to, request);
        }
        Ok(())
    }

    /// The first waiting copy of the request of this client and transaction number: ranks upwards, each inbox from its
    /// front.
    pub fn find(&self, client: u64, tid: u64) -> Option<&Request>
        ensures { option_copied result ≡ first_waiting client tid self.now }
    {
        first_in(&self.inboxes, client, tid)
    }
}

// The first copy of a request in one inbox after the other.
fn first_in(inboxes: &[Inbox], client: u64, tid: u64) -> Option<&Request>
    ensures { option_copied result ≡ first_waiting client tid inboxes.now }
{
    for inbox in inboxes {
        if let Some(request) = inbox.find(client, tid) {
            return Some(request);
        }
    }
    None
}
