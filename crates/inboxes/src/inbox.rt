//! The requests that wait at one rank.
ghost use Rattle.std.specs.Prelude.{◌≡◌, ◌<◌, ◌≤◌, ◌++◌, ◌∷◌, [], length, nat_lt, slice_get, IfOk};
ghost use Rattle.std.specs.Option.{option_copied};
ghost use Rattle.inboxes.specs.Inbox.{TakesFront, first_of, rotated};

use mds_types::Request;
use std::alloc::{AllocError, Global};
use std::collections::VecDeque;
use std::marker::Model;

/// A rank's inbox: at most `Inbox::LIMIT` requests, served from the front. It has its places from the start, so no
/// later call takes memory, and none moves the requests that wait behind the one it concerns.
#[derive(Debug, Drop)]
pub struct Inbox {
    waiting: VecDeque<Request>,
}

impl Model for Inbox {
    ghost use Rattle.std.specs.Prelude.{List, length, ◌≤◌};
    ghost use Rattle.std.specs.VecDeque.{deque_capacity};
    ghost use Rattle.mds_types.specs.declared.requests.Request.{Request as Waiting};

    ghost Value = { List Waiting };

    ghost view = { λ i. i.waiting.items };

    ghost invariant = { λ i. (length i.waiting.items ≤ 1024) × (1024 ≤ deque_capacity i.waiting) };
}

impl Inbox {
    /// How many requests may wait.
    pub const LIMIT: usize = 1024;

    /// An inbox where nothing waits, with all its places.
    pub fn new(alloc: Global) -> Result<Inbox, AllocError>
        ensures { IfOk result (λ inbox. inbox ≡ []) }
    {
        Ok(Inbox {
            waiting: VecDeque::with_capacity(alloc, Inbox::LIMIT)?,
        })
    }

    /// How many requests wait.
    pub fn len(&self) -> usize
        ensures count { result ≡ length self.now }
        ensures bound { result ≤ 1024 }
    {
        self.waiting.len()
    }

    /// The request with so many in front of it.
    pub fn get(&self, index: usize) -> Option<&Request>
        ensures { option_copied result ≡ slice_get self.now index }
    {
        self.waiting.get(index)
    }

    /// Whether one more request may wait.
    pub fn has_room(&self) -> bool
        ensures room { result ≡ nat_lt (length self.now) 1024 }
        ensures bound { length self.now ≤ 1024 }
    {
        self.waiting.len() < Inbox::LIMIT
    }

    /// Puts a request at the back, where there is room.
    #[inline(always)]
    pub fn put(&mut self, request: Request)
        requires { length self.old < 1024 }
        ensures { self.new ≡ self.old ++ request ∷ [] }
    {
        self.waiting.push_back_reserved(request);
    }

    /// The request at the front.
    pub fn front(&self) -> Option<&Request>
        ensures { option_copied result ≡ slice_get self.now 0 }
    {
        self.waiting.front()
    }

    /// Takes the request at the front out.
    #[inline(always)]
    pub fn take(&mut self) -> Option<Request>
        ensures { TakesFront self.old self.new result }
    {
        self.waiting.pop_front()
    }

    /// Puts the request at the front behind all others.
    pub fn rotate(&mut self)
        ensures { self.new ≡ rotated self.old }
    {
        if !self.waiting.is_empty() {
            self.waiting.rotate_left(1);
        }
    }

    /// The first waiting request of this client and transaction number.
    pub fn find(&self, client: u64, tid: u64) -> Option<&Request>
        ensures { option_copied result ≡ first_of client tid self.now }
    {
        self.waiting
            .iter()
            .find(|one| one.client == client && one.tid == tid)
    }
}
