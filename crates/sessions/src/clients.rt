//! What is kept for one client.
ghost use Rattle.std.specs.Prelude.{◌≡◌, ◌<◌, ◌≤◌, ◌-◌, ℕ, None, Some, true, false, not, cond, length, IfErr, IsOk, OnErr, OnOk};
ghost use Rattle.std.specs.List.{AllByRecursion};
ghost use Rattle.std.specs.FinMap as map;
ghost use Rattle.sessions.specs.Aside.{is_kept_at, row_with_aside};
ghost use Rattle.sessions.specs.Replies.{IsInReach, replies_at};
ghost use Rattle.sessions.specs.Restored.{IsUnfitFor, TakesToldReply, marked_row};
ghost use Rattle.sessions.specs.Table.{no_row, noted_row, trimmed_row};
ghost use Rattle.sessions.specs.Seen.{IsReplyIn, SeesInRow};
ghost use Rattle.sessions.specs.Rooms.{HeldSessions as Table, IsSessionAt, TellsSession};

use crate::found::SessionAt;
use crate::kept::{ClientKept, Replies};
use crate::restoring::Unfit;
use mds_types::{Entry, Reply};
use sorted_map::SortedMap;
use std::alloc::{AllocError, Global};
use std::marker::Model;
use std::mem;

/// What a request is to the history of applied requests.
#[derive(Clone, Copy, Debug, PartialEq, Eq)]
pub enum Seen<'a> {
    /// It has not been applied. Its client's session is there.
    New(SessionAt),
    /// It was applied at this place, counted from the first entry ever, and answered so.
    Kept(usize, &'a Reply),
    /// Its transaction number is below its client's mark or below its own oldest.
    Trimmed,
}

/// A client's mark, and at which places the entries are whose replies are kept for its transaction numbers. Those
/// replies whose entries are forgotten stand in a map of their own: it is mostly empty, and a place takes 8 bytes where
/// a reply takes 64.
#[derive(Debug, Drop)]
pub(crate) struct Client {
    mark: u64,
    kept: SortedMap<u64, usize>,
    aside: SortedMap<u64, Reply>,
    /// Whether a reply was kept since the changed clients were last cleared.
    changed: bool,
}

impl Model for Client {
    ghost use Rattle.std.specs.Ordering.{nat_cmp};
    ghost use Rattle.std.specs.Coded.{codes};
    ghost use Rattle.std.specs.FinMap as map;
    ghost use Rattle.sorted_map.specs.SortedMap.{contents};
    ghost use Rattle.sessions.specs.Rooms.{Session};

    ghost Value = { Session };

    ghost coded = { Prim.hlevel (codes, map.code) };

    ghost view = { λ c. record {
      row = record { mark = c.mark; kept = contents nat_cmp c.kept; aside = contents nat_cmp c.aside };
      room = c.kept.room;
      changed = c.changed;
    } };
}

impl Client {
    /// A client of which nothing is known.
    pub(crate) fn new(alloc: Global) -> Client
        ensures row { result.row ≡ no_row }
        ensures changed { result.changed ≡ false }
    {
        Client::marked(alloc, 0)
    }

    /// A client of which the mark alone is known.
    pub(crate) fn marked(alloc: Global, mark: u64) -> Client
        ensures row { result.row ≡ marked_row mark }
        ensures changed { result.changed ≡ false }
    {
        Client {
            mark,
            kept: SortedMap::new(alloc),
            aside: SortedMap::new(alloc),
            changed: false,
        }
    }

    /// Makes room for one more reply. Where the room is there already nothing is done.
    pub(crate) fn reserve(&mut self) -> Result<(), AllocError>
        ensures room { OnOk result (0 < self.new.room) }
        ensures same { self.new.row ≡ self.old.row }
        ensures changed { self.new.changed ≡ self.old.changed }
        ensures ready { 0 < self.old.room → IsOk result × (self.new ≡ self.old) }
    {
        self.kept.reserve(1)
    }

    /// Keeps the reply of the entry at a place, for which there is room. The client is changed by this, and it is told
    /// whether it wasn't before.
    pub(crate) fn keep(&mut self, tid: u64, oldest: u64, place: usize) -> bool
        requires { 0 < self.old.room }
        ensures row { self.new.row ≡ noted_row self.old.row tid oldest place }
        ensures changed { self.new.changed ≡ true }
        ensures first { result ≡ not self.old.changed }
    {
        self.mark = self.mark.max(oldest);
        let _ = self.kept.insert(tid, place);
        !mem::replace(&mut self.changed, true)
    }

    /// The client isn't changed any more.
    pub(crate) fn clear_changed(&mut self)
        ensures row { self.new.row ≡ self.old.row }
        ensures changed { self.new.changed ≡ false }
    {
        self.changed = false;
    }

    /// Forgets the replies below the mark.
    pub(crate) fn trim(&mut self)
        ensures row { self.new.row ≡ trimmed_row self.old.row }
        ensures changed { self.new.changed ≡ self.old.changed }
    {
        self.kept.remove_below(&self.mark);
        if !self.aside.is_empty() {
            self.aside.remove_below(&self.mark);
        }
    }

    /// What a request of the client, whose session is there, is to the applied ones: so many that are forgotten, and
    /// then the history's.
    pub(crate) fn seen<'a>(
        &'a self,
        history: &'a [Entry],
        forgotten: usize,
        at: SessionAt,
        tid: u64,
        oldest: u64,
    ) -> Seen<'a>
        requires { (place : ℕ) → map.get self.now.row.kept tid ≡ Some place → map.get self.now.row.aside tid ≡ None
            → (forgotten ≤ place) × (place - forgotten < length history.now) }
        ensures standing { SeesInRow history.entry.now forgotten self.now.row tid oldest result }
        ensures session { (held : Table) → IsSessionAt held at → TellsSession held at.client result }
    {
        if tid < self.mark || tid < oldest {
            return Seen::Trimmed;
        }
        match self.kept.get(&tid) {
            Some(place) => Seen::Kept(*place, self.told(history, forgotten, tid, *place)),
            None => Seen::New(at),
        }
    }

    /// What is kept of the client, where so many entries are forgotten, and then the history's follow.
    pub(crate) fn kept<'a>(&'a self, history: &'a [Entry], forgotten: usize) -> ClientKept<'a>
        requires { AllByRecursion (IsInReach history.now forgotten self.now.row.aside) (map.entries self.now.row.kept) }
        ensures mark { result.mark ≡ self.now.row.mark }
        ensures replies { result.replies
            ≡ replies_at history.entry.now forgotten self.now.row.aside (map.entries self.now.row.kept) }
    {
        ClientKept {
            mark: self.mark,
            replies: Replies {
                places: self.kept.iter(),
                client: self,
                history,
                forgotten,
            },
        }
    }

    /// The reply to a transaction number: the one that was set aside, or that of the entry at this place.
    pub(crate) fn told<'a>(
        &'a self,
        history: &'a [Entry],
        forgotten: usize,
        tid: u64,
        place: usize,
    ) -> &'a Reply
        requires { map.get self.now.row.aside tid ≡ None
            → (forgotten ≤ place) × (place - forgotten < length history.now) }
        ensures { IsReplyIn history.entry.now forgotten place (map.get self.now.row.aside tid) result.now }
    {
        match self.aside.get(&tid) {
            Some(reply) => reply,
            None => &history[place - forgotten].reply,
        }
    }

    /// Whether the reply of the entry at this place is kept for a transaction number.
    pub(crate) fn keeps(&self, tid: u64, place: usize) -> bool
        ensures { result ≡ is_kept_at place (map.get self.now.row.kept tid) }
    {
        match self.kept.get(&tid) {
            Some(kept) => *kept == place,
            None => false,
        }
    }

    /// An entry is to be forgotten, which is the one at this place. Where its reply isn't kept nothing is done. Else the
    /// reply is moved here, if it may be and memory isn't refused; where it isn't, all is as it was, and false is told.
    pub(crate) fn forget(&mut self, first: &mut Entry, place: usize, may_move: bool) -> bool
        ensures gone { result ≡ true → self.new.row
            ≡ cond (is_kept_at place (map.get self.old.row.kept first.old.tid))
            (row_with_aside self.old.row first.old.tid first.old.reply) self.old.row }
        ensures left { result ≡ false → self.new ≡ self.old }
        ensures changed { self.new.changed ≡ self.old.changed }
        ensures entry { result ≡ false → first.new ≡ first.old }
        ensures kept { result ≡ false → is_kept_at place (map.get self.old.row.kept first.old.tid) ≡ true }
        ensures stays { may_move ≡ false → self.new ≡ self.old }
    {
        if !self.keeps(first.tid, place) {
            return true;
        }
        may_move && self.set_aside(first.tid, &mut first.reply).is_ok()
    }

    /// Takes a reply as it was stored, whose entry was at this place and is forgotten.
    pub(crate) fn restore(&mut self, tid: u64, at: usize, reply: Reply) -> Result<(), Unfit>
        ensures taken { OnOk result (TakesToldReply self.old.row self.new.row tid at reply) }
        ensures same { OnErr result (self.new.row ≡ self.old.row) }
        ensures changed { self.new.changed ≡ self.old.changed }
        ensures unfit { IfErr result (IsUnfitFor self.old.row tid) }
    {
        if tid < self.mark {
            return Err(Unfit::BelowMark);
        }
        if self.kept.contains(&tid) {
            return Err(Unfit::ReplyTwice);
        }
        self.reserve()?;
        self.aside.reserve(1)?;
        let _ = self.kept.insert(tid, at);
        let _ = self.aside.insert(tid, reply);
        Ok(())
    }

    // Moves the reply to a transaction number here. Refused for want of memory: all is as it was then.
    fn set_aside(&mut self, tid: u64, reply: &mut Reply) -> Result<(), AllocError>
        ensures ok { OnOk result (self.new.row ≡ row_with_aside self.old.row tid reply.old) }
        ensures changed { self.new.changed ≡ self.old.changed }
        ensures err { OnErr result (self.new ≡ self.old) }
        ensures left { OnErr result (reply.new ≡ reply.old) }
    {
        self.aside.reserve(1)?;
        let told = mem::replace(reply, Reply::Done);
        let _ = self.aside.insert(tid, told);
        Ok(())
    }
}
