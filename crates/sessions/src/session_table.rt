//! The session table and its calls.
ghost use Rattle.std.specs.Prelude.{◌≡◌, ◌<◌, ◌≤◌, ◌^◌, ◌++◌, ◌&&◌, ◌==◌, ◌∷◌, [], ℕ, List, true, false, not, cond, length, take, drop, vec_len, vec_capacity, IsOk, nat_lt, IfOk, OnErr, OnOk, IfErr};
ghost use Rattle.std.specs.List.{slice_index_or};
ghost use Rattle.std.specs.Ordering.{nat_cmp};
ghost use Rattle.std.specs.FinMap as map;
ghost use Rattle.sorted_map.specs.SortedMap.{contents};
ghost use Rattle.mds_types.specs.declared.entries.Entry.{Entry as Applied};
ghost use Rattle.sessions.specs.Aside.{AreSetAside, StopsForgetting, forget_all, forget_first, keeps_first, released};
ghost use Rattle.sessions.specs.Table.{all_stored, no_row, no_table, noted, trimmed, IsTableOf};
ghost use Rattle.sessions.specs.Kept.{IsKept};
ghost use Rattle.sessions.specs.Rooms.{AreIndexed, HeldSessions, IsReady, IsSessionAt, TellsSession, changed_at, is_among, row_at, table, with_changed};
ghost use Rattle.sessions.specs.Seen.{IsSeen};

use crate::clients::{Client, Seen};
use crate::found::SessionAt;
use crate::kept::ClientKept;
use mds_types::{Entry, Refusal};
use sorted_map::SortedMap;
use std::alloc::{AllocError, Global};
use std::fmt;
use std::marker::Model;

// The most entries that are forgotten: with any history behind them their number is one of 64 bits.
pub(crate) const MOST_FORGOTTEN: usize = 4_611_686_018_427_387_904;

/// What is known of every client: its mark, and where in the history its kept replies are, those at or above it. Places
/// are counted from the first entry ever. Of the history a beginning may be forgotten: the kept replies of it stand here.
#[derive(Drop)]
pub struct Sessions {
    /// How many entries are forgotten.
    pub(crate) forgotten: usize,
    /// Where each client's session is, which it keeps for ever.
    pub(crate) indices: SortedMap<u64, usize>,
    pub(crate) sessions: Vec<Client>,
    /// A client of which nothing is known, made ready with room for one reply; `sessions` has room for it.
    spare: Option<Client>,
    /// The clients that are changed: those whose sessions say so.
    changed: Vec<u64>,
}

impl Model for Sessions {
    ghost use Rattle.std.specs.Prelude.{◌≡◌, ◌<◌, ◌≤◌, ◌^◌, IfSome, nat_lt, vec_len, vec_capacity};
    ghost use Rattle.std.specs.Ordering.{nat_cmp};
    ghost use Rattle.std.specs.Coded.{codes};
    ghost use Rattle.std.specs.FinMap as map;
    ghost use Rattle.sorted_map.specs.SortedMap.{contents};
    ghost use Rattle.sessions.specs.Table.{no_row};
    ghost use Rattle.sessions.specs.Rooms.{AreIndexed, AreListed, HeldSessions};

    ghost Value = { HeldSessions };

    ghost coded = { Prim.hlevel (codes, map.code) };

    ghost view = { λ s. record {
      forgotten = s.forgotten;
      indices = contents nat_cmp s.indices;
      sessions = s.sessions.items;
      room = s.indices.room;
      spare = s.spare;
      changed = s.changed.items;
      changed_fits = nat_lt (vec_len s.changed) (vec_capacity s.changed);
    } };

    ghost invariant = { λ s. AreIndexed (contents nat_cmp s.indices) s.sessions.items
        × IfSome s.spare (λ spare. (spare.row ≡ no_row) × (0 < spare.room)
        × (vec_len s.sessions < vec_capacity s.sessions)) × (s.forgotten ≤ 2 ^ 62)
        × AreListed (contents nat_cmp s.indices) s.sessions.items s.changed.items };
}

impl Sessions {
    /// The table of no requests.
    pub fn new(alloc: Global) -> Sessions
        ensures empty { table result ≡ no_table }
        ensures changed { result.changed ≡ [] }
    {
        Sessions {
            forgotten: 0,
            indices: SortedMap::new(alloc),
            sessions: Vec::new(alloc),
            spare: None,
            changed: Vec::new(alloc),
        }
    }

    /// How many entries are forgotten: the place of the first one that isn't.
    pub fn forgotten(&self) -> usize
        ensures forgotten { result ≡ (table self.now).forgotten }
        ensures most { result ≤ 2 ^ 62 }
    {
        self.forgotten
    }

    /// What a request of the client is to the history, whose table this is, and of a new one where the client's session
    /// is. `history` has the entries that aren't forgotten: from whichever past they go on, the request is this to all
    /// of them together. Takes no memory, and two look-ups by binary search; one more for a kept reply.
    pub fn seen<'a>(&'a self, history: &'a [Entry], client: u64, tid: u64, oldest: u64) -> Seen<'a>
        requires { (past : List Applied) × IsTableOf (past ++ history.now) (table self.now)
            × AreSetAside past history.now (table self.now) }
        ensures seen { (past : List Applied) → IsTableOf (past ++ history.entry.now) (table self.now)
            → AreSetAside past history.entry.now (table self.now)
            → IsSeen (past ++ history.entry.now) client tid oldest result }
        ensures session { TellsSession self.now client result }
    {
        let at = self.find(client);
        match at.session {
            Some(i) => self.sessions[i].seen(history, self.forgotten, at, tid, oldest),
            None if tid < oldest => Seen::Trimmed,
            None => Seen::New(at),
        }
    }

    // Where the session of a client is.
    pub(crate) fn find(&self, client: u64) -> SessionAt
        ensures named { result.client ≡ client }
        ensures found { IsSessionAt self.now result }
    {
        SessionAt {
            client,
            session: self.indices.get(&client).copied(),
        }
    }

    /// Makes room for one more reply to the client whose session is there, so that keeping it can't fail. Where the
    /// room is there already nothing is done. May be refused for want of memory alone; the table stays as it was in
    /// either case, and the session where it is.
    pub fn reserve(&mut self, alloc: Global, at: &SessionAt) -> Result<(), Refusal>
        requires { IsSessionAt self.old at.now }
        ensures ready { OnOk result (IsReady self.new at.now.client) }
        ensures session { IsSessionAt self.new at.now }
        ensures same { table self.new ≡ table self.old }
        ensures changed { self.new.changed ≡ self.old.changed }
        ensures there { IsReady self.old at.now.client → IsOk result × (self.new ≡ self.old) }
        ensures err { IfErr result (λ e. e ≡ Refusal.NoMemory) }
    {
        place_for_one(&mut self.changed)?;
        if let Some(i) = at.session {
            self.sessions[i].reserve()?;
            return Ok(());
        }
        self.indices.reserve(1)?;
        if self.spare.is_none() {
            self.sessions.reserve(1)?;
            self.spare = Some(roomy(alloc)?);
        }
        Ok(())
    }

    /// Keeps the reply to a request that was applied at this place of the history, for which room was made, and tells
    /// where the client's session is then. It can't fail. The client's mark rises to the request's `oldest`, and the
    /// client is changed.
    pub fn keep(&mut self, at: SessionAt, tid: u64, oldest: u64, place: usize) -> SessionAt
        requires there { IsSessionAt self.old at }
        requires ready { IsReady self.old at.client }
        ensures kept { table self.new ≡ noted (table self.old) at.client tid oldest place }
        ensures changed { self.new.changed ≡ with_changed self.old.changed at.client }
        ensures named { result.client ≡ at.client }
        ensures session { IsSessionAt self.new result }
    {
        match at.session {
            Some(i) => {
                if self.sessions[i].keep(tid, oldest, place) {
                    self.changed.push_reserved(at.client);
                }
                at
            }
            None => {
                let Some(mut fresh) = self.spare.take() else {
                    unreachable!()
                };
                fresh.keep(tid, oldest, place);
                self.changed.push_reserved(at.client);
                let i = self.sessions.len();
                self.sessions.push_reserved(fresh);
                add(&mut self.indices, at.client, i);
                SessionAt {
                    client: at.client,
                    session: Some(i),
                }
            }
        }
    }

    /// Forgets so many entries of the front of the history, or fewer, and tells how many. The replies of them that are
    /// kept are moved to their sessions. Takes memory for these alone, and stops where it is refused: at an entry whose
    /// reply is kept; or once 2^62 entries are forgotten. The entries that stay are moved once.
    pub fn forget(&mut self, history: &mut Vec<Entry>, count: usize) -> usize
        requires { count ≤ length history.old.items }
        ensures few { result ≤ count }
        ensures stops { (e : Applied) → result < count
            → StopsForgetting (table self.new) (slice_index_or history.old.items result e) }
        ensures left { history.new.items ≡ drop result history.old.items }
        ensures aside { table self.new ≡ forget_all (table self.old) (take result history.old.items) }
        ensures changed { self.new.changed ≡ self.old.changed }
    {
        let gone = self.forget_while(history, count, true);
        cut(history, gone);
        gone
    }

    /// Forgets so many entries of the front of the history, or fewer, and tells how many: those before the first whose
    /// reply is kept. Takes no memory. The entries that stay are moved once.
    pub fn forget_passed(&mut self, history: &mut Vec<Entry>, count: usize) -> usize
        requires { count ≤ length history.old.items }
        ensures few { result ≤ count }
        ensures stops { (e : Applied) → result < count
            → StopsForgetting (table self.new) (slice_index_or history.old.items result e) }
        ensures left { history.new.items ≡ drop result history.old.items }
        ensures stays { (table self.new).rows ≡ (table self.old).rows }
        ensures aside { table self.new ≡ forget_all (table self.old) (take result history.old.items) }
        ensures changed { self.new.changed ≡ self.old.changed }
    {
        let gone = self.forget_while(history, count, false);
        cut(history, gone);
        gone
    }

    // Forgets the first entries, which stay in the history so far, up to one that has to stay: one whose reply is kept
    // and may not be moved, or can't.
    fn forget_while(&mut self, history: &mut Vec<Entry>, count: usize, may_move: bool) -> usize
        requires { count ≤ length history.old.items }
        ensures few { result ≤ count }
        ensures stops { (e : Applied) → result < count
            → StopsForgetting (table self.new) (slice_index_or history.old.items result e) }
        ensures left { drop result history.new.items ≡ drop result history.old.items }
        ensures long { length history.new.items ≡ length history.old.items }
        ensures stays { may_move ≡ false → (table self.new).rows ≡ (table self.old).rows }
        ensures aside { table self.new ≡ forget_all (table self.old) (take result history.old.items) }
        ensures changed { self.new.changed ≡ self.old.changed }
    {
        for i in 0..count {
            if !self.forget_one(&mut history[i], may_move) {
                return i;
            }
        }
        count
    }

    // Forgets the first entry that isn't forgotten, which is this one: what is kept of it is moved here. Where that may
    // not be, or can't, all is as it was, and false is told.
    fn forget_one(&mut self, first: &mut Entry, may_move: bool) -> bool
        ensures gone { result ≡ true → table self.new ≡ forget_first (table self.old) first.old }
        ensures left { result ≡ false → table self.new ≡ table self.old }
        ensures entry { result ≡ false → first.new ≡ first.old }
        ensures stops { result ≡ false → StopsForgetting (table self.old) first.old }
        ensures stays { may_move ≡ false → (table self.new).rows ≡ (table self.old).rows }
        ensures changed { self.new.changed ≡ self.old.changed }
    {
        if self.forgotten == MOST_FORGOTTEN {
            return false;
        }
        if !self.release(first, may_move) {
            return false;
        }
        self.forgotten += 1;
        true
    }

    // The first entry that isn't forgotten, which is this one, may be: what is kept of it is moved here. Where that may
    // not be, or can't, all is as it was, and false is told.
    fn release(&mut self, first: &mut Entry, may_move: bool) -> bool
        ensures gone { result ≡ true → table self.new ≡ released (table self.old) first.old }
        ensures left { result ≡ false → table self.new ≡ table self.old }
        ensures entry { result ≡ false → first.new ≡ first.old }
        ensures kept { result ≡ false → keeps_first (table self.old) first.old ≡ true }
        ensures stays { may_move ≡ false → (table self.new).rows ≡ (table self.old).rows }
        ensures changed { self.new.changed ≡ self.old.changed }
    {
        match self.find(first.client).session {
            Some(i) => self.sessions[i].forget(first, self.forgotten, may_move),
            None => true,
        }
    }

    /// Forgets the replies below its mark of the client whose session is there. What is stored of the client stays.
    pub fn trim(&mut self, at: SessionAt)
        requires { IsSessionAt self.old at }
        ensures trimmed { table self.new ≡ trimmed (table self.old) at.client }
        ensures changed { self.new.changed ≡ self.old.changed }
    {
        if let Some(i) = at.session {
            self.sessions[i].trim();
        }
    }

    /// The clients whose mark or kept replies were changed since `clear_changed` was last called, in the order in which
    /// this happened first: those to whom a reply was kept.
    pub fn changed(&self) -> &[u64]
        ensures { result.now ≡ self.now.changed }
    {
        &self.changed
    }

    /// Counts no client as changed any more. It is called once what is kept of the changed ones is stored.
    pub fn clear_changed(&mut self)
        ensures none { self.new.changed ≡ [] }
        ensures stored { table self.new ≡ all_stored (table self.old) }
    {
        clear(&self.indices, &mut self.sessions, &self.changed);
        self.changed.clear();
    }

    /// What is kept of a client, to be stored; nothing, where it isn't there. `history` has the entries that aren't
    /// forgotten. Takes no memory.
    pub fn kept<'a>(&'a self, history: &'a [Entry], client: u64) -> Option<ClientKept<'a>>
        requires { (past : List Applied) × IsTableOf (past ++ history.now) (table self.now)
            × AreSetAside past history.now (table self.now) }
        ensures { IsKept history.entry.now (table self.now) client result }
    {
        match self.find(client).session {
            Some(i) => Some(self.sessions[i].kept(history, self.forgotten)),
            None => None,
        }
    }
}

impl fmt::Debug for Sessions {
    /// The clients. The session that is made ready is room, and no part of the table.
    fn fmt<W: fmt::Write>(&self, f: &mut fmt::Formatter<W>) -> fmt::Result {
        let Sessions {
            indices,
            sessions,
            ..
        } = self;
        write!(f, "Sessions({indices:?}, {sessions:?})")
    }
}

// Removes so many entries of the front. Where at least as many go as stay, those that stay change places with the first.
fn cut(history: &mut Vec<Entry>, gone: usize)
    requires { gone ≤ length history.old.items }
    ensures { history.new.items ≡ drop gone history.old.items }
{
    let stay = history.len() - gone;
    if stay > gone {
        drop(history.drain(..gone));
        return;
    }
    let (front, back) = history.split_at_mut(gone);
    front[..stay].swap_with_slice(back);
    history.truncate(stay);
}

// A client of which nothing is known, with room for one reply.
fn roomy(alloc: Global) -> Result<Client, AllocError>
    ensures { IfOk result (λ client. (client.row ≡ no_row) × (0 < client.room)) }
{
    let mut fresh = Client::new(alloc);
    fresh.reserve()?;
    Ok(fresh)
}

// Makes room in the list of the changed clients for one more.
fn place_for_one(changed: &mut Vec<u64>) -> Result<(), AllocError>
    ensures same { changed.new.items ≡ changed.old.items }
    ensures fits { OnOk result (nat_lt (vec_len changed.new) (vec_capacity changed.new) ≡ true) }
    ensures refused { OnErr result (nat_lt (vec_len changed.new) (vec_capacity changed.new)
        ≡ nat_lt (vec_len changed.old) (vec_capacity changed.old)) }
    ensures there { nat_lt (vec_len changed.old) (vec_capacity changed.old) ≡ true → IsOk result }
{
    changed.reserve(1)
}

// Adds a client that isn't there yet, for which there is room.
pub(crate) fn add(indices: &mut SortedMap<u64, usize>, client: u64, i: usize)
    requires { 0 < indices.old.room }
    ensures { contents nat_cmp indices.new ≡ map.insert (contents nat_cmp indices.old) client i }
{
    let _ = indices.insert(client, i);
}

// Of these clients none is changed any more.
fn clear(indices: &SortedMap<u64, usize>, sessions: &mut Vec<Client>, changed: &[u64])
    requires { AreIndexed (contents nat_cmp indices.now) sessions.old.items }
    ensures rows { (i : ℕ) → row_at sessions.new.items i ≡ row_at sessions.old.items i }
    ensures long { length sessions.new.items ≡ length sessions.old.items }
    ensures capacity { vec_capacity sessions.new ≡ vec_capacity sessions.old }
    ensures cleared { (client : ℕ) → changed_at sessions.new.items (map.get (contents nat_cmp indices.now) client)
        ≡ changed_at sessions.old.items (map.get (contents nat_cmp indices.now) client)
        && not (is_among changed.now client) }
{
    for client in changed {
        clear_one(indices, sessions, *client);
    }
}

// This client isn't changed any more.
fn clear_one(indices: &SortedMap<u64, usize>, sessions: &mut Vec<Client>, client: u64)
    requires { AreIndexed (contents nat_cmp indices.now) sessions.old.items }
    ensures rows { (i : ℕ) → row_at sessions.new.items i ≡ row_at sessions.old.items i }
    ensures long { length sessions.new.items ≡ length sessions.old.items }
    ensures capacity { vec_capacity sessions.new ≡ vec_capacity sessions.old }
    ensures cleared { (q : ℕ) → changed_at sessions.new.items (map.get (contents nat_cmp indices.now) q)
        ≡ cond (q == client) false (changed_at sessions.old.items (map.get (contents nat_cmp indices.now) q)) }
{
    if let Some(i) = indices.get(&client).copied() {
        sessions[i].clear_changed();
    }
}
