//! A book that goes on with what an earlier one kept.
ghost use Rattle.std.specs.Prelude.{◌≡◌, ◌+◌, ◌<◌, ◌≤◌, [], ℕ, List, Some, get_or, length, IfErr, IfOk};
ghost use Rattle.objstore.specs.Objects.{faults_in};
ghost use Rattle.inode_table.specs.Numbers.{IsSupply};
ghost use Rattle.mds_types.specs.declared.entries.Entry.{Entry as Applied};
ghost use Rattle.sessions.specs.Rooms.{table};
ghost use Rattle.sessions.specs.Table.{mark_in};
ghost use Rattle.mdcache.specs.Mounted.{IsColdTree, MayNotMount};
ghost use Rattle.cluster_core.specs.Opening.{Opening};
ghost use Rattle.cluster_core.specs.Resumed.{AreRaised, IsRaised, TellsAll, resumes};
ghost use Rattle.cluster_core.specs.Sound.{StandsBehind, IsSound, IsSoundKept};
ghost use Rattle.cluster_core.specs.State.{no_supply, shown, supply_of};

use crate::books::Book;
use crate::clusters::Cluster;
use crate::parts::Given;
use crate::settled::Settled;
use inode_table::Numbers;
use mds_types::{Ino, Limit, Rank, Refusal};
use objstore::Store;
use sessions::Sessions;
use std::alloc::Global;
use std::mem;

// How many numbers each rank's range has.
const PER_RANK: u64 = 1 << 40;

/// A book over a store as it is, opened as `mount` opens it, that continues an earlier one. It has the sessions that
/// were kept, and each rank's next inode number is at least the one kept for that rank. A repeat of a request whose
/// reply was kept gets that reply. A request below its client's mark is refused `Trimmed`. No number below a rank's
/// next is given again. Numbers kept for ranks that this book doesn't have are ignored.
///
/// Refused as `mount` refuses; then the sessions are dropped.
pub fn resume<S: Store + Drop>(
    alloc: Global,
    store: S,
    ranks: u8,
    cache: u32,
    limit: Limit,
    sessions: Sessions,
    nexts: &[u64],
) -> Result<Book<S>, (Refusal, S)>
    requires some { 1 ≤ ranks }
    requires ranked { ranks ≤ 16 }
    requires least { 512 ≤ cache }
    requires most { cache ≤ 65536 }
    requires tells { (told : List Applied) × TellsAll told (table sessions) }
    ensures limit { IfOk result (λ book. book.core.state.tree.limit ≡ limit) }
    ensures cold { IfOk result (λ book. IsColdTree (S.objects store) (shown book.core.state)) }
    ensures opening { IfOk result (λ book. book.opening ≡ Some (shown book.core.state)) }
    ensures goes_on { (told : List Applied) → TellsAll told (table sessions) → IfOk result
        (λ book. StandsBehind (resumes (shown book.core.state) told nexts.now) told book) }
    ensures history { IfOk result (λ book. book.history ≡ []) }
    ensures sessions { IfOk result (λ book. book.core.state.sessions ≡ table sessions) }
    ensures objects { IfOk result (λ book. book.core.state.tree.objects ≡ S.objects store) }
    ensures sound { IfOk result IsSoundKept }
    ensures faults { IfOk result (λ book. book.core.faults ≡ S.faults store) }
    ensures refused { IfErr result (λ back. MayNotMount (S.objects store) (S.faults store) (S.faults back.1) back.0) }
    ensures left { IfErr result (λ back. S.objects back.1 ≡ S.objects store) }
    ensures counted { IfErr result (λ back. S.faults back.1 ≡ S.faults store + faults_in back.0) }
{
    match Cluster::mount(alloc, store, ranks, cache as usize, limit) {
        Ok((cluster, opening)) => {
            let mut cluster = cluster;
            cluster.go_on(sessions, nexts);
            Ok(Book {
                cluster,
                history: Vec::new(alloc),
                opening: Some(opening),
                settled: Settled::new(alloc),
            })
        }
        Err(back) => {
            drop(sessions);
            Err(back)
        }
    }
}

impl<S: Store + Drop> Book<S> {
    /// What is known of each client: to be kept for a book that resumes.
    pub fn sessions(&self) -> &Sessions
        ensures { table result.now ≡ self.now.core.state.sessions }
    {
        &self.cluster.parts.given.sessions
    }

    /// A client's mark: the least transaction number that is no longer refused `Trimmed`; 0 for an unknown client.
    pub fn mark(&self, client: u64) -> u64
        ensures { result ≡ mark_in self.now.core.state.sessions client }
    {
        match self
            .cluster
            .parts
            .given
            .sessions
            .kept(self.history.as_slice(), client)
        {
            Some(kept) => kept.mark,
            None => 0,
        }
    }

    /// The inode number that a rank would give next, or the end of its range: to be kept for a book that resumes.
    pub fn next_number(&self, rank: Rank) -> u64
        requires { rank.0 < length self.now.core.state.numbers }
        ensures { result ≡ (supply_of self.now.core.state rank).next }
    {
        next_of(self.cluster.parts.given.supply_of(rank), rank)
    }
}

/// The inode number that a rank would give next, or the end of its range.
pub(crate) fn next_of(numbers: Numbers, rank: Rank) -> u64
    requires ranked { rank.0 < 16 }
    requires own { numbers.rank ≡ rank.0 }
    requires valid { IsSupply numbers }
    ensures { result ≡ numbers.next }
{
    match numbers.peek() {
        Some(Ino(next)) => next,
        None => Numbers::first_of(rank).0 + PER_RANK,
    }
}

impl<S: Store + Drop> Cluster<S> {
    // Goes on with sessions that were kept, and with numbers that aren't below these.
    fn go_on(&mut self, sessions: Sessions, nexts: &[u64])
        requires { (opening : Opening) × (past : List Applied) × IsSound opening past self.old }
        ensures sessions { self.new.state.sessions ≡ table sessions }
        ensures numbers { AreRaised nexts.now self.old.state.numbers self.new.state.numbers }
        ensures same { self.new ≡ record self.old {
          state = record self.old.state
              { numbers = self.new.state.numbers; sessions = self.new.state.sessions };
        } }
    {
        self.parts.given.go_on(sessions, nexts);
    }
}

impl Given {
    // Goes on with kept sessions, and with next numbers that aren't below the kept ones.
    fn go_on(&mut self, sessions: Sessions, nexts: &[u64])
        requires few { length self.old.numbers.items ≤ 16 }
        requires own { (rank : ℕ) → rank < length self.old.numbers.items
            → (get_or self.old.numbers.items rank no_supply).rank ≡ rank }
        requires valid { (rank : ℕ) → rank < length self.old.numbers.items
            → IsSupply (get_or self.old.numbers.items rank no_supply) }
        ensures sessions { table self.new.sessions ≡ table sessions }
        ensures numbers { AreRaised nexts.now self.old.numbers.items self.new.numbers.items }
    {
        drop(mem::replace(&mut self.sessions, sessions));
        for rank in 0..self.numbers.len() {
            let next = nexts.get(rank).copied().unwrap_or(0);
            raise(&mut self.numbers[rank], rank, next);
        }
    }
}

// Raises the next number of a rank's supply to one that was kept, or to the end of the rank's range if that is less.
fn raise(numbers: &mut Numbers, rank: usize, next: u64)
    requires ranked { rank < 16 }
    requires own { numbers.old.rank ≡ rank }
    requires valid { IsSupply numbers.old }
    ensures { IsRaised numbers.old numbers.new next }
{
    if let Some(Ino(now)) = numbers.peek() {
        if now < next {
            let rank = Rank(rank as u8);
            let end = Numbers::first_of(rank).0 + PER_RANK;
            *numbers = Numbers::from(rank, next.min(end));
        }
    }
}
