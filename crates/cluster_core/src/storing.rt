//! What a store keeps of a book: its objects, and beside them its sessions and the next numbers of its ranks.
ghost use Rattle.std.specs.Prelude.{◌≡◌, ◌<◌, ◌≤◌, true, ℕ, List, length, get_or, IfErr, IfOk, OnErr, OnOk};
ghost use Rattle.inode_table.specs.Numbers.{IsSupply};
ghost use Rattle.mds_types.specs.declared.entries.Entry.{Entry as Applied};
ghost use Rattle.sessions.specs.Table.{all_stored};
ghost use Rattle.cluster_core.specs.KeptSessions.{AreNextOf, KeepsSessions, WritesAll, with_stored};
ghost use Rattle.cluster_core.specs.Opening.{Opening};
ghost use Rattle.cluster_core.specs.Sound.{GoesOnBehind, IsSoundBehind};
ghost use Rattle.cluster_core.specs.State.{no_supply, with_sessions};

use crate::books::Book;
use crate::clusters::Cluster;
use crate::parts::Given;
use crate::resuming::next_of;
use keeping::{Keep, RowEdit, Unkept};
use mds_types::{Entry, Rank};
use objstore::Store;
use session_rows::edits_of;
use std::alloc::{AllocError, Global};
use std::snapshot::Snapshot;

impl<S: Keep + Drop> Book<S> {
    /// Keeps the content of the store so that it outlives the process. A store that keeps rows also gets what `resume`
    /// needs: what is kept of each client that changed since the last `keep` that returned Ok, and each rank's next
    /// inode number. Then no client is changed any more; else the book stays as it is, and so it does on an error. The
    /// results are the store before and after, for contracts alone.
    pub fn keep(&mut self) -> Result<(Snapshot<S>, Snapshot<S>), Unkept>
        ensures stored { OnOk result (self.new ≡ with_stored self.old) }
        ensures same { OnErr result (self.new ≡ self.old) }
        ensures goes_on { GoesOnBehind self.old self.new }
        ensures objects { IfOk result (λ s. S.objects s.1.value ≡ self.old.core.state.tree.objects) }
        ensures sessions { S.has_rows ≡ true
            → IfOk result (λ s. KeepsSessions self.old (λ edits. S.Takes s.0.value edits s.1.value)) }
        ensures failed { IfErr result (λ _. S.may_fail) }
    {
        let kept = self.keep_all()?;
        self.cluster.count_stored();
        Ok(kept)
    }

    // Keeps the content of the store, and beside it what changed of the sessions, if the store keeps rows.
    fn keep_all(&mut self) -> Result<(Snapshot<S>, Snapshot<S>), Unkept>
        ensures same { self.new ≡ self.old }
        ensures objects { IfOk result (λ s. S.objects s.1.value ≡ self.old.core.state.tree.objects) }
        ensures sessions { S.has_rows ≡ true
            → IfOk result (λ s. KeepsSessions self.old (λ edits. S.Takes s.0.value edits s.1.value)) }
        ensures failed { IfErr result (λ _. S.may_fail) }
    {
        if !self.cluster.store().keeps_rows() {
            return self.cluster.keep(&[]);
        }
        match self.cluster.edits(self.history.as_slice()) {
            Ok(edits) => self.cluster.keep(edits.as_slice()),
            Err(AllocError) => Err(Unkept::NoMemory),
        }
    }

    /// Gathers all that was kept in one place, at the end of a run. Whatever it returns, the book is unchanged.
    pub fn settle(&mut self) -> Result<(), Unkept>
        ensures same { self.new ≡ self.old }
        ensures failed { IfErr result (λ _. S.may_fail) }
    {
        self.cluster.settle()
    }
}

impl<S: Store + Drop> Cluster<S> {
    // The edits that store what is kept of the changed clients, and the next number of each rank.
    fn edits(&self, history: &[Entry]) -> Result<Vec<RowEdit>, AllocError>
        requires { (opening : Opening) × (past : List Applied) × IsSoundBehind opening past history.now self.now }
        ensures { IfOk result (λ edits. WritesAll history.now self.now edits.items) }
    {
        let alloc = *self.parts.given.numbers.allocator();
        let nexts = self.parts.given.next_numbers(alloc)?;
        edits_of(alloc, &self.parts.given.sessions, history, nexts.as_slice())
    }

    // No client counts as changed any more.
    fn count_stored(&mut self)
        ensures { self.new ≡ with_sessions self.old (all_stored self.old.state.sessions) }
    {
        self.parts.given.sessions.clear_changed();
    }
}

impl Given {
    // The number that each rank would give next, or the end of its range.
    fn next_numbers(&self, alloc: Global) -> Result<Vec<u64>, AllocError>
        requires few { length self.now.numbers.items ≤ 16 }
        requires own { (rank : ℕ) → rank < length self.now.numbers.items
            → (get_or self.now.numbers.items rank no_supply).rank ≡ rank }
        requires valid { (rank : ℕ) → rank < length self.now.numbers.items
            → IsSupply (get_or self.now.numbers.items rank no_supply) }
        ensures { IfOk result
            (λ nexts. AreNextOf (length self.now.numbers.items) self.now.numbers.items nexts.items) }
    {
        let mut nexts = Vec::new(alloc);
        for rank in 0..self.numbers.len() {
            nexts.push(next_of(self.numbers[rank], Rank(rank as u8)))?;
        }
        Ok(nexts)
    }
}
