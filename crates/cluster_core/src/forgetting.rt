//! What a book forgets: a beginning of its history, and the tree that it opened with.
ghost use Rattle.std.specs.Prelude.{◌≡◌, ◌<◌, ◌≤◌, ◌+◌, ◌-◌, ◌^◌, ◌++◌, None, List, length, take, drop};
ghost use Rattle.std.specs.List.{slice_index_or};
ghost use Rattle.cluster_core.specs.Opening.{Opening};
ghost use Rattle.mds_types.specs.declared.entries.Entry.{Entry as Applied};
ghost use Rattle.sessions.specs.Aside.{StopsForgetting, forget_all};
ghost use Rattle.cluster_core.specs.Sound.{GoesOnBehind, StandsBehind};
ghost use Rattle.cluster_core.specs.State.{places_of, with_sessions};

use crate::books::Book;
use crate::clusters::Cluster;
use crate::plain_trees::PlainTree;
use mds_types::Entry;
use objstore::Store;

impl<S: Store + Drop> Cluster<S> {
    // Forgets so many entries from the front of the history, or fewer. Returns how many, as `Sessions::forget` tells.
    fn forget(&mut self, history: &mut Vec<Entry>, count: usize) -> usize
        requires { count ≤ length history.old.items }
        ensures few { result ≤ count }
        ensures stops { (e : Applied) → result < count
            → StopsForgetting self.new.state.sessions (slice_index_or history.old.items result e) }
        ensures left { history.new.items ≡ drop result history.old.items }
        ensures core { self.new ≡ with_sessions self.old
            (forget_all self.old.state.sessions (take result history.old.items)) }
    {
        self.parts.given.sessions.forget(history, count)
    }

    // Forgets so many entries from the front of the history, or fewer. Returns how many, as `Sessions::forget_passed`
    // tells.
    fn forget_passed(&mut self, history: &mut Vec<Entry>, count: usize) -> usize
        requires { count ≤ length history.old.items }
        ensures few { result ≤ count }
        ensures stops { (e : Applied) → result < count
            → StopsForgetting self.new.state.sessions (slice_index_or history.old.items result e) }
        ensures left { history.new.items ≡ drop result history.old.items }
        ensures stays { self.new.state.sessions.rows ≡ self.old.state.sessions.rows }
        ensures core { self.new ≡ with_sessions self.old
            (forget_all self.old.state.sessions (take result history.old.items)) }
    {
        self.parts.given.sessions.forget_passed(history, count)
    }

    // How many entries are forgotten.
    fn forgotten(&self) -> usize
        ensures forgotten { result ≡ self.now.state.sessions.forgotten }
        ensures most { result ≤ 2 ^ 62 }
    {
        self.parts.given.sessions.forgotten()
    }
}

impl<S: Store + Drop> Book<S> {
    /// How many entries there ever were: the forgotten ones and those of the history. It is the place of the next
    /// entry.
    pub fn places(&self) -> usize
        ensures { result ≡ places_of self.now }
    {
        self.cluster.forgotten() + self.history.len()
    }

    /// Forgets all but so many of the last entries of the history, if that forgets at least as many as it keeps, so
    /// that it costs constant work for each entry. Otherwise forgets nothing. Returns how many entries were forgotten.
    /// No answer of the book shows that entries are forgotten: a reply that is kept for a client is moved from its
    /// entry to the client's session. No place changes. The opening tree is no longer kept.
    ///
    /// Takes memory for the moved replies alone. If that is refused, this entry and all behind it stay, and a later
    /// call goes on there. The same happens once 2^62 entries are forgotten.
    pub fn forget(&mut self, keep: usize) -> usize
        ensures few { result ≤ length self.old.history - keep }
        ensures waits { length self.old.history - keep < keep → result ≡ 0 }
        ensures stops { (e : Applied) → keep ≤ length self.old.history - keep → result < length self.old.history - keep
            → StopsForgetting self.new.core.state.sessions (slice_index_or self.old.history result e) }
        ensures left { self.new.history ≡ drop result self.old.history }
        ensures core { self.new.core ≡ with_sessions self.old.core
            (forget_all self.old.core.state.sessions (take result self.old.history)) }
        ensures nothing { result ≡ 0 → self.new ≡ self.old }
        ensures opening { 0 < result → self.new.opening ≡ None }
        ensures goes_on { (opening : Opening) (past : List Applied) → StandsBehind opening past self.old
            → StandsBehind opening (past ++ take result self.old.history) self.new }
    {
        let gone = self.history.len().saturating_sub(keep);
        if gone < keep {
            return 0;
        }
        let went = self.cluster.forget(&mut self.history, gone);
        forget_opening(&mut self.opening, went);
        went
    }

    /// Forgets entries from the front of the history up to the first whose reply is kept for a client, and returns how
    /// many. A repeat is therefore still answered from the history. Nothing else changes, but the opening tree is no
    /// longer kept if any entry was forgotten. Takes no memory, and moves the entries that stay.
    pub fn forget_passed(&mut self) -> usize
        ensures few { result ≤ length self.old.history }
        ensures stops { (e : Applied) → result < length self.old.history
            → StopsForgetting self.new.core.state.sessions (slice_index_or self.old.history result e) }
        ensures left { self.new.history ≡ drop result self.old.history }
        ensures stays { self.new.core.state.sessions.rows ≡ self.old.core.state.sessions.rows }
        ensures core { self.new.core ≡ with_sessions self.old.core
            (forget_all self.old.core.state.sessions (take result self.old.history)) }
        ensures nothing { result ≡ 0 → self.new ≡ self.old }
        ensures opening { 0 < result → self.new.opening ≡ None }
        ensures goes_on { (opening : Opening) (past : List Applied) → StandsBehind opening past self.old
            → StandsBehind opening (past ++ take result self.old.history) self.new }
    {
        let count = self.history.len();
        let went = self.cluster.forget_passed(&mut self.history, count);
        forget_opening(&mut self.opening, went);
        went
    }

    /// Drops the tree that the book opened with. It is a second copy of a tree, which no call needs. Nothing else
    /// changes.
    pub fn drop_opening(&mut self)
        ensures gone { self.new.opening ≡ None }
        ensures history { self.new.history ≡ self.old.history }
        ensures core { self.new.core ≡ self.old.core }
        ensures goes_on { GoesOnBehind self.old self.new }
    {
        drop(self.opening.take());
    }
}

// If entries were forgotten, the opening tree is forgotten too.
fn forget_opening(opening: &mut Option<PlainTree>, went: usize)
    ensures stays { went ≡ 0 → opening.new ≡ opening.old }
    ensures gone { 0 < went → opening.new ≡ None }
{
    if went > 0 {
        drop(opening.take());
    }
}
