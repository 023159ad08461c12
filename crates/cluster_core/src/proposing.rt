//! The step that a rank proposes of its own.
ghost use Rattle.std.specs.Prelude.{◌≡◌, ◌↔◌, ◌∷◌, [], ◌<◌, true, IsTrue, List, None, Ok, length};
ghost use Rattle.inboxes.specs.declared.pins.Pin.{Pin};
ghost use Rattle.cluster_core.specs.Proposal.{IsFirstKindOf, IsFirstStep, IsProposal, OfLarge, OfPin, OfSmall, Proposes, WouldNot, sight, sight_of};
ghost use Rattle.cluster_core.specs.Settled.{HasSettled};

use crate::books::Book;
use crate::clusters::Cluster;
use crate::events::Event;
use crate::going_on::next_of_exports;
use crate::pinned_away::first_start;
use crate::regroups::{first_merge, first_split};
use inboxes::Pins;
use mds_types::{Rank, Refusal};
use objstore::Store;
use ranked_tree::RankedTree;

impl<S: Store + Drop> Cluster<S> {
    // The rank's own next step, if it has one. If `is_settled`, no subtree of the rank is pinned to another rank, and
    // none is looked for.
    //
    // Refused `NotAuthority` exactly where there is no such rank.
    fn propose(&self, rank: Rank, is_settled: bool) -> Result<Option<Event>, Refusal>
        requires settled { is_settled ≡ true → HasSettled self.now.state rank }
        requires numbers { length self.now.state.inboxes ≡ length self.now.state.numbers }
        requires caches { length self.now.caches.used ≡ length self.now.state.numbers }
        ensures proposed { Proposes self.now rank result }
    {
        if !self.is_rank(rank) {
            return Err(Refusal::NotAuthority);
        }
        let ranks = self.parts.waiting.inboxes.ranks();
        Ok(proposal(
            &self.parts.tree,
            &self.parts.waiting.pins,
            ranks,
            rank,
            is_settled,
        ))
    }
}

impl<S: Store + Drop> Book<S> {
    /// The rank's own next step, if it has one. It is the first of these that there is: the next step of an export
    /// whose exporter it is; the split of a leaf with more than 10,000 entries; the merge of eight leaves with fewer
    /// than 50 together; the start of an export of a leaf that is pinned to another rank. Each is proposed for the
    /// least leaf. Nothing changes.
    ///
    /// Refused `NotAuthority` exactly where there is no such rank.
    pub fn propose(&mut self, rank: Rank) -> Result<Option<Event>, Refusal>
        ensures same { self.new ≡ self.old }
        ensures proposed { Proposes self.old.core rank result }
    {
        let is_settled = self.settled.knows(rank);
        let proposed = self.cluster.propose(rank, is_settled);
        if is_nothing(&proposed) {
            self.note_settled(rank);
        }
        proposed
    }

    // Notes that no subtree of a rank is pinned to another rank, if the rank proposes nothing and there is no export.
    fn note_settled(&mut self, rank: Rank)
        requires { IsProposal (sight self.old.core rank) None }
        ensures { self.new ≡ self.old }
    {
        if self.cluster.has_no_export() {
            self.settled.note(rank);
        }
    }
}

// Whether nothing was proposed.
fn is_nothing(proposed: &Result<Option<Event>, Refusal>) -> bool
    ensures { IsTrue result ↔ (proposed.now ≡ Ok None) }
{
    match proposed {
        Ok(None) => true,
        Ok(Some(_)) => false,
        Err(_) => false,
    }
}

// The first step of the four kinds, in their order.
fn proposal<S: Store + Drop>(
    tree: &RankedTree<S>,
    grants: &Pins,
    ranks: usize,
    rank: Rank,
    is_settled: bool,
) -> Option<Event>
    requires there { rank.0 < length tree.now.tree.caches.used }
    requires settled { is_settled ≡ true → WouldNot (sight_of tree.now grants.now ranks rank) OfPin }
    ensures { IsProposal (sight_of tree.now grants.now ranks rank) result }
{
    let going_on = next_of_exports(tree, grants, rank);
    if going_on.is_some() {
        return going_on;
    }
    after_exports(tree, grants, ranks, rank, is_settled)
}

// The first step of the last three kinds: a split, a merge, or the start of an export.
fn after_exports<S: Store + Drop>(
    tree: &RankedTree<S>,
    grants: &Pins,
    ranks: usize,
    rank: Rank,
    is_settled: bool,
) -> Option<Event>
    requires there { rank.0 < length tree.now.tree.caches.used }
    requires settled { is_settled ≡ true → WouldNot (sight_of tree.now grants.now ranks rank) OfPin }
    ensures { IsFirstKindOf (sight_of tree.now grants.now ranks rank) (OfLarge ∷ OfSmall ∷ OfPin ∷ []) result }
{
    let split = first_split(tree, grants, rank);
    if split.is_some() {
        return split;
    }
    after_splits(tree, grants, ranks, rank, is_settled)
}

// The first step of the last two kinds: a merge or the start of an export.
fn after_splits<S: Store + Drop>(
    tree: &RankedTree<S>,
    grants: &Pins,
    ranks: usize,
    rank: Rank,
    is_settled: bool,
) -> Option<Event>
    requires there { rank.0 < length tree.now.tree.caches.used }
    requires settled { is_settled ≡ true → WouldNot (sight_of tree.now grants.now ranks rank) OfPin }
    ensures { IsFirstKindOf (sight_of tree.now grants.now ranks rank) (OfSmall ∷ OfPin ∷ []) result }
{
    let merge = first_merge(tree, grants, rank);
    if merge.is_some() {
        return merge;
    }
    start_unless(tree, ranks, rank, is_settled)
}

// The start of an export, unless it is known that there is none.
fn start_unless<S: Store + Drop>(
    tree: &RankedTree<S>,
    ranks: usize,
    rank: Rank,
    is_settled: bool,
) -> Option<Event>
    ensures { (grants : List Pin) → (is_settled ≡ true → WouldNot (sight_of tree.now grants ranks rank) OfPin)
        → IsFirstStep (sight_of tree.now grants ranks rank) OfPin result }
{
    if is_settled {
        return None;
    }
    first_start(tree, ranks, rank)
}
