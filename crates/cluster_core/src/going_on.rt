//! The next step of a rank's exports. No memory is taken.
ghost use Rattle.std.specs.Prelude.{◌↔◌, ℕ, List, IsTrue, MatchOption};
ghost use Rattle.export_steps.specs.declared.exports.ExportState.TheVariants as at;
ghost use Rattle.inboxes.specs.declared.pins.Pin.{Pin};
ghost use Rattle.mds_types.specs.declared.ids.Rank.{Rank as RankNumber};
ghost use Rattle.cluster_core.specs.declared.events.Event.{Event as Step};
ghost use Rattle.cluster_core.specs.Proposal.{IsFirstStep, IsMine, IsNextStep, WouldFreeze, OfExport, sight_of};

use crate::events::Event;
use crate::pinned::is_region_pinned;
use export_steps::ExportState;
use inboxes::Pins;
use mds_types::{Bytes, Frag, Ino, Rank};
use objstore::Store;
use ranked_tree::RankedTree;

/// The next step of the first of a rank's exports that has one, in the order of their roots. An Import is proposed with
/// no bytes.
pub fn next_of_exports<S: Store + Drop>(
    tree: &RankedTree<S>,
    grants: &Pins,
    rank: Rank,
) -> Option<Event>
    ensures { (ranks : ℕ) → IsFirstStep (sight_of tree.now grants.now ranks rank) OfExport result }
{
    let mut after = None;
    while let Some(found) = tree.exports().next_of(rank, after) {
        let next = next_step(tree, grants, rank, found.0, found.1.state);
        if next.is_some() {
            return next;
        }
        after = Some(found.0);
    }
    None
}

// The next step of an export of the rank's, from its state, if it has one.
fn next_step<S: Store + Drop>(
    tree: &RankedTree<S>,
    grants: &Pins,
    rank: Rank,
    root: (Ino, Frag),
    state: ExportState,
) -> Option<Event>
    ensures { (ranks : ℕ) → MatchOption result
        ((event : Step) → IsNextStep (sight_of tree.now grants.now ranks rank) root state event → ⊥)
        (λ event. IsNextStep (sight_of tree.now grants.now ranks rank) root state event) }
{
    let (ino, frag) = root;
    match state {
        ExportState::Started => begin(tree, grants, rank, ino, frag),
        ExportState::Frozen => Some(Event::Prep { ino, frag }),
        ExportState::Prepared => Some(Event::Send { ino, frag }),
        ExportState::Sent => Some(Event::Import {
            ino,
            frag,
            bytes: Bytes::empty(),
        }),
        ExportState::Imported => Some(Event::Finish { ino, frag }),
    }
}

// The next step of a started export. If its root no longer exists or is another rank's, the region can never freeze,
// and the export is cancelled. Otherwise it freezes, unless a part of the region is frozen or granted.
fn begin<S: Store + Drop>(
    tree: &RankedTree<S>,
    grants: &Pins,
    rank: Rank,
    ino: Ino,
    frag: Frag,
) -> Option<Event>
    ensures { (ranks : ℕ) → MatchOption result
        ((event : Step) → IsNextStep (sight_of tree.now grants.now ranks rank) (ino, frag) at.Started event → ⊥)
        (λ event. IsNextStep (sight_of tree.now grants.now ranks rank) (ino, frag) at.Started event) }
{
    if !is_mine(tree, rank, ino, frag) {
        return Some(Event::Cancel { ino, frag });
    }
    if may_freeze(tree, grants, ino, frag) {
        return Some(Event::Freeze { ino, frag });
    }
    None
}

// Whether no part of the region that a leaf of the rank has as a root is frozen or granted.
fn may_freeze<S: Store + Drop>(tree: &RankedTree<S>, grants: &Pins, ino: Ino, frag: Frag) -> bool
    ensures { (ranks : ℕ) (rank : RankNumber) → IsMine (sight_of tree.now grants.now ranks rank) (ino, frag)
        → IsTrue result ↔ WouldFreeze (sight_of tree.now grants.now ranks rank) (ino, frag) }
{
    if tree.is_frozen(ino, frag) {
        return false;
    }
    !is_region_pinned(tree, grants, ino, frag)
}

/// Whether this leaf exists and a rank is its authority.
pub fn is_mine<S: Store + Drop>(tree: &RankedTree<S>, rank: Rank, ino: Ino, frag: Frag) -> bool
    ensures { (grants : List Pin) (ranks : ℕ) → IsTrue result ↔ IsMine
        (sight_of tree.now grants ranks rank) (ino, frag) }
{
    tree.has_leaf(ino, frag) && tree.is_authority(rank, ino, frag)
}
