//! Laws of exports, for the crates that hold them. A law is its contract: its body does nothing.
ghost use Rattle.std.specs.Prelude.{◌≡◌, ◌↔◌};
ghost use Rattle.mds_types.specs.declared.ids.Rank.{Rank};
ghost use Rattle.inode_table.specs.Dirs.{Homes, Covers};
ghost use Rattle.mds_types.specs.Leaf.{Leaf};
ghost use Rattle.subtree_map.specs.Authority.{IsSubtrees, Roots};
ghost use Rattle.subtree_map.specs.Changes.{Subtrees as SubtreesSeen};
ghost use Rattle.export_steps.specs.Standing.{ArePlaced, ComesTo, IsCancel, IsFinish, IsPrep, IsStart, Standing};
ghost use Rattle.export_steps.specs.declared.exports.ExportState.TheVariants as state;
ghost use Rattle.export_steps.specs.Holder.{holding};
ghost use Rattle.export_steps.specs.Laws.{EachLeafHasHolder, NoLeafHasTwoHolders, IsFrozenAsItsRoot, IsFrozenAsItsNewRoot, SplitsKeepFrozen, MergesKeepFrozen, MovesKeepFrozen, NewDirectoriesKeepFrozen, RemovalsKeepFrozen, FreezesKeepFrozen, FinishesKeepFrozen, StartKeepsHolders, StartKeepsPlaced, FreezeKeepsHolders, PrepKeepsHolders, SendKeepsHolders, SendKeepsPlaced, ImportHandsOver, FinishKeepsHolders, CancelKeepsHolders, HoldersAreAuthorities, RegionsKeepHolders, RegionsKeepFrozen, FreezeChangesHolding, ImportChangesHolding, ReplacementsKeepFrozen};

/// Each leaf has a holder, and no other.
pub fn each_leaf_has_one_holder()
    ensures some { EachLeafHasHolder }
    ensures one { NoLeafHasTwoHolders }
{}

/// A region is frozen exactly as its root is: all of its leaves, or none. So is, before a Freeze, the region that its
/// root will have.
pub fn a_region_is_frozen_as_its_root_is()
    ensures stands { IsFrozenAsItsRoot }
    ensures comes { IsFrozenAsItsNewRoot }
{}

/// A split elsewhere leaves each frozen region as it is.
pub fn splits_elsewhere_keep_frozen_regions()
    ensures { SplitsKeepFrozen }
{}

/// A merge elsewhere leaves each frozen region as it is.
pub fn merges_elsewhere_keep_frozen_regions()
    ensures { MergesKeepFrozen }
{}

/// A directory's move elsewhere leaves each frozen region as it is.
pub fn moves_elsewhere_keep_frozen_regions()
    ensures { MovesKeepFrozen }
{}

/// A new directory elsewhere leaves each frozen region as it is.
pub fn new_directories_elsewhere_keep_frozen_regions()
    ensures { NewDirectoriesKeepFrozen }
{}

/// A directory's removal elsewhere leaves each frozen region as it is.
pub fn removals_elsewhere_keep_frozen_regions()
    ensures { RemovalsKeepFrozen }
{}

/// Freeze of a leaf that isn't frozen leaves each region that was frozen before as it is: two exports stand side by
/// side.
pub fn freezes_elsewhere_keep_frozen_regions()
    ensures { FreezesKeepFrozen }
{}

/// Finish leaves the region of each other export that is frozen as it is.
pub fn finishes_elsewhere_keep_frozen_regions()
    ensures { FinishesKeepFrozen }
{}

/// Start leaves every leaf its holder and its authority, since the roots stay, and no other leaf is frozen. What Finish
/// changes keeps its place.
pub fn start_keeps_holders()
    ensures kept { StartKeepsHolders }
    ensures placed { StartKeepsPlaced }
{}

/// Freeze of a leaf whose authority is the exporter, and which isn't frozen: its region freezes, and every leaf keeps
/// its holder and its authority.
pub fn freeze_keeps_holders()
    ensures { FreezeKeepsHolders }
{}

/// Prep leaves holders, authorities and frozen leaves as Start does.
pub fn prep_keeps_holders()
    ensures kept { PrepKeepsHolders }
    ensures placed { (old new : Standing) (was now : SubtreesSeen) (root : Leaf) → IsPrep old new was now root
        → ArePlaced old was → ArePlaced new now }
{}

/// And so does Send.
pub fn send_keeps_holders()
    ensures kept { SendKeepsHolders }
    ensures placed { SendKeepsPlaced }
{}

/// Import makes the importer the holder of the region, and of no other leaf.
pub fn import_hands_the_region_over()
    ensures { ImportHandsOver }
{}

/// Finish makes the importer the authority of the region and thaws it; every leaf keeps its holder.
pub fn finish_keeps_holders()
    ensures { FinishKeepsHolders }
{}

/// Cancel thaws the region; every leaf keeps its holder, and its authority too, since the roots stay.
pub fn cancel_keeps_holders()
    ensures { CancelKeepsHolders }
{}

/// The holder of a leaf is its authority among the roots with the ranks that hold their regions. These are subtrees as
/// the roots are.
pub fn holders_are_authorities()
    ensures same { HoldersAreAuthorities }
    ensures valid { (standing : Standing) (roots : Roots) (homes : Homes) (covers : Covers)
        → IsSubtrees roots homes covers ↔ IsSubtrees (holding standing roots) homes covers }
{}

/// Where each frozen region has the leaves that it had, and each leaf that stays its authority, each such leaf has its
/// holder, and is frozen as it was.
pub fn regions_and_authorities_keep_holders()
    ensures holders { RegionsKeepHolders }
    ensures frozen { RegionsKeepFrozen }
{}

/// What a step before Finish makes of the roots with the ranks that hold their regions: Freeze puts its root there with
/// the exporter, Import gives it to the importer, and the others change nothing.
pub fn steps_and_holding()
    ensures start { (old new : Standing) (root : Leaf) (exporter importer : Rank)
        → IsStart old new root exporter importer → (roots : Roots) → holding new roots ≡ holding old roots }
    ensures freeze { FreezeChangesHolding }
    ensures prep { (old new : Standing) (root : Leaf) → ComesTo old new root state.Frozen state.Prepared
        → (roots : Roots) → holding new roots ≡ holding old roots }
    ensures send { (old new : Standing) (root : Leaf) → ComesTo old new root state.Prepared state.Sent → (roots : Roots)
        → holding new roots ≡ holding old roots }
    ensures import { ImportChangesHolding }
    ensures cancel { (old new : Standing) (was now : SubtreesSeen) (root : Leaf) → IsCancel old new was now root
        → holding new now.roots ≡ holding old was.roots }
{}

/// Finish changes nothing of who holds which region.
pub fn finish_keeps_holding()
    ensures { (old new : Standing) (was now : SubtreesSeen) (root : Leaf) → IsFinish old new was now root
        → ArePlaced old was → holding new now.roots ≡ holding old was.roots }
{}

/// A directory's move elsewhere that replaces another one leaves each frozen region as it is.
pub fn replacements_elsewhere_keep_frozen_regions()
    ensures { ReplacementsKeepFrozen }
{}
