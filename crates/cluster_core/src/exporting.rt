//! The steps of an export of a subtree from one rank to another. Clients see nothing of what they change.
ghost use Rattle.std.specs.Prelude.{◌≡◌, ◌≢◌, ◌+◌, ◌<◌, ◌≤◌, List, Some, MatchOption, length};
ghost use Rattle.std.specs.FinMap as map;
ghost use Rattle.std.specs.Result.{result_err};
ghost use Rattle.objstore.specs.Objects.{faults_told};
ghost use Rattle.mds_types.specs.declared.entries.Entry.{Entry as Applied};
ghost use Rattle.inboxes.specs.Inboxes.{Inboxes as Waiting};
ghost use Rattle.inboxes.specs.declared.pins.Pin.{Pin as Granted};
ghost use Rattle.inode_table.specs.Numbers.{Supply};
ghost use Rattle.sessions.specs.Table.{Table};
ghost use Rattle.export_steps.specs.declared.exports.ExportState.TheVariants as state;
ghost use Rattle.export_steps.specs.declared.exports.StandingExport.{StandingExport};
ghost use Rattle.export_steps.specs.Standing.{state_at};
ghost use Rattle.mdcache.specs.Core.{state_of as tree_state};
ghost use Rattle.ranked_tree.specs.Ranked.{held_roots};
ghost use Rattle.ranked_tree.specs.Subtrees.{AreRoots, KeepsAuthorities, KeepsHolders, KeepsOutside};
ghost use Rattle.cluster_core.specs.Exporting.{CancelsExport, FinishesExport, FreezesExport, ImportsExport, PrepsExport, SendsExport, StartsExport};
ghost use Rattle.cluster_core.specs.State.{core_of, held_roots as holders_of};
ghost use Rattle.cluster_core.specs.Steps.{AtRank};
ghost use Rattle.cluster_core.specs.Uses.{UsesStep};
ghost use Rattle.cluster_core.specs.declared.events.Event.TheVariants.{Import as ImportEvent};

use crate::clusters::Cluster;
use crate::events::Answer;
use crate::pinned::is_region_pinned;
use export_steps::{ExportState, Exports};
use inboxes::Pins;
use mds_types::{Bytes, Frag, Ino, Rank, Refusal};
use objstore::Store;
use ranked_tree::RankedTree;
use std::alloc::Global;

impl<S: Store + Drop> Cluster<S> {
    // Starts an export.
    pub(crate) fn start(
        &mut self,
        from: Rank,
        ino: Ino,
        frag: Frag,
        to: Rank,
    ) -> Result<Answer, Refusal>
        requires ranks { length self.old.caches.used ≡ length self.old.state.inboxes }
        requires few { length self.old.caches.used ≤ 16 }
        ensures started { (past : List Applied) → AtRank self.old self.new past past from result
            (AtRank self.old self.new past past to result
            (StartsExport self.old self.new past past from (ino, frag) to result)) }
        ensures tree { self.new.state.tree ≡ self.old.state.tree }
        ensures roots { self.new.state.roots ≡ self.old.state.roots }
        ensures holders { holders_of self.new.state ≡ holders_of self.old.state }
        ensures caches { self.new.caches ≡ self.old.caches }
        ensures counted { self.new.faults ≡ self.old.faults + faults_told (result_err result) }
    {
        if !self.is_rank(from) {
            return Err(Refusal::NotAuthority);
        }
        if !self.is_rank(to) {
            return Err(Refusal::NotAuthority);
        }
        start_at(&mut self.parts.tree, from, ino, frag, to)
    }

    // Freezes the region of a started export.
    pub(crate) fn freeze(&mut self, ino: Ino, frag: Frag) -> Result<Answer, Refusal>
        ensures frozen { (past : List Applied) → FreezesExport self.old self.new past past (ino, frag) result }
        ensures authorities { KeepsAuthorities self.old.state.tree self.new.state.tree
            self.old.state.roots self.new.state.roots }
        ensures holders { KeepsHolders self.old.state.tree self.new.state.tree self.old.state.roots self.new.state.roots
            self.old.state.exports self.new.state.exports }
        ensures valid { AreRoots self.old.state.tree self.old.state.roots
            → AreRoots self.new.state.tree self.new.state.roots }
        ensures caches { self.new.caches ≡ self.old.caches }
        ensures counted { self.new.faults ≡ self.old.faults + faults_told (result_err result) }
    {
        freeze_at(&mut self.parts.tree, &self.parts.waiting.pins, ino, frag)
    }

    // Tells the importer of a frozen region the region's bounds.
    pub(crate) fn prep(&mut self, alloc: Global, ino: Ino, frag: Frag) -> Result<Answer, Refusal>
        ensures prepared { (past : List Applied) → PrepsExport self.old self.new past past (ino, frag) result }
        ensures tree { self.new.state.tree ≡ self.old.state.tree }
        ensures roots { self.new.state.roots ≡ self.old.state.roots }
        ensures holders { holders_of self.new.state ≡ holders_of self.old.state }
        ensures caches { self.new.caches ≡ self.old.caches }
        ensures counted { self.new.faults ≡ self.old.faults + faults_told (result_err result) }
    {
        self.parts.tree.prep(alloc, ino, frag)?;
        Ok(Answer::Nothing)
    }

    // Sends a prepared region: returns the bytes of all that isn't clean in it.
    pub(crate) fn send(&mut self, alloc: Global, ino: Ino, frag: Frag) -> Result<Answer, Refusal>
        ensures sent { (past : List Applied) → SendsExport self.old self.new past past (ino, frag) result }
        ensures tree { self.new.state.tree ≡ self.old.state.tree }
        ensures roots { self.new.state.roots ≡ self.old.state.roots }
        ensures holders { holders_of self.new.state ≡ holders_of self.old.state }
        ensures caches { self.new.caches ≡ self.old.caches }
        ensures counted { self.new.faults ≡ self.old.faults + faults_told (result_err result) }
    {
        let bytes = self.parts.tree.send(alloc, ino, frag)?;
        Ok(Answer::Sent(bytes))
    }

    // Gives the bytes of a sent region to its importer, which holds the region from then on.
    pub(crate) fn import(
        &mut self,
        alloc: Global,
        ino: Ino,
        frag: Frag,
        bytes: &[u8],
    ) -> Result<Answer, Refusal>
        ensures imported { (past : List Applied) → ImportsExport self.old self.new past past
            (ino, frag) bytes.now result }
        ensures uses { UsesStep self.old self.new result (ImportEvent ino frag bytes.now) }
        ensures authorities { KeepsAuthorities self.old.state.tree self.new.state.tree
            self.old.state.roots self.new.state.roots }
        ensures others { KeepsOutside (Some (ino, frag)) self.old.state.tree self.new.state.tree
            (holders_of self.old.state) (holders_of self.new.state) }
        ensures valid { AreRoots self.old.state.tree self.old.state.roots
            → AreRoots self.new.state.tree self.new.state.roots }
        ensures count { length self.new.caches.used ≡ length self.old.caches.used }
        ensures cap { self.new.caches.cap ≡ self.old.caches.cap }
        ensures counted { self.new.faults ≡ self.old.faults + faults_told (result_err result) }
    {
        self.parts.tree.import(alloc, ino, frag, bytes)?;
        Ok(Answer::Nothing)
    }

    // Makes the importer of an imported region its authority, and ends the export.
    pub(crate) fn finish(&mut self, ino: Ino, frag: Frag) -> Result<Answer, Refusal>
        ensures finished { (past : List Applied) → FinishesExport self.old self.new past past (ino, frag) result }
        ensures tree { self.new.state.tree ≡ self.old.state.tree }
        ensures others { KeepsOutside
            (Some (ino, frag)) self.old.state.tree self.new.state.tree self.old.state.roots self.new.state.roots }
        ensures holders { holders_of self.new.state ≡ holders_of self.old.state }
        ensures valid { AreRoots self.new.state.tree self.new.state.roots }
        ensures caches { self.new.caches ≡ self.old.caches }
        ensures counted { self.new.faults ≡ self.old.faults + faults_told (result_err result) }
    {
        self.parts.tree.finish(ino, frag)?;
        Ok(Answer::Nothing)
    }

    // Cancels an export that isn't sent yet.
    pub(crate) fn cancel(&mut self, ino: Ino, frag: Frag) -> Result<Answer, Refusal>
        ensures cancelled { (past : List Applied) → CancelsExport self.old self.new past past (ino, frag) result }
        ensures tree { self.new.state.tree ≡ self.old.state.tree }
        ensures roots { self.new.state.roots ≡ self.old.state.roots }
        ensures holders { holders_of self.new.state ≡ holders_of self.old.state }
        ensures caches { self.new.caches ≡ self.old.caches }
        ensures counted { self.new.faults ≡ self.old.faults + faults_told (result_err result) }
    {
        self.parts.tree.cancel(ino, frag)?;
        Ok(Answer::Nothing)
    }
}

// Starts an export of the region of a leaf, from the leaf's authority to another rank.
fn start_at<S: Store + Drop>(
    tree: &mut RankedTree<S>,
    from: Rank,
    ino: Ino,
    frag: Frag,
    to: Rank,
) -> Result<Answer, Refusal>
    requires exporter { from.0 < length tree.old.tree.caches.used }
    requires importer { to.0 < length tree.old.tree.caches.used }
    requires few { length tree.old.tree.caches.used ≤ 16 }
    ensures started { (numbers : List Supply) (inboxes : Waiting) (pins : List Granted) (sessions : Table)
        (past : List Applied) → StartsExport (core_of tree.old.tree tree.old.subtrees.roots tree.old.exports numbers
        inboxes pins sessions) (core_of tree.new.tree tree.new.subtrees.roots tree.new.exports numbers inboxes pins
        sessions) past past from (ino, frag) to result }
    ensures tree { tree.new.tree ≡ tree.old.tree }
    ensures roots { tree.new.subtrees ≡ tree.old.subtrees }
    ensures holders { held_roots tree.new ≡ held_roots tree.old }
    ensures counted { faults_told (result_err result) ≡ 0 }
{
    if tree.exports().get(ino, frag).is_some() {
        return Err(Refusal::WrongExportState);
    }
    if !tree.has_leaf(ino, frag) {
        return Err(Refusal::NoSuchFrag);
    }
    if from == to || !tree.is_authority(from, ino, frag) {
        return Err(Refusal::NotAuthority);
    }
    if tree.is_frozen(ino, frag) {
        return Err(Refusal::Frozen);
    }
    tree.start(ino, frag, from, to)?;
    Ok(Answer::Nothing)
}

// Freezes the region of a started export, unless its exporter isn't its authority any more, or a part of it is frozen
// or granted.
fn freeze_at<S: Store + Drop>(
    tree: &mut RankedTree<S>,
    pins: &Pins,
    ino: Ino,
    frag: Frag,
) -> Result<Answer, Refusal>
    ensures frozen { (numbers : List Supply) (inboxes : Waiting) (sessions : Table) (past : List Applied)
        → FreezesExport (core_of tree.old.tree tree.old.subtrees.roots tree.old.exports numbers inboxes pins.now
        sessions) (core_of tree.new.tree tree.new.subtrees.roots tree.new.exports numbers inboxes pins.now sessions)
        past past (ino, frag) result }
    ensures authorities { KeepsAuthorities (tree_state tree.old.tree)
        (tree_state tree.new.tree) tree.old.subtrees.roots tree.new.subtrees.roots }
    ensures holders { KeepsHolders (tree_state tree.old.tree)
        (tree_state tree.new.tree) tree.old.subtrees.roots tree.new.subtrees.roots tree.old.exports tree.new.exports }
    ensures valid { AreRoots (tree_state tree.old.tree) tree.old.subtrees.roots
        → AreRoots (tree_state tree.new.tree) tree.new.subtrees.roots }
    ensures caches { tree.new.tree.caches ≡ tree.old.tree.caches }
    ensures counted { tree.new.tree.faults ≡ tree.old.tree.faults + faults_told (result_err result) }
{
    let Some(exporter) = started(tree.exports(), ino, frag) else {
        return Err(Refusal::WrongExportState);
    };
    if !tree.has_leaf(ino, frag) {
        return Err(Refusal::NoSuchFrag);
    }
    if !tree.is_authority(exporter, ino, frag) {
        return Err(Refusal::NotAuthority);
    }
    if tree.is_frozen(ino, frag) {
        return Err(Refusal::Frozen);
    }
    if is_region_pinned(tree, pins, ino, frag) {
        return Err(Refusal::Pinned);
    }
    tree.freeze(ino, frag)?;
    Ok(Answer::Nothing)
}

// The exporter of an export in the state started, if the root has one.
fn started(exports: &Exports, ino: Ino, frag: Frag) -> Option<Rank>
    ensures { MatchOption result (state_at exports.now (ino, frag) ≢ Some state.Started)
        (λ exporter. (export : StandingExport) × (map.get exports.now (ino, frag) ≡ Some export)
        × (export.state ≡ state.Started) × (exporter ≡ export.exporter)) }
{
    let export = exports.get(ino, frag)?;
    match export.state {
        ExportState::Started => Some(export.exporter),
        ExportState::Frozen => None,
        ExportState::Prepared => None,
        ExportState::Sent => None,
        ExportState::Imported => None,
    }
}
