//! The steps of an export: each takes it from one state to the next, and two end it.
ghost use Rattle.std.specs.Prelude.{◌≡◌, ◌≢◌, ◌<◌, ◌↔◌, Some, None, IsTrue, IfErr, MatchOption, OnErr, OnOk};
ghost use Rattle.std.specs.FinMap as map;
ghost use Rattle.sorted_map.specs.SortedMap.{contents};
ghost use Rattle.mds_types.specs.declared.refusals.Refusal.TheVariants.{NoMemory};
ghost use Rattle.mds_types.specs.Leaf.{leaf_cmp};
ghost use Rattle.subtree_map.specs.Changes.{Subtrees as SubtreesSeen};
ghost use Rattle.export_steps.specs.declared.exports.ExportState.TheVariants as state;
ghost use Rattle.export_steps.specs.ByExporter.{AreExports, RootsBy, by_cmp};
ghost use Rattle.export_steps.specs.Standing.{AreKept, IsBetweenRanks, ArePlaced, Cancels, ComesTo, Finishes, Freezes, IsNoRootYet, Preps, Starts, come_to, is_before_send, is_freezing, state_at};

use crate::exports::{ExportState, Exports, StandingExport};
use inode_table::Dirs;
use mds_types::{Frag, Ino, Rank, Refusal};
use sorted_map::SortedMap;
use std::alloc::Global;
use subtree_map::Subtrees;

impl ExportState {
    /// Whether the region of an export in this state is frozen: from Freeze to the end of the export.
    pub fn is_freezing(self) -> bool
        ensures { result ≡ is_freezing self }
    {
        match self {
            ExportState::Started => false,
            ExportState::Frozen
            | ExportState::Prepared
            | ExportState::Sent
            | ExportState::Imported => true,
        }
    }

    /// Whether an export in this state can be cancelled: before Send.
    pub fn is_before_send(self) -> bool
        ensures { result ≡ is_before_send self }
    {
        match self {
            ExportState::Started | ExportState::Frozen | ExportState::Prepared => true,
            ExportState::Sent | ExportState::Imported => false,
        }
    }
}

impl Exports {
    /// Start: records the exporter and the importer of a root's region, which are two ranks of 16.
    ///
    /// # Errors
    /// `WrongExportState` where an export of this root stands, `NoMemory`; then all is left as it was.
    pub fn start(
        &mut self,
        dir: Ino,
        frag: Frag,
        exporter: Rank,
        importer: Rank,
    ) -> Result<(), Refusal>
        requires exporter { exporter.0 < 16 }
        requires importer { importer.0 < 16 }
        requires apart { exporter.0 ≢ importer.0 }
        ensures outcome { Starts self.old self.new (dir, frag) exporter importer result }
        ensures placed { (subtrees : SubtreesSeen) → ArePlaced self.old subtrees → ArePlaced self.new subtrees }
    {
        if self.rows.contains(&(dir, frag)) {
            return Err(Refusal::WrongExportState);
        }
        let export = StandingExport {
            exporter,
            importer,
            state: ExportState::Started,
        };
        put_new(&mut self.rows, &mut self.by, &(dir, frag), &export)
    }

    /// Freeze: makes the root of a started export a subtree root of the exporter. From now on its region is frozen.
    ///
    /// A leaf that is a root of the exporter already stays one, and takes no memory.
    ///
    /// # Errors `WrongExportState` where no started export of this root stands, `NoMemory`; then all is left as it was,
    /// though the subtrees may have more room.
    pub fn freeze(&mut self, subtrees: &mut Subtrees, dir: Ino, frag: Frag) -> Result<(), Refusal>
        ensures outcome { Freezes self.old self.new subtrees.old subtrees.new (dir, frag) result }
        ensures memory { IfErr result
            (λ reason. reason ≡ NoMemory → IsNoRootYet self.old subtrees.old (dir, frag)) }
        ensures placed { ArePlaced self.old subtrees.old → ArePlaced self.new subtrees.new }
    {
        let Some(export) = find_in(&self.rows, dir, frag, ExportState::Started) else {
            return Err(Refusal::WrongExportState);
        };
        place(subtrees, dir, frag, export)?;
        put_state(&mut self.rows, dir, frag, export, ExportState::Frozen);
        Ok(())
    }

    /// Prep: the importer of a frozen region gets to know its bounds, and the root is promised to it, so that `finish`
    /// takes no memory.
    ///
    /// # Errors
    /// `WrongExportState` where no frozen export of this root stands, `NoMemory`; then all is left as it was.
    pub fn prep(
        &mut self,
        subtrees: &mut Subtrees,
        alloc: Global,
        dirs: &Dirs,
        dir: Ino,
        frag: Frag,
    ) -> Result<(), Refusal>
        ensures outcome { Preps self.old self.new subtrees.old subtrees.new (dir, frag) result }
        ensures placed { ArePlaced self.old subtrees.old → ArePlaced self.new subtrees.new }
    {
        let Some(export) = find_in(&self.rows, dir, frag, ExportState::Frozen) else {
            return Err(Refusal::WrongExportState);
        };
        promise(subtrees, alloc, dirs, (dir, frag), export.importer)?;
        put_state(&mut self.rows, dir, frag, export, ExportState::Prepared);
        Ok(())
    }

    /// Send: the bytes of the region of this prepared export of a root are handed out. Takes no memory.
    pub fn send(&mut self, dir: Ino, frag: Frag, export: StandingExport)
        requires stands { map.get self.old (dir, frag) ≡ Some export }
        requires prepared { export.state ≡ state.Prepared }
        ensures outcome { ComesTo self.old self.new (dir, frag) state.Prepared state.Sent }
        ensures placed { (subtrees : SubtreesSeen) → ArePlaced self.old subtrees → ArePlaced self.new subtrees }
    {
        put_state(&mut self.rows, dir, frag, export, ExportState::Sent);
    }

    /// Import: the importer holds the region of this sent export of a root. Takes no memory.
    pub fn import(&mut self, dir: Ino, frag: Frag, export: StandingExport)
        requires stands { map.get self.old (dir, frag) ≡ Some export }
        requires sent { export.state ≡ state.Sent }
        ensures outcome { ComesTo self.old self.new (dir, frag) state.Sent state.Imported }
        ensures placed { (subtrees : SubtreesSeen) → ArePlaced self.old subtrees → ArePlaced self.new subtrees }
    {
        put_state(&mut self.rows, dir, frag, export, ExportState::Imported);
    }

    /// Finish: the importer of an imported region is its authority, and the export is over. Takes no memory: what it
    /// changes was placed by `freeze` and `prep`.
    ///
    /// # Errors
    /// `WrongExportState` where no imported export of this root stands; then all is left as it was.
    pub fn finish(&mut self, subtrees: &mut Subtrees, dir: Ino, frag: Frag) -> Result<(), Refusal>
        requires { ArePlaced self.old subtrees.old }
        ensures outcome { Finishes self.old self.new subtrees.old subtrees.new (dir, frag) result }
        ensures placed { ArePlaced self.new subtrees.new }
    {
        let Some(export) = find_in(&self.rows, dir, frag, ExportState::Imported) else {
            return Err(Refusal::WrongExportState);
        };
        subtrees.hand(dir, frag);
        end(&mut self.rows, &mut self.by, dir, frag, export);
        Ok(())
    }

    /// Cancel: an export that isn't sent yet is over, and its region thaws. A subtree root that `freeze` made stays
    /// one. Takes no memory.
    ///
    /// # Errors
    /// `WrongExportState` where no started, frozen or prepared export of this root stands; then all is left as it was.
    pub fn cancel(&mut self, subtrees: &mut Subtrees, dir: Ino, frag: Frag) -> Result<(), Refusal>
        ensures outcome { Cancels self.old self.new subtrees.old subtrees.new (dir, frag) result }
        ensures placed { ArePlaced self.old subtrees.old → ArePlaced self.new subtrees.new }
    {
        let Some(export) = self.get(dir, frag) else {
            return Err(Refusal::WrongExportState);
        };
        if !export.state.is_before_send() {
            return Err(Refusal::WrongExportState);
        }
        subtrees.withdraw(dir, frag);
        end(&mut self.rows, &mut self.by, dir, frag, export);
        Ok(())
    }
}

// Records the first export of a root.
fn put_new(
    rows: &mut SortedMap<(Ino, Frag), StandingExport>,
    by: &mut SortedMap<(u8, (Ino, Frag)), ()>,
    root: &(Ino, Frag),
    export: &StandingExport,
) -> Result<(), Refusal>
    requires { map.get (contents leaf_cmp rows.old) root.now ≡ None }
    ensures ok { OnOk result
        (contents leaf_cmp rows.new ≡ map.insert (contents leaf_cmp rows.old) root.now export.now) }
    ensures err { IfErr result (λ reason. reason ≡ NoMemory) }
    ensures left { OnErr result (contents leaf_cmp rows.new ≡ contents leaf_cmp rows.old) }
    ensures kept { IsBetweenRanks export.now → AreExports (contents leaf_cmp rows.old) (contents by_cmp by.old)
        → AreExports (contents leaf_cmp rows.new) (contents by_cmp by.new) }
{
    rows.reserve(1)?;
    by.reserve(1)?;
    let _ = rows.insert(*root, *export);
    let _ = by.insert((export.exporter.0, *root), ());
    Ok(())
}

// Whether a leaf is a subtree root of this rank.
fn is_root_of(subtrees: &Subtrees, dir: Ino, frag: Frag, rank: Rank) -> bool
    ensures { IsTrue result ↔ (map.get subtrees.now.roots (dir, frag) ≡ Some rank) }
{
    match subtrees.get(dir, frag) {
        Some(its) => its.0 == rank.0,
        None => false,
    }
}

// Makes the root of an export a subtree root of the exporter, if it is none yet.
fn place(
    subtrees: &mut Subtrees,
    dir: Ino,
    frag: Frag,
    export: StandingExport,
) -> Result<(), Refusal>
    ensures roots { OnOk result (subtrees.new.roots ≡ map.insert subtrees.old.roots (dir, frag) export.exporter) }
    ensures promises { subtrees.new.promises ≡ subtrees.old.promises }
    ensures err { IfErr result (λ reason. reason ≡ NoMemory) }
    ensures left { OnErr result (AreKept subtrees.old subtrees.new) }
    ensures memory { OnErr result (map.get subtrees.old.roots (dir, frag) ≢ Some export.exporter) }
{
    if is_root_of(subtrees, dir, frag, export.exporter) {
        return Ok(());
    }
    if let Err(refusal) = subtrees.reserve(1) {
        return Err(refusal);
    }
    subtrees.set(dir, frag, export.exporter);
    Ok(())
}

// Tells the importer of a region its bounds, and promises it the root.
fn promise(
    subtrees: &mut Subtrees,
    alloc: Global,
    dirs: &Dirs,
    root: (Ino, Frag),
    importer: Rank,
) -> Result<(), Refusal>
    ensures roots { subtrees.new.roots ≡ subtrees.old.roots }
    ensures promises { OnOk result (subtrees.new.promises ≡ map.insert subtrees.old.promises root importer) }
    ensures err { IfErr result (λ reason. reason ≡ NoMemory) }
    ensures left { OnErr result (AreKept subtrees.old subtrees.new) }
{
    if let Err(refusal) = subtrees.tell_bounds(alloc, dirs, root.0, root.1, importer) {
        return Err(refusal);
    }
    if let Err(refusal) = subtrees.promise(root.0, root.1, importer) {
        return Err(refusal);
    }
    Ok(())
}

// The export of a root, if it is in this state.
fn find_in(
    rows: &SortedMap<(Ino, Frag), StandingExport>,
    dir: Ino,
    frag: Frag,
    state: ExportState,
) -> Option<StandingExport>
    ensures { MatchOption result (state_at (contents leaf_cmp rows.now) (dir, frag) ≢ Some state)
        (λ export. (map.get (contents leaf_cmp rows.now) (dir, frag) ≡ Some export) × (export.state ≡ state)) }
{
    let Some(export) = rows.get(&(dir, frag)).copied() else {
        return None;
    };
    if export.state != state {
        return None;
    }
    Some(export)
}

// Gives the export of a root another state.
fn put_state(
    rows: &mut SortedMap<(Ino, Frag), StandingExport>,
    dir: Ino,
    frag: Frag,
    export: StandingExport,
    state: ExportState,
)
    requires { map.get (contents leaf_cmp rows.old) (dir, frag) ≡ Some export }
    ensures come { contents leaf_cmp rows.new ≡ map.insert (contents leaf_cmp rows.old) (dir, frag)
        (come_to state export) }
    ensures kept { (by : RootsBy) → AreExports (contents leaf_cmp rows.old) by
        → AreExports (contents leaf_cmp rows.new) by }
{
    let _ = rows.replace(&(dir, frag), StandingExport { state, ..export });
}

// Takes out the export of a root.
fn end(
    rows: &mut SortedMap<(Ino, Frag), StandingExport>,
    by: &mut SortedMap<(u8, (Ino, Frag)), ()>,
    dir: Ino,
    frag: Frag,
    export: StandingExport,
)
    requires { map.get (contents leaf_cmp rows.old) (dir, frag) ≡ Some export }
    ensures removed { contents leaf_cmp rows.new ≡ map.remove (contents leaf_cmp rows.old) (dir, frag) }
    ensures kept { AreExports (contents leaf_cmp rows.old) (contents by_cmp by.old)
        → AreExports (contents leaf_cmp rows.new) (contents by_cmp by.new) }
{
    let _ = rows.remove(&(dir, frag));
    let _ = by.remove(&(export.exporter.0, (dir, frag)));
}
