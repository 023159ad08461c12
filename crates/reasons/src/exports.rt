//! Refused for an export: `Frozen`, `WrongExportState` and `NotClean`.

use crate::asked::Asked;
use crate::leaf::{Leaf, Words};
use crate::looks::{MOST_LEAVES, UnderWay, end_of, export_at, export_of, freezing, leaf_inside};
use cluster_core::Cluster;
use export_steps::ExportState;
use objstore::Store;
use script_output::OwnStep;
use std::fmt;

/// A leaf is frozen by an export.
#[derive(Clone, Copy)]
pub(crate) struct Freezes {
    pub(crate) leaf: Leaf,
    pub(crate) by: UnderWay,
}

/// A step of an export, or a flush, in a state that doesn't allow it.
#[derive(Clone, Copy)]
pub(crate) enum WrongState {
    /// No export of the leaf is under way.
    None(Leaf),
    /// An export of the leaf was to start, and this is under way.
    Already(UnderWay),
    /// Another step is the next of this export.
    Other(UnderWay),
    /// This export was sent, so it can't be cancelled any more.
    Late(UnderWay),
    /// A flush was to be made while this export is under way, and so many more.
    Flush(UnderWay, usize),
}

/// What froze a leaf, if it is frozen.
pub(crate) fn frozen<S: Store + Drop>(cluster: &Cluster<S>, leaf: &Leaf) -> Option<Freezes> {
    match freezing(cluster, leaf) {
        Some(by) => Some(Freezes { leaf: *leaf, by }),
        None => None,
    }
}

/// What froze one of the leaves properly inside a fragment.
pub(crate) fn frozen_inside<S: Store + Drop>(
    cluster: &Cluster<S>,
    whole: &Leaf,
) -> Option<Freezes> {
    let mut hash = whole.frag.value();
    for _ in 0..MOST_LEAVES {
        let leaf = leaf_inside(cluster, whole, hash)?;
        hash = end_of(leaf.frag);
        let found = frozen(cluster, &leaf);
        if found.is_some() {
            return found;
        }
    }
    None
}

/// What state the export of a leaf is in, where it doesn't allow the step.
pub(crate) fn wrong_state<S: Store + Drop>(
    cluster: &Cluster<S>,
    asked: &Asked<'_>,
) -> Option<WrongState> {
    match asked {
        Asked::Start { leaf, .. } => Some(WrongState::Already(export_of(cluster, leaf)?)),
        Asked::Export(OwnStep::Cancel, leaf) => Some(too_late(cluster, leaf)),
        Asked::Export(_, leaf) => Some(other_state(cluster, leaf)),
        _ => None,
    }
}

// Why the export of a leaf isn't cancelled.
fn too_late<S: Store + Drop>(cluster: &Cluster<S>, leaf: &Leaf) -> WrongState {
    match export_of(cluster, leaf) {
        Some(under_way) => WrongState::Late(under_way),
        None => WrongState::None(*leaf),
    }
}

// Why the export of a leaf doesn't make another step.
fn other_state<S: Store + Drop>(cluster: &Cluster<S>, leaf: &Leaf) -> WrongState {
    match export_of(cluster, leaf) {
        Some(under_way) => WrongState::Other(under_way),
        None => WrongState::None(*leaf),
    }
}

/// The exports for which a flush waits.
pub(crate) fn unflushed<S: Store + Drop>(cluster: &Cluster<S>) -> Option<WrongState> {
    let more = cluster.exports().len().saturating_sub(1);
    match export_at(cluster, 0) {
        Some(first) => Some(WrongState::Flush(first, more)),
        None => None,
    }
}

// The state, in a word.
fn state_word(state: ExportState) -> &'static str {
    match state {
        ExportState::Started => "started",
        ExportState::Frozen => "frozen",
        ExportState::Prepared => "prepared",
        ExportState::Sent => "sent",
        ExportState::Imported => "imported",
    }
}

// The step that comes next in this state.
fn next_step(state: ExportState) -> OwnStep {
    match state {
        ExportState::Started => OwnStep::Freeze,
        ExportState::Frozen => OwnStep::Prep,
        ExportState::Prepared => OwnStep::Send,
        ExportState::Sent => OwnStep::Import,
        ExportState::Imported => OwnStep::Finish,
    }
}

/// `the export of LEAF from rank A to rank B is STATE (next: ..)`
impl fmt::Display for UnderWay {
    fn fmt<W: fmt::Write>(&self, f: &mut fmt::Formatter<W>) -> fmt::Result {
        let root = &self.root;
        let (from, to) = (self.export.exporter.0, self.export.importer.0);
        let state = state_word(self.export.state);
        let next = next_step(self.export.state);
        let words = Words(root);
        write!(
            f,
            "the export of {root} from rank {from} to rank {to} is {state}"
        )?;
        write!(f, " (next: `export {next} {words}`)")
    }
}

impl fmt::Display for Freezes {
    fn fmt<W: fmt::Write>(&self, f: &mut fmt::Formatter<W>) -> fmt::Result {
        let leaf = &self.leaf;
        let by = &self.by;
        write!(f, "{leaf} thaws when its export ends: {by}")
    }
}

impl fmt::Display for WrongState {
    fn fmt<W: fmt::Write>(&self, f: &mut fmt::Formatter<W>) -> fmt::Result {
        match self {
            WrongState::None(leaf) => write!(
                f,
                "no export of {leaf} is under way; `export dir` starts one"
            ),
            WrongState::Already(export) => write!(f, "the leaf has an export already: {export}"),
            WrongState::Other(export) => write!(f, "another step is due: {export}"),
            WrongState::Late(export) => { write!(f, "what was sent can't be cancelled: {export}") }
            WrongState::Flush(export, 0) => {
                write!(f, "a flush waits until no export is under way: {export}")
            }
            WrongState::Flush(export, more) => write!(
                f,
                "a flush waits until no export is under way: {export}, and {more} more"
            ),
        }
    }
}
