//! Which exports of subtrees stand, and how far each has come: from its start over freeze, prep, send and import to its
//! end. From these and the subtree roots it is told which leaves are frozen, and which rank holds a leaf.
#![tactic(auto)]

mod by_exporter;
mod exports;
pub mod laws;
mod regions;
mod steps;

pub use exports::{ExportState, Exports, StandingExport};
