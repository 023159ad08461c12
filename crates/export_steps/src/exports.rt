//! The standing exports, and the calls that read them.
ghost use Rattle.std.specs.Prelude.{◌≡◌, IfSome};
ghost use Rattle.std.specs.List.{slice_get};
ghost use Rattle.std.specs.FinMap as map;
ghost use Rattle.sorted_map.specs.SortedMap.{contents};
ghost use Rattle.mds_types.specs.Leaf.{leaf_cmp};
ghost use Rattle.subtree_map.specs.Changes.{Subtrees as SubtreesSeen};
ghost use Rattle.export_steps.specs.Standing.{ArePlaced, IsBetweenRanks};

use mds_types::{Frag, Ino, Rank};
use sorted_map::SortedMap;
use std::alloc::Global;
use std::marker::Model;

/// How far an export has come. Each step takes it to the next state.
#[derive(Clone, Copy, Debug, PartialEq, Eq)]
pub enum ExportState {
    /// Exporter and importer are recorded.
    Started,
    /// The region changes no more until the export ends.
    Frozen,
    /// The importer knows the bounds of the region.
    Prepared,
    /// The bytes of the region were handed out.
    Sent,
    /// The importer holds the region.
    Imported,
}

/// An export that stands: from which rank to which, and how far it has come.
#[derive(Clone, Copy, Debug, PartialEq, Eq)]
pub struct StandingExport {
    /// The rank that hands the region over.
    pub exporter: Rank,
    /// The rank that takes it.
    pub importer: Rank,
    /// How far it has come.
    pub state: ExportState,
}

/// The exports that stand, each under the root of its region: at most one for a root. Each goes from one of 16 ranks to
/// another.
#[derive(Debug, Drop)]
pub struct Exports {
    pub(crate) rows: SortedMap<(Ino, Frag), StandingExport>,
    // the roots again, those of each exporter one after the other
    pub(crate) by: SortedMap<(u8, (Ino, Frag)), ()>,
}

impl Model for Exports {
    ghost use Rattle.std.specs.Coded.{codes};
    ghost use Rattle.std.specs.FinMap as map;
    ghost use Rattle.sorted_map.specs.SortedMap.{contents};
    ghost use Rattle.mds_types.specs.Leaf.{leaf_cmp};
    ghost use Rattle.export_steps.specs.ByExporter.{AreExports, by_cmp};
    ghost use Rattle.export_steps.specs.Standing.{Standing};

    ghost Value = { Standing };

    ghost coded = { Prim.hlevel (codes, map.code) };

    ghost view = { λ e. contents leaf_cmp e.rows };

    ghost invariant = { λ e. AreExports (contents leaf_cmp e.rows) (contents by_cmp e.by) };
}

impl Exports {
    /// No exports. Takes no memory.
    pub fn new(alloc: Global) -> Exports
        ensures empty { result ≡ map.empty }
        ensures placed { (subtrees : SubtreesSeen) → ArePlaced result subtrees }
    {
        Exports {
            rows: SortedMap::new(alloc),
            by: SortedMap::new(alloc),
        }
    }

    /// How many exports stand.
    pub fn len(&self) -> usize
        ensures { result ≡ map.len self.now }
    {
        self.rows.len()
    }

    /// The export of a root, if one stands.
    pub fn get(&self, dir: Ino, frag: Frag) -> Option<StandingExport>
        ensures export { result ≡ map.get self.now (dir, frag) }
        ensures ranks { IfSome result IsBetweenRanks }
    {
        self.rows.get(&(dir, frag)).copied()
    }

    /// The i-th standing export, counted from 0, with its root: they are ordered by the root's inode, value and bits.
    /// Takes no memory, and passes over those before it.
    pub fn standing(&self, index: usize) -> Option<((Ino, Frag), StandingExport)>
        ensures { result ≡ slice_get (map.entries self.now) index }
    {
        if index >= self.rows.len() {
            return None;
        }
        nth_row(&self.rows, index)
    }
}

// The row at a place in the order of roots.
fn nth_row(
    rows: &SortedMap<(Ino, Frag), StandingExport>,
    index: usize,
) -> Option<((Ino, Frag), StandingExport)>
    ensures { result ≡ slice_get (map.entries (contents leaf_cmp rows.now)) index }
{
    let mut rest = rows.iter();
    let mut before = index;
    while before > 0 {
        let _ = rest.next();
        before -= 1;
    }
    rest.next().copied()
}
