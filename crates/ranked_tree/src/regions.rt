//! The subtree roots with the exports that stand: from both it is told which rank holds a leaf.
ghost use Rattle.std.specs.Prelude.{◌≡◌, ◌≢◌, Some, IfSome, MatchOption};
ghost use Rattle.std.specs.Option.{option_copied};
ghost use Rattle.std.specs.FinMap as map;
ghost use Rattle.export_steps.specs.Standing.{IsBetweenRanks, state_at};
ghost use Rattle.inode_table.specs.Dirs.{IsLive};
ghost use Rattle.subtree_map.specs.Authority.{HasAuthority, IsSubtrees};
ghost use Rattle.ranked_tree.specs.Exported.{held_in};

use export_steps::{ExportState, Exports, StandingExport};
use inode_table::{Dirs, Home};
use mds_types::{Frag, Ino, Rank};
use std::alloc::Global;
use subtree_map::Subtrees;

/// The subtree roots with their ranks, and the exports that stand.
#[derive(Drop)]
pub struct Regions {
    pub(crate) roots: Subtrees,
    pub(crate) exports: Exports,
}

impl Regions {
    // These roots, and no exports. Takes no memory.
    pub(crate) fn new(alloc: Global, roots: Subtrees) -> Regions
        ensures roots { result.roots ≡ roots }
        ensures exports { result.exports ≡ map.empty }
    {
        Regions {
            roots,
            exports: Exports::new(alloc),
        }
    }

    // The rank that holds a leaf: its authority, but from Import to Finish the importer of its region. Takes no memory.
    pub(crate) fn holder(&self, dirs: &Dirs, dir: Ino, frag: Frag) -> Rank
        requires leaf { IsLive dirs.now.homes dirs.now.trees (dir, frag) }
        requires valid { IsSubtrees (held_in self.now) dirs.now.homes dirs.now.trees }
        ensures { HasAuthority (held_in self.now) dirs.now.homes dirs.now.trees (dir, frag) result }
    {
        self.exports.holder(&self.roots, dirs, dir, frag)
    }

    // So of a leaf whose directory stands there, where a rank asks: without exports one search less, and the rank looks
    // into its own list of roots first.
    pub(crate) fn holder_by<'a>(
        &self,
        rank: Rank,
        dirs: &'a Dirs,
        leaf: (Ino, Frag),
        home: Option<&'a Home>,
    ) -> Rank
        requires leaf { IsLive dirs.now.homes dirs.now.trees leaf }
        requires home { option_copied home ≡ map.get dirs.now.homes leaf.0.0 }
        requires valid { IsSubtrees (held_in self.now) dirs.now.homes dirs.now.trees }
        ensures { HasAuthority (held_in self.now) dirs.entry.now.homes dirs.entry.now.trees leaf result }
    {
        if self.exports.len() == 0 {
            return self.roots.authority_by(rank, dirs, leaf, home);
        }
        self.holder(dirs, leaf.0, leaf.1)
    }

    // The export of a root, if it is in this state.
    pub(crate) fn export_in(
        &self,
        dir: Ino,
        frag: Frag,
        state: ExportState,
    ) -> Option<StandingExport>
        ensures export { MatchOption result (state_at self.now.exports (dir, frag) ≢ Some state)
            (λ export. (map.get self.now.exports (dir, frag) ≡ Some export) × (export.state ≡ state)) }
        ensures ranks { IfSome result IsBetweenRanks }
    {
        let Some(export) = self.exports.get(dir, frag) else {
            return None;
        };
        if export.state != state {
            return None;
        }
        Some(export)
    }
}
