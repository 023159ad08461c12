//! Which leaves are frozen, and which rank holds a leaf.
ghost use Rattle.std.specs.Prelude.{◌≡◌, ◌↔◌, MatchOption, IsTrue};
ghost use Rattle.std.specs.FinMap as map;
ghost use Rattle.mds_types.specs.declared.ids.Rank.{Rank as RankNumber};
ghost use Rattle.inode_table.specs.Dirs.{IsLive};
ghost use Rattle.subtree_map.specs.Authority.{IsSubtrees};
ghost use Rattle.export_steps.specs.Holder.{HasHolder, IsFrozen, region_holder};

use crate::exports::{ExportState, Exports};
use inode_table::Dirs;
use mds_types::{Frag, Ino, Rank};
use subtree_map::Subtrees;

impl Exports {
    /// Whether a leaf is frozen: the export of its nearest root is frozen, prepared, sent or imported. Takes no memory,
    /// and asks for that root alone; where no export stands, for nothing.
    pub fn is_frozen(&self, subtrees: &Subtrees, dirs: &Dirs, dir: Ino, frag: Frag) -> bool
        ensures { IsTrue result ↔ IsFrozen self.now subtrees.now.roots dirs.now.homes dirs.now.trees (dir, frag) }
    {
        if self.rows.is_empty() {
            return false;
        }
        let Some(root) = subtrees.find_root(dirs, dir, frag) else {
            return false;
        };
        match self.get(root.0, root.1) {
            Some(export) => export.state.is_freezing(),
            None => false,
        }
    }

    /// The holder of a leaf: the importer where the export of its nearest root is imported, otherwise the leaf's
    /// authority. Takes no memory, and asks for that root alone.
    pub fn holder(&self, subtrees: &Subtrees, dirs: &Dirs, dir: Ino, frag: Frag) -> Rank
        requires leaf { IsLive dirs.now.homes dirs.now.trees (dir, frag) }
        requires valid { IsSubtrees subtrees.now.roots dirs.now.homes dirs.now.trees }
        ensures { HasHolder self.now subtrees.now.roots dirs.now.homes dirs.now.trees (dir, frag) result }
    {
        if self.rows.is_empty() {
            return subtrees.authority(dirs, dir, frag);
        }
        let root = subtrees.root_of(dirs, dir, frag);
        match self.region_holder(subtrees, root.0, root.1) {
            Some(rank) => rank,
            None => unreachable!(),
        }
    }

    /// The holder of a leaf, of whatever map and fragment: none where no root is on the way up. Takes no memory.
    pub fn find_holder(
        &self,
        subtrees: &Subtrees,
        dirs: &Dirs,
        dir: Ino,
        frag: Frag,
    ) -> Option<Rank>
        ensures { MatchOption result
            ((rank : RankNumber) → HasHolder self.now subtrees.now.roots dirs.now.homes dirs.now.trees (dir, frag) rank
            → ⊥) (HasHolder self.now subtrees.now.roots dirs.now.homes dirs.now.trees (dir, frag)) }
    {
        if self.rows.is_empty() {
            return subtrees.find_authority(dirs, dir, frag);
        }
        let Some(root) = subtrees.find_root(dirs, dir, frag) else {
            return None;
        };
        self.region_holder(subtrees, root.0, root.1)
    }

    // The rank that holds the region of a root.
    fn region_holder(&self, subtrees: &Subtrees, dir: Ino, frag: Frag) -> Option<Rank>
        ensures { result ≡ region_holder (map.get self.now (dir, frag)) (map.get subtrees.now.roots (dir, frag)) }
    {
        let rank = subtrees.get(dir, frag);
        let Some(export) = self.get(dir, frag) else {
            return rank;
        };
        if export.state != ExportState::Imported {
            return rank;
        }
        Some(export.importer)
    }
}
