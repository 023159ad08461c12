//! The bounds of a region.
ghost use Rattle.std.specs.Prelude.{◌≡◌, ◌↔◌, IfOk, IsTrue, OnErr, Some, option_map};
ghost use Rattle.std.specs.List as list;
ghost use Rattle.std.specs.List.Sorted.{IsStrictlySortedBy};
ghost use Rattle.std.specs.FinMap as map;
ghost use Rattle.mds_types.specs.declared.ids.Rank.{Rank as RankNumber};
ghost use Rattle.mds_types.specs.Leaf.{Leaf, leaf_cmp};
ghost use Rattle.subtree_map.specs.Authority.{IsBound};
ghost use Rattle.subtree_map.specs.Climb.{IsNextBelow};

use crate::subtrees::Subtrees;
use inode_table::Dirs;
use mds_types::{Frag, Ino, Rank};
use std::alloc::{AllocError, Global};

impl Subtrees {
    /// The bounds of a root's region: the roots next below, by directory and then as fragments, each once. Takes memory
    /// for them, so there is an error only where there is one, and asks each root once.
    pub fn bounds(
        &self,
        alloc: Global,
        dirs: &Dirs,
        dir: Ino,
        frag: Frag,
    ) -> Result<Vec<(Ino, Frag)>, AllocError>
        ensures bounds { IfOk result (λ bounds. (bound : Leaf)
            → list.Contains bounds.items bound ↔ IsBound self.now.roots dirs.now.homes dirs.now.trees
            (dir, frag) bound) }
        ensures order { IfOk result (λ bounds. IsStrictlySortedBy leaf_cmp bounds.items) }
        ensures memory { OnErr result
            ((bound : Leaf) × IsBound self.now.roots dirs.now.homes dirs.now.trees (dir, frag) bound) }
    {
        let mut bounds = Vec::new(alloc);
        for row in self.iter() {
            if self.is_next_below(dirs, &(dir, frag), &row.0) {
                bounds.push(row.0)?;
            }
        }
        Ok(bounds)
    }

    // Whether the dentry of a root's directory is held in the region of another.
    fn is_next_below(&self, dirs: &Dirs, root: &(Ino, Frag), bound: &(Ino, Frag)) -> bool
        ensures { IsTrue result ↔ IsNextBelow self.now.roots dirs.now.homes dirs.now.trees root.now bound.now }
    {
        dirs.is_table();
        match dirs.get(bound.0) {
            Some(home) => is_at(self.root_above(dirs, home.parent, &home.name), root),
            None => false,
        }
    }
}

// Whether the row of a root was found, and the root is this one.
fn is_at(found: Option<((Ino, Frag), Rank)>, root: &(Ino, Frag)) -> bool
    ensures { IsTrue result ↔ (option_map (λ (row : Leaf × RankNumber). row.0) found ≡ Some root.now) }
{
    match found {
        Some((leaf, _)) => leaf.0 == root.0 && leaf.1 == root.1,
        None => false,
    }
}
