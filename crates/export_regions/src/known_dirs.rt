//! The directories on the ways up from leaves, which a walk over the leaves remembers: it climbs no way twice.
ghost use Rattle.std.specs.Prelude.{◌≡◌, ◌↔◌, None, IfNone, IfOk, IfSome, IsTrue, MatchOption, OnOk};
ghost use Rattle.std.specs.List.{All};
ghost use Rattle.std.specs.Ordering.{nat_cmp};
ghost use Rattle.std.specs.FinMap as map;
ghost use Rattle.sorted_map.specs.SortedMap.{contents};
ghost use Rattle.mds_types.specs.Leaf.{leaf_of};
ghost use Rattle.inode_table.specs.Dirs.{Covers, Homes};
ghost use Rattle.export_regions.specs.KnownDirs.{AreNoted, AreRightAnswers, HoldsDentryOf, IsRightAnswer};
ghost use Rattle.export_regions.specs.Regions.{IsOfRegion};

use crate::regions::is_one;
use inode_table::Dirs;
use mds_types::{Dirfrag, Frag, Ino};
use namehash::rjenkins;
use sorted_map::{Finger, SortedMap};
use std::alloc::{AllocError, Global};
use std::cell::Cell;
use std::marker::Model;
use subtree_map::Subtrees;

/// Directories with their answers: whether the leaf that holds a directory's dentry is in the region of a root. All
/// answers are about the same root.
#[derive(Drop)]
pub(crate) struct KnownDirs {
    answers: SortedMap<u64, bool>,
    // where the answers were that were asked for last: directories of the same parent often follow each other
    near: Cell<Finger>,
}

impl Model for KnownDirs {
    ghost use Rattle.std.specs.Ordering.{nat_cmp};
    ghost use Rattle.std.specs.Coded.{codes};
    ghost use Rattle.std.specs.FinMap as map;
    ghost use Rattle.sorted_map.specs.SortedMap.{contents};
    ghost use Rattle.export_regions.specs.KnownDirs.{KnownAnswers};

    ghost Value = { KnownAnswers };

    ghost coded = { Prim.hlevel (codes, map.code) };

    ghost view = { λ k. contents nat_cmp k.answers };
}

impl KnownDirs {
    /// No directories. Takes no memory.
    pub(crate) fn new(alloc: Global) -> KnownDirs
        ensures { result ≡ map.empty }
    {
        KnownDirs {
            answers: SortedMap::new(alloc),
            near: Cell::new(Finger::none()),
        }
    }

    /// Whether a leaf is in the region of a root, the same root at each call. The directories on the way up from the
    /// leaf, above its own, are known from then on; `way` is room for their list, and its old content is dropped. Takes
    /// memory for those that weren't known, and a look-up and a hash for each of them and for the leaf's own.
    pub(crate) fn is_in(
        &mut self,
        subtrees: &Subtrees,
        dirs: &Dirs,
        root: &Dirfrag,
        leaf: &(Ino, Frag),
        way: &mut Vec<u64>,
    ) -> Result<bool, AllocError>
        requires right { AreRightAnswers subtrees.now.roots dirs.now.homes dirs.now.trees (leaf_of root.now) self.old }
        ensures told { IfOk result (λ told. IsTrue told
            ↔ IsOfRegion subtrees.now.roots dirs.now.homes dirs.now.trees (leaf_of root.now) leaf.now) }
        ensures right { OnOk result
            (AreRightAnswers subtrees.now.roots dirs.now.homes dirs.now.trees (leaf_of root.now) self.new) }
    {
        if let Some(told) = self.answer(subtrees, root, leaf) {
            return Ok(told);
        }
        let told = self.climb(subtrees, dirs, root, leaf.0, way)?;
        self.note(way, told)?;
        Ok(told)
    }

    // Whether a leaf is in the region of a root: known of each leaf that is a root, and of the leaves of known
    // directories.
    fn answer(&self, subtrees: &Subtrees, root: &Dirfrag, leaf: &(Ino, Frag)) -> Option<bool>
        ensures known { (homes : Homes) (covers : Covers)
            → AreRightAnswers subtrees.now.roots homes covers (leaf_of root.now) self.now
            → IfSome result (λ told. IsTrue told ↔ IsOfRegion subtrees.now.roots homes covers (leaf_of root.now) leaf.now) }
        ensures unknown { IfNone result (map.get subtrees.now.roots leaf.now ≡ None) }
    {
        if subtrees.is_root(leaf.0, leaf.1) {
            return Some(is_one(leaf, root));
        }
        self.answers.get_near_noting(&self.near, &leaf.0.0).copied()
    }

    // The answer for a directory that isn't known. The directories above it, on the way to a root or to a known
    // directory, have the same answer; `way` lists them and no others.
    fn climb(
        &self,
        subtrees: &Subtrees,
        dirs: &Dirs,
        root: &Dirfrag,
        dir: Ino,
        way: &mut Vec<u64>,
    ) -> Result<bool, AllocError>
        requires right { AreRightAnswers subtrees.now.roots dirs.now.homes dirs.now.trees (leaf_of root.now) self.now }
        ensures told { IfOk result
            (IsRightAnswer subtrees.now.roots dirs.now.homes dirs.now.trees (leaf_of root.now) dir.0) }
        ensures way { IfOk result (λ told. All (λ passed. IsRightAnswer subtrees.now.roots dirs.now.homes dirs.now.trees
            (leaf_of root.now) passed told) way.new.items) }
    {
        dirs.is_table();
        way.clear();
        let mut at = dir;
        loop {
            let Some(holder) = holder_of(dirs, at) else {
                return Ok(false);
            };
            if let Some(told) = self.answer(subtrees, root, &holder) {
                return Ok(told);
            }
            at = holder.0;
            way.push(at.0)?;
        }
    }

    // Gives these directories an answer.
    fn note(&mut self, way: &[u64], told: bool) -> Result<(), AllocError>
        ensures { OnOk result (AreNoted way.now told self.old self.new) }
    {
        put_all(&mut self.answers, &self.near.get(), way, told)
    }
}

// Gives these directories an answer, the last first: that is the order of their numbers in most trees.
fn put_all(
    answers: &mut SortedMap<u64, bool>,
    near: &Finger,
    way: &[u64],
    told: bool,
) -> Result<(), AllocError>
    ensures { OnOk result (AreNoted way.now told (contents nat_cmp answers.old) (contents nat_cmp answers.new)) }
{
    answers.reserve(way.len())?;
    let mut i = way.len();
    while i > 0 {
        i -= 1;
        let _ = answers.insert_near(near, way[i], told);
    }
    Ok(())
}

// The leaf that holds the dentry of a directory; none of a directory that has no dentry.
fn holder_of(dirs: &Dirs, dir: Ino) -> Option<(Ino, Frag)>
    ensures { MatchOption result (map.get dirs.now.homes dir.0 ≡ None)
        (HoldsDentryOf dirs.now.homes dirs.now.trees dir.0) }
{
    dirs.is_table();
    let home = dirs.get(dir)?;
    let Some(at) = dirs.leaf_at(home.parent, rjenkins(home.name.as_bytes())) else {
        unreachable!()
    };
    Some((home.parent, at.frag))
}
