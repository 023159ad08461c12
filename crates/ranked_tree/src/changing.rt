//! Changes of the tree, with what they make of the subtree roots.
ghost use Rattle.std.specs.Prelude.{◌≡◌, ◌≤◌, ◌+◌, IsOk, IsSome, IfSome, MatchOption, OnOk, OnErr, IfErr, length};
ghost use Rattle.std.specs.List.{Contains};
ghost use Rattle.std.specs.Result.{result_err};
ghost use Rattle.mds_types.specs.declared.inodes.Inode.{Inode as Node};
ghost use Rattle.mds_types.specs.declared.refusals.Refusal.TheVariants.{NoMemory};
ghost use Rattle.objstore.specs.Objects.{faults_told};
ghost use Rattle.dirfrag_codec.specs.EntryRecord.{IsRankNumber};
ghost use Rattle.inode_table.specs.declared.dirs.Home.{Home};
ghost use Rattle.inode_table.specs.Dirs.{Covers, Homes, MayMove, leaves_of};
ghost use Rattle.inode_table.specs.TreeTable.{home_at};
ghost use Rattle.namespace_ops.specs.declared.plans.Spot.{Spot as Place};
ghost use Rattle.namespace_ops.specs.Changes.{IsNumbered, MayChange, dentry_at, fragments_of};
ghost use Rattle.subtree_map.specs.Authority.{Leaf};
ghost use Rattle.subtree_map.specs.Moves.{IsLostRank, KeepsRanksOf};
ghost use Rattle.mdcache.specs.Core.{state_of};
ghost use Rattle.mdcache.specs.Frags.{dir_moving};
ghost use Rattle.mdcache.specs.Shown.{shown_tree};
ghost use Rattle.mdcache.specs.Sound.{IsSound};
ghost use Rattle.ranked_tree.specs.Changing.{ChangesHeld, FollowsChange};
ghost use Rattle.ranked_tree.specs.Exported.{IsDivided, IsFrozenIn, held_in};
ghost use Rattle.ranked_tree.specs.Held.{AreHeldAt};
ghost use Rattle.ranked_tree.specs.Ranked.{IsFrozenLeaf, held_roots};
ghost use Rattle.ranked_tree.specs.Subtrees.{AreRoots, KeepsRoots, LoseDirectory};

use crate::authorities::authority_at;
use crate::ranked_tree::RankedTree;
use crate::regions::Regions;
use inode_table::Dirs;
use mdcache::MdCache;
use mds_types::{Ino, Rank, Refusal};
use namespace_ops::Change;
use objstore::Store;
use std::alloc::Global;
use subtree_map::Subtrees;

impl<S: Store + Drop> RankedTree<S> {
    /// Makes a change that may be made, of leaves that aren't frozen, each at the rank that holds it, as
    /// `MdCache::change` does and refuses. Where a directory moves, those of its leaves that would inherit another rank
    /// there become roots of the one that they have; a directory that goes has none any more. A new inode has a number
    /// of a rank. Takes memory for such roots first.
    pub fn make_change(&mut self, change: Change) -> Result<(), Refusal>
        requires may { MayChange (shown_tree (state_of self.old.tree)) self.old.tree.covers change }
        requires held { AreHeldAt (state_of self.old.tree) (held_roots self.old) change }
        requires numbered { IsNumbered IsRankNumber change }
        requires thawed { (leaf : Leaf) → Contains (fragments_of self.old.tree.covers change) leaf
            → IsFrozenLeaf self.old leaf → ⊥ }
        ensures changed { ChangesHeld (held_roots self.old) change self.old.tree self.new.tree result }
        ensures followed { FollowsChange change (state_of self.old.tree) self.old.subtrees self.new.subtrees result }
        ensures kept { KeepsRoots (state_of self.old.tree)
            (state_of self.new.tree) self.old.subtrees.roots self.new.subtrees.roots self.old.exports self.new.exports }
        ensures count { length self.new.tree.caches.used ≡ length self.old.tree.caches.used }
        ensures cap { self.new.tree.caches.cap ≡ self.old.tree.caches.cap }
        ensures counted { self.new.tree.faults ≡ self.old.tree.faults + faults_told (result_err result) }
    {
        change_tree(self.alloc, &mut self.tree, &mut self.regions, change)
    }
}

// Makes a change, with the roots.
fn change_tree<S: Store + Drop>(
    alloc: Global,
    tree: &mut MdCache<S>,
    regions: &mut Regions,
    change: Change,
) -> Result<(), Refusal>
    requires divided { IsDivided tree.old regions.old }
    requires may { MayChange (shown_tree (state_of tree.old)) tree.old.covers change }
    requires held { AreHeldAt (state_of tree.old) (held_in regions.old) change }
    requires numbered { IsNumbered IsRankNumber change }
    requires thawed { (leaf : Leaf) → Contains (fragments_of tree.old.covers change) leaf
        → IsFrozenIn (state_of tree.old) regions.old leaf → ⊥ }
    ensures changed { ChangesHeld (held_in regions.old) change tree.old tree.new result }
    ensures followed { FollowsChange change (state_of tree.old) regions.old.roots regions.new.roots result }
    ensures kept { KeepsRoots (state_of tree.old)
        (state_of tree.new) regions.old.roots.roots regions.new.roots.roots regions.old.exports regions.new.exports }
    ensures count { length tree.new.caches.used ≡ length tree.old.caches.used }
    ensures cap { tree.new.caches.cap ≡ tree.old.caches.cap }
    ensures counted { tree.new.faults ≡ tree.old.faults + faults_told (result_err result) }
    ensures divided { IsDivided tree.new regions.new }
{
    let lost = lost_rank(tree, regions, &change);
    let moves = moving(&change);
    let went = change.gone;
    if let Err(refusal) = reserve_lost(tree.dirs(), &mut regions.roots, moves, lost) {
        drop(change);
        return Err(refusal);
    }
    if let Err(refusal) = tree.change(alloc, change) {
        return Err(refusal);
    }
    settle(tree.dirs(), &mut regions.roots, moves, lost);
    lose(&mut regions.roots, went);
    Ok(())
}

// The rank that the leaves of a directory inherit that a change moves, if they would inherit another at its new place:
// those of the leaves that hold its dentries, of which it is known where they lie.
fn lost_rank<S: Store + Drop>(tree: &MdCache<S>, regions: &Regions, change: &Change) -> Option<Rank>
    requires divided { IsDivided tree.now regions.now }
    requires may { MayChange (shown_tree (state_of tree.now)) tree.now.covers change.now }
    requires held { AreHeldAt (state_of tree.now) (held_in regions.now) change.now }
    ensures { (put : Place × Node) → change.now.puts ≡ Some put
        → IfSome (dir_moving change.now)
        (λ dir. IsLostRank regions.now.roots.roots tree.now.homes tree.now.covers dir.0
        (home_at (dentry_at put.0)) result) }
{
    let Some(from) = &change.takes else {
        return None;
    };
    let Some(put) = &change.puts else {
        return None;
    };
    let was = authority_at(tree, regions, &from.at);
    let other = authority_at(tree, regions, &put.0.at);
    if other == was {
        return None;
    }
    Some(was)
}

// The number of the directory that a change moves, if it moves one.
fn moving(change: &Change) -> Option<Ino>
    ensures { result ≡ dir_moving change.now }
{
    match (&change.takes, &change.puts) {
        (Some(_), Some((_, inode))) => {
            if inode.kind.is_dir() {
                Some(inode.ino)
            } else {
                None
            }
        }
        _ => None,
    }
}

// Makes room for the leaves of a directory that moves, where they lose their rank and there is none: else nothing is
// done.
fn reserve_lost(
    dirs: &Dirs,
    roots: &mut Subtrees,
    moves: Option<Ino>,
    lost: Option<Rank>,
) -> Result<(), Refusal>
    ensures room { OnOk result (IfSome moves (λ dir. IsSome lost
        → length (leaves_of dirs.now.trees dir.0) ≤ roots.new.room)) }
    ensures ready { IfSome moves (λ dir. IsSome lost → length (leaves_of dirs.now.trees dir.0) ≤ roots.old.room)
        → IsOk result × (roots.new ≡ roots.old) }
    ensures same { roots.new.roots ≡ roots.old.roots }
    ensures promises { roots.new.promises ≡ roots.old.promises }
    ensures refused { IfErr result (λ reason. reason ≡ NoMemory) }
{
    match (moves, lost) {
        (Some(dir), Some(_)) => roots.reserve(dirs.leaf_count(dir)),
        _ => Ok(()),
    }
}

// The leaves of a directory that moved become roots of the rank that they lost, but for those that are roots.
fn settle(dirs: &Dirs, roots: &mut Subtrees, moves: Option<Ino>, lost: Option<Rank>)
    requires room { IfSome moves (λ dir. IsSome lost → length (leaves_of dirs.now.trees dir.0) ≤ roots.old.room) }
    ensures settled { (homes : Homes) (covers : Covers) (home : Home)
        → MatchOption moves (roots.new.roots ≡ roots.old.roots)
        (λ dir. leaves_of covers dir.0 ≡ leaves_of dirs.now.trees dir.0 → MayMove homes dir.0 home
        → IsLostRank roots.old.roots homes covers dir.0 home lost
        → KeepsRanksOf roots.old.roots roots.new.roots homes covers dir.0 home) }
    ensures promises { roots.new.promises ≡ roots.old.promises }
{
    if let Some(dir) = moves {
        roots.after_rename(dirs, dir, lost);
    }
}

// A directory that went has no root any more, if one did, and no promise of one is left.
fn lose(roots: &mut Subtrees, went: Option<Ino>)
    ensures roots { LoseDirectory roots.old.roots roots.new.roots went }
    ensures promises { LoseDirectory roots.old.promises roots.new.promises went }
{
    if let Some(dir) = went {
        roots.drop(dir);
    }
}
