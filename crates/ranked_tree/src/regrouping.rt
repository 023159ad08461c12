//! Splits and merges of leaves, with their subtree roots.
ghost use Rattle.std.specs.Prelude.{◌≡◌, ◌+◌, ◌<◌, ◌≤◌, ◌^◌, true, map as each, OnOk, OnErr, IfErr, length};
ghost use Rattle.objstore.specs.Objects.{faults_told};
ghost use Rattle.std.specs.Result.{result_err};
ghost use Rattle.std.specs.List.{Contains};
ghost use Rattle.mds_types.specs.Leaf.{leaf_of};
ghost use Rattle.fragtree.specs.FragTree.{CanMerge, CanSplit, leaves_inside};
ghost use Rattle.inode_table.specs.Dirs.{IsLive, is_known, leaves_of};
ghost use Rattle.namespace_ops.specs.Changes.{in_directory};
ghost use Rattle.subtree_map.specs.Authority.{Leaf};
ghost use Rattle.subtree_map.specs.Changes.{HaveOneAuthority, IsRootMerge, IsRootSplit, is_inside};
ghost use Rattle.mdcache.specs.Core.{IsSoundCore, state_of};
ghost use Rattle.mdcache.specs.Ranks.{MayHold};
ghost use Rattle.mdcache.specs.SplitsAndMerges.{MayNotMerge, MayNotSplit, MergesFrags, SplitsFrag};
ghost use Rattle.ranked_tree.specs.Exported.{AreThawed, IsDivided, IsFrozenIn, held_in};
ghost use Rattle.ranked_tree.specs.Held.{CameAt, IsFamilyOf, IsMergedHere, IsOwned, LacksPlacesFor, LacksPlacesInside};
ghost use Rattle.ranked_tree.specs.Ranked.{IsFrozenLeaf, held_roots};
ghost use Rattle.ranked_tree.specs.Subtrees.{AllHave, GivesToChildren, HoldsAt, KeepsRoots, Rules, TakesOver};

use crate::holding::holder_of;
use crate::inside::leaf_inside;
use crate::ranked_tree::RankedTree;
use crate::regions::Regions;
use mdcache::MdCache;
use mds_types::{Dirfrag, Frag, Ino, Rank, Refusal};
use objstore::Store;
use std::alloc::Global;
use subtree_map::Subtrees;

impl<S: Store + Drop> RankedTree<S> {
    /// Splits a leaf that can be split and isn't frozen by so many bits, at the rank that holds it, as `MdCache::split`
    /// does and refuses; where it is a root its children are roots of its rank then, and where it inherits they do.
    /// Takes memory for those roots first. Of the caches only places of the leaf and of its children are used, at that
    /// rank.
    pub fn split(&mut self, alloc: Global, at: &Dirfrag, bits: u8) -> Result<(), Refusal>
        requires known { is_known self.old.tree.homes at.now.dir.0 ≡ true }
        requires can { CanSplit (leaves_of self.old.tree.covers at.now.dir.0) at.now.frag bits }
        requires held { HoldsAt (state_of self.old.tree) (held_roots self.old) at.now }
        requires thawed { IsFrozenLeaf self.old (leaf_of at.now) → ⊥ }
        ensures split { SplitsFrag
            (LacksPlacesFor (2 ^ bits + 1) self.old.tree self.old.subtrees.roots
            (leaf_of at.now)) self.old.tree self.new.tree at.now.dir at.now.frag bits result }
        ensures came { CameAt (Rules (state_of self.old.tree) self.old.subtrees.roots (leaf_of at.now))
            (IsFamilyOf at.now.dir at.now.frag bits) self.old.tree.caches self.new.tree.caches }
        ensures roots { OnOk result
            (IsRootSplit self.old.subtrees.roots self.new.subtrees.roots at.now.dir.0 at.now.frag bits) }
        ensures left { OnErr result (self.new.subtrees.roots ≡ self.old.subtrees.roots) }
        ensures promises { self.new.subtrees.promises ≡ self.old.subtrees.promises }
        ensures count { length self.new.tree.caches.used ≡ length self.old.tree.caches.used }
        ensures cap { self.new.tree.caches.cap ≡ self.old.tree.caches.cap }
        ensures counted { self.new.tree.faults ≡ self.old.tree.faults + faults_told (result_err result) }
        ensures children { OnOk result
            (GivesToChildren (state_of self.old.tree)
            (state_of self.new.tree) self.old.subtrees.roots self.new.subtrees.roots at.now.dir at.now.frag bits) }
        ensures kept { KeepsRoots (state_of self.old.tree)
            (state_of self.new.tree) self.old.subtrees.roots self.new.subtrees.roots self.old.exports self.new.exports }
    {
        split_with_roots(alloc, &mut self.tree, &mut self.regions, at, bits)
    }

    /// Merges the leaves of a directory properly inside a fragment, which can be merged, have one authority and aren't
    /// frozen, as `MdCache::merge` does and refuses; where one of them is a root the merged leaf is a root of that rank
    /// then. Takes memory for that root first. Of the caches only places of those leaves and of the merged one are
    /// used, at the rank that holds them.
    pub fn merge(&mut self, alloc: Global, dir: Ino, frag: Frag) -> Result<(), Refusal>
        requires known { is_known self.old.tree.homes dir.0 ≡ true }
        requires can { CanMerge (leaves_of self.old.tree.covers dir.0) frag }
        requires one { HaveOneAuthority self.old.subtrees.roots self.old.tree.homes self.old.tree.covers dir.0 frag }
        requires thawed { AreThawed self.old.exports self.old.subtrees.roots self.old.tree.homes
            self.old.tree.covers dir frag }
        ensures merged { MergesFrags
            (LacksPlacesInside 1 self.old.tree self.old.subtrees.roots dir frag) self.old.tree
            self.new.tree dir frag result }
        ensures came { CameAt (AllHave self.old.tree.homes self.old.tree.covers self.old.subtrees.roots dir frag)
            (IsMergedHere self.old.tree.covers dir frag) self.old.tree.caches self.new.tree.caches }
        ensures roots { OnOk result (IsRootMerge self.old.subtrees.roots self.new.subtrees.roots dir.0 frag) }
        ensures left { OnErr result (self.new.subtrees.roots ≡ self.old.subtrees.roots) }
        ensures promises { self.new.subtrees.promises ≡ self.old.subtrees.promises }
        ensures count { length self.new.tree.caches.used ≡ length self.old.tree.caches.used }
        ensures cap { self.new.tree.caches.cap ≡ self.old.tree.caches.cap }
        ensures counted { self.new.tree.faults ≡ self.old.tree.faults + faults_told (result_err result) }
        ensures one { OnOk result
            (TakesOver (state_of self.old.tree)
            (state_of self.new.tree) self.old.subtrees.roots self.new.subtrees.roots dir frag) }
        ensures kept { KeepsRoots (state_of self.old.tree)
            (state_of self.new.tree) self.old.subtrees.roots self.new.subtrees.roots self.old.exports self.new.exports }
    {
        merge_with_roots(alloc, &mut self.tree, &mut self.regions, dir, frag)
    }
}

// Splits a leaf that can be split by so many bits, at the rank that holds it, as `MdCache::split` does and refuses;
// where it is a root its children are roots of its rank then, and where it inherits they do. Takes memory for those
// roots first.
fn split_with_roots<S: Store + Drop>(
    alloc: Global,
    tree: &mut MdCache<S>,
    regions: &mut Regions,
    at: &Dirfrag,
    bits: u8,
) -> Result<(), Refusal>
    requires divided { IsDivided tree.old regions.old }
    requires known { is_known tree.old.homes at.now.dir.0 ≡ true }
    requires can { CanSplit (leaves_of tree.old.covers at.now.dir.0) at.now.frag bits }
    requires held { HoldsAt (state_of tree.old) (held_in regions.old) at.now }
    requires thawed { IsFrozenIn (state_of tree.old) regions.old (leaf_of at.now) → ⊥ }
    ensures split { SplitsFrag
        (LacksPlacesFor (2 ^ bits + 1) tree.old regions.old.roots.roots
        (leaf_of at.now)) tree.old tree.new at.now.dir at.now.frag bits result }
    ensures came { CameAt (Rules (state_of tree.old) regions.old.roots.roots (leaf_of at.now))
        (IsFamilyOf at.now.dir at.now.frag bits) tree.old.caches tree.new.caches }
    ensures roots { OnOk result
        (IsRootSplit regions.old.roots.roots regions.new.roots.roots at.now.dir.0 at.now.frag bits) }
    ensures left { OnErr result (regions.new.roots.roots ≡ regions.old.roots.roots) }
    ensures promises { regions.new.roots.promises ≡ regions.old.roots.promises }
    ensures count { length tree.new.caches.used ≡ length tree.old.caches.used }
    ensures cap { tree.new.caches.cap ≡ tree.old.caches.cap }
    ensures counted { tree.new.faults ≡ tree.old.faults + faults_told (result_err result) }
    ensures children { OnOk result
        (GivesToChildren (state_of tree.old)
        (state_of tree.new) regions.old.roots.roots regions.new.roots.roots at.now.dir at.now.frag bits) }
    ensures kept { KeepsRoots (state_of tree.old)
        (state_of tree.new) regions.old.roots.roots regions.new.roots.roots regions.old.exports regions.new.exports }
    ensures divided { IsDivided tree.new regions.new }
{
    if let Err(refusal) = reserve_split(tree, &mut regions.roots, at, bits) {
        return Err(refusal);
    }
    if let Err(refusal) = split_held(alloc, tree, regions, at, bits) {
        return Err(refusal);
    }
    regions.roots.split_root(at.dir, at.frag, bits);
    Ok(())
}

// Merges the leaves of a directory properly inside a fragment, which can be merged and have one authority, as
// `MdCache::merge` does and refuses; where one of them is a root the merged leaf is a root of that rank then. Takes
// memory for that root first.
fn merge_with_roots<S: Store + Drop>(
    alloc: Global,
    tree: &mut MdCache<S>,
    regions: &mut Regions,
    dir: Ino,
    frag: Frag,
) -> Result<(), Refusal>
    requires divided { IsDivided tree.old regions.old }
    requires known { is_known tree.old.homes dir.0 ≡ true }
    requires can { CanMerge (leaves_of tree.old.covers dir.0) frag }
    requires one { HaveOneAuthority regions.old.roots.roots tree.old.homes tree.old.covers dir.0 frag }
    requires thawed { AreThawed regions.old.exports regions.old.roots.roots tree.old.homes tree.old.covers dir frag }
    ensures merged { MergesFrags
        (LacksPlacesInside 1 tree.old regions.old.roots.roots dir frag) tree.old tree.new dir frag result }
    ensures came { CameAt (AllHave tree.old.homes tree.old.covers regions.old.roots.roots dir frag)
        (IsMergedHere tree.old.covers dir frag) tree.old.caches tree.new.caches }
    ensures roots { OnOk result (IsRootMerge regions.old.roots.roots regions.new.roots.roots dir.0 frag) }
    ensures left { OnErr result (regions.new.roots.roots ≡ regions.old.roots.roots) }
    ensures promises { regions.new.roots.promises ≡ regions.old.roots.promises }
    ensures count { length tree.new.caches.used ≡ length tree.old.caches.used }
    ensures cap { tree.new.caches.cap ≡ tree.old.caches.cap }
    ensures counted { tree.new.faults ≡ tree.old.faults + faults_told (result_err result) }
    ensures one { OnOk result
        (TakesOver (state_of tree.old) (state_of tree.new) regions.old.roots.roots regions.new.roots.roots dir frag) }
    ensures kept { KeepsRoots (state_of tree.old)
        (state_of tree.new) regions.old.roots.roots regions.new.roots.roots regions.old.exports regions.new.exports }
    ensures divided { IsDivided tree.new regions.new }
{
    if let Err(refusal) = reserve_merge(tree, &mut regions.roots, dir, frag) {
        return Err(refusal);
    }
    if let Err(refusal) = merge_held(alloc, tree, regions, dir, frag) {
        return Err(refusal);
    }
    regions.roots.merge_roots(dir, frag);
    Ok(())
}

// Splits a leaf in the cache of the rank that holds it.
fn split_held<S: Store + Drop>(
    alloc: Global,
    tree: &mut MdCache<S>,
    regions: &Regions,
    at: &Dirfrag,
    bits: u8,
) -> Result<(), Refusal>
    requires known { is_known tree.old.homes at.now.dir.0 ≡ true }
    requires can { CanSplit (leaves_of tree.old.covers at.now.dir.0) at.now.frag bits }
    requires owned { IsOwned tree.old (held_in regions.now) }
    requires held { HoldsAt (state_of tree.old) (held_in regions.now) at.now }
    requires thawed { IsFrozenIn (state_of tree.old) regions.now (leaf_of at.now) → ⊥ }
    ensures split { SplitsFrag
        (LacksPlacesFor (2 ^ bits + 1) tree.old regions.now.roots.roots
        (leaf_of at.now)) tree.old tree.new at.now.dir at.now.frag bits result }
    ensures count { length tree.new.caches.used ≡ length tree.old.caches.used }
    ensures cap { tree.new.caches.cap ≡ tree.old.caches.cap }
    ensures counted { tree.new.faults ≡ tree.old.faults + faults_told (result_err result) }
    ensures came { CameAt (Rules (state_of tree.old) regions.now.roots.roots (leaf_of at.now))
        (IsFamilyOf at.now.dir at.now.frag bits) tree.old.caches tree.new.caches }
    ensures sound { IsSoundCore tree.new }
{
    tree.split(alloc, at, bits)
}

// Merges leaves in the cache of the one rank that holds them.
fn merge_held<S: Store + Drop>(
    alloc: Global,
    tree: &mut MdCache<S>,
    regions: &Regions,
    dir: Ino,
    frag: Frag,
) -> Result<(), Refusal>
    requires known { is_known tree.old.homes dir.0 ≡ true }
    requires can { CanMerge (leaves_of tree.old.covers dir.0) frag }
    requires one { HaveOneAuthority regions.now.roots.roots tree.old.homes tree.old.covers dir.0 frag }
    requires owned { IsOwned tree.old (held_in regions.now) }
    requires thawed { AreThawed regions.now.exports regions.now.roots.roots tree.old.homes tree.old.covers dir frag }
    ensures merged { MergesFrags
        (LacksPlacesInside 1 tree.old regions.now.roots.roots dir frag) tree.old tree.new dir frag result }
    ensures count { length tree.new.caches.used ≡ length tree.old.caches.used }
    ensures cap { tree.new.caches.cap ≡ tree.old.caches.cap }
    ensures counted { tree.new.faults ≡ tree.old.faults + faults_told (result_err result) }
    ensures came { CameAt (AllHave tree.old.homes tree.old.covers regions.now.roots.roots dir frag)
        (IsMergedHere tree.old.covers dir frag) tree.old.caches tree.new.caches }
    ensures sound { IsSoundCore tree.new }
{
    let rank = holder_of_all(tree, regions, dir, frag);
    tree.merge(alloc, &Dirfrag { dir, frag, rank })
}

// The rank that holds the leaves of a directory properly inside a fragment, which have one authority.
fn holder_of_all<S: Store + Drop>(
    tree: &MdCache<S>,
    regions: &Regions,
    dir: Ino,
    frag: Frag,
) -> Rank
    requires known { is_known tree.now.homes dir.0 ≡ true }
    requires can { CanMerge (leaves_of tree.now.covers dir.0) frag }
    requires one { HaveOneAuthority (held_in regions.now) tree.now.homes tree.now.covers dir.0 frag }
    requires owned { IsOwned tree.now (held_in regions.now) }
    ensures all { AllHave tree.now.homes tree.now.covers (held_in regions.now) dir frag result }
    ensures inside { (leaf : Leaf) × IsLive tree.now.homes tree.now.covers leaf × (is_inside dir.0 frag leaf ≡ true) }
    ensures there { result.0 < length tree.now.caches.used }
    ensures holds { (q : Leaf)
        → Contains (each (in_directory dir.0) (leaves_inside frag (leaves_of tree.now.covers dir.0))) q
        → MayHold tree.now.caches result q }
{
    match leaf_inside(tree.dirs(), dir, frag, frag.value()) {
        Some(leaf) => holder_of(tree, regions, dir, leaf),
        None => unreachable!(),
    }
}

// Makes room for the roots of the children of a leaf that can be split.
fn reserve_split<S: Store + Drop>(
    tree: &MdCache<S>,
    roots: &mut Subtrees,
    at: &Dirfrag,
    bits: u8,
) -> Result<(), Refusal>
    requires known { is_known tree.now.homes at.now.dir.0 ≡ true }
    requires can { CanSplit (leaves_of tree.now.covers at.now.dir.0) at.now.frag bits }
    ensures room { OnOk result (2 ^ bits ≤ roots.new.room) }
    ensures refused { IfErr result (MayNotSplit ⊥ tree.now tree.now at.now.dir at.now.frag bits) }
    ensures same { roots.new.roots ≡ roots.old.roots }
    ensures promises { roots.new.promises ≡ roots.old.promises }
{
    let count: u16 = 1 << bits;
    if let Err(refusal) = tree.check_numbers(u64::from(count)) {
        return Err(refusal);
    }
    if let Err(refusal) = roots.reserve(usize::from(count)) {
        return Err(refusal);
    }
    Ok(())
}

// Makes room for the root that a merged leaf may be, where leaves can be merged.
fn reserve_merge<S: Store + Drop>(
    tree: &MdCache<S>,
    roots: &mut Subtrees,
    dir: Ino,
    frag: Frag,
) -> Result<(), Refusal>
    requires known { is_known tree.now.homes dir.0 ≡ true }
    requires can { CanMerge (leaves_of tree.now.covers dir.0) frag }
    ensures room { OnOk result (1 ≤ roots.new.room) }
    ensures refused { IfErr result (MayNotMerge ⊥ tree.now tree.now dir frag) }
    ensures same { roots.new.roots ≡ roots.old.roots }
    ensures promises { roots.new.promises ≡ roots.old.promises }
{
    if let Err(refusal) = tree.check_numbers(1) {
        return Err(refusal);
    }
    if let Err(refusal) = roots.reserve(1) {
        return Err(refusal);
    }
    Ok(())
}
