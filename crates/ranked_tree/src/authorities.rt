//! Whose a leaf is.
ghost use Rattle.std.specs.Prelude.{◌≡◌, ◌↔◌, ℕ, true, false, IsTrue, MatchOption, OnOk, IfErr, IfOk};
ghost use Rattle.std.specs.FinMap as map;
ghost use Rattle.std.specs.Option.{option_copied};
ghost use Rattle.mds_types.specs.Leaf.{leaf_of};
ghost use Rattle.fragtree.specs.FragTree.{CanSplit, RefusesSplit};
ghost use Rattle.inode_table.specs.Dirs.{IsLive, RefusesLeaves, is_known, leaves_of};
ghost use Rattle.namespace_ops.specs.Places.{IsAt, Locates};
ghost use Rattle.mdcache.specs.Core.{state_of};
ghost use Rattle.mdcache.specs.Shown.{shown_tree};
ghost use Rattle.ranked_tree.specs.Exported.{IsAnyFrozen, IsFrozenIn, IsUnder, held_in};
ghost use Rattle.ranked_tree.specs.Ranked.{IsFrozenLeaf, held_roots};
ghost use Rattle.ranked_tree.specs.Held.{IsOwned};
ghost use Rattle.ranked_tree.specs.Subtrees.{AllHave, AreRoots, HoldsAt, Inherits, Rules};

use crate::inside::{all_have, some_frozen};
use crate::ranked_tree::RankedTree;
use crate::regions::Regions;
use inode_table::LeafAt;
use mdcache::MdCache;
use mds_types::{Dirfrag, Frag, Ino, Rank, Refusal};
use namespace_ops::Located;
use objstore::Store;
use subtree_map::Subtrees;

impl<S: Store + Drop> RankedTree<S> {
    /// The authority of a leaf; none exactly where there is no such leaf. Takes no memory.
    pub fn authority(&self, dir: Ino, frag: Frag) -> Option<Rank>
        ensures { MatchOption result (IsLive self.now.tree.homes self.now.tree.covers (dir, frag) → ⊥)
            (λ rank. IsLive self.now.tree.homes self.now.tree.covers (dir, frag)
            × Rules (state_of self.now.tree) self.now.subtrees.roots (dir, frag) rank) }
    {
        authority_of(&self.tree, &self.regions.roots, dir, frag)
    }

    /// Whether a rank is the authority of a leaf. Takes no memory.
    pub fn is_authority(&self, rank: Rank, dir: Ino, frag: Frag) -> bool
        ensures { IsTrue result ↔ Rules (state_of self.now.tree) self.now.subtrees.roots (dir, frag) rank }
    {
        is_authority(&self.tree, &self.regions.roots, rank, dir, frag)
    }

    /// The rank that holds a leaf; none exactly where there is no such leaf. `rank` is asked first: it holds a leaf of
    /// which it has a place. Takes no memory, one search of the directory table, and for a leaf that the rank doesn't
    /// cache one more for each directory up to the nearest root.
    pub fn holder(&self, rank: Rank, dir: Ino, frag: Frag) -> Option<Rank>
        ensures { MatchOption result (IsLive self.now.tree.homes self.now.tree.covers (dir, frag) → ⊥)
            (λ holder. IsLive self.now.tree.homes self.now.tree.covers (dir, frag)
            × Rules (state_of self.now.tree) (held_roots self.now) (dir, frag) holder) }
    {
        holder_at(&self.tree, &self.regions, rank, dir, frag)
    }

    /// Whether a rank is the authority of a leaf, which another or the same holds: the one that holds it, unless an
    /// export stands. Takes no memory.
    pub fn has_authority(&self, at: &Dirfrag, rank: Rank) -> bool
        requires live { IsLive self.now.tree.homes self.now.tree.covers (leaf_of at.now) }
        requires held { HoldsAt (state_of self.now.tree) (held_roots self.now) at.now }
        ensures { IsTrue result ↔ Rules (state_of self.now.tree) self.now.subtrees.roots (leaf_of at.now) rank }
    {
        has_authority(&self.tree, &self.regions, at, rank)
    }

    /// Whether a leaf is frozen: it changes no more until the export of its region ends. Takes no memory.
    pub fn is_frozen(&self, dir: Ino, frag: Frag) -> bool
        ensures { IsTrue result ↔ IsFrozenLeaf self.now (dir, frag) }
    {
        is_frozen(&self.tree, &self.regions, dir, frag)
    }

    /// Whether a leaf of a directory that lies properly inside a fragment is frozen. Takes no memory.
    pub fn is_any_frozen(&self, dir: Ino, frag: Frag) -> bool
        ensures { IsTrue result ↔ IsAnyFrozen self.now.exports self.now.subtrees.roots self.now.tree.homes
            self.now.tree.covers dir frag }
    {
        is_any_frozen(&self.tree, &self.regions, dir, frag)
    }

    /// Whether a leaf lies in the region that another has once it is a subtree root. Takes no memory.
    pub fn is_under(&self, root: &(Ino, Frag), leaf: &(Ino, Frag)) -> bool
        ensures { IsTrue result ↔ IsUnder self.now.subtrees.roots self.now.tree.homes
            self.now.tree.covers root.now leaf.now }
    {
        is_under(&self.tree, &self.regions.roots, root, leaf)
    }

    /// The authority of a leaf that lies here: the rank that holds it, unless an export stands. Takes no memory.
    pub fn authority_at(&self, at: &Dirfrag) -> Rank
        requires at { (dir hash : ℕ) × IsAt (shown_tree (state_of self.now.tree)) self.now.tree.covers
            (HoldsAt (state_of self.now.tree) (held_roots self.now)) dir hash at.now }
        ensures { Rules (state_of self.now.tree) self.now.subtrees.roots (leaf_of at.now) result }
    {
        authority_at(&self.tree, &self.regions, at)
    }

    /// Whether no leaf of a directory can be frozen or have another authority than the leaf where the directory's name
    /// lies: no export stands, and no rank knows of a subtree root in it. Takes no memory, and no search of the directory
    /// table. It may be false of others too, whose leaves have to be asked one by one.
    pub fn inherits(&self, dir: Ino) -> bool
        ensures { result ≡ true → Inherits self.now.subtrees.roots self.now.exports dir }
    {
        inherits(&self.regions, dir)
    }

    /// Whether each leaf of a directory that lies properly inside a fragment has this rank as its authority. Takes no
    /// memory.
    pub fn is_all_of(&self, dir: Ino, frag: Frag, rank: Rank) -> bool
        ensures { IsTrue result ↔ AllHave self.now.tree.homes self.now.tree.covers
            self.now.subtrees.roots dir frag rank }
    {
        is_all_of(&self.tree, &self.regions.roots, dir, frag, rank)
    }
}

// The authority of a leaf; none exactly where there is no such leaf.
fn authority_of<S: Store + Drop>(
    tree: &MdCache<S>,
    roots: &Subtrees,
    dir: Ino,
    frag: Frag,
) -> Option<Rank>
    requires { AreRoots (state_of tree.now) roots.now.roots }
    ensures { MatchOption result (IsLive tree.now.homes tree.now.covers (dir, frag) → ⊥)
        (λ rank. IsLive tree.now.homes tree.now.covers (dir, frag)
        × Rules (state_of tree.now) roots.now.roots (dir, frag) rank) }
{
    // a leaf contains the hash that its value is, and no other leaf does
    match roots.locate(tree.dirs(), dir, frag.value()) {
        Some((leaf, rank)) if leaf == frag => Some(rank),
        _ => None,
    }
}

/// Where a hash falls in a directory: the leaf that it picks, and the rank that holds it; nowhere exactly where there
/// is no such directory. `rank` is asked first: it holds a leaf of which it has a place. Takes no memory, one search of
/// the directory table, and for a leaf that the rank doesn't cache one more for each directory up to the nearest root.
pub(crate) fn locate<S: Store + Drop>(
    tree: &MdCache<S>,
    regions: &Regions,
    rank: Rank,
    dir: Ino,
    hash: u32,
) -> Option<Located>
    requires { IsOwned tree.now (held_in regions.now) }
    ensures { Locates (shown_tree (state_of tree.now)) tree.now.covers
        (HoldsAt (state_of tree.now) (held_in regions.now)) dir.0 hash result }
{
    let dirs = tree.dirs();
    let Some(leaf) = dirs.leaf_at(dir, hash) else {
        return None;
    };
    let entries = leaf.entries;
    let at = held_leaf(tree, regions, rank, dir, leaf);
    Some(Located { at, entries })
}

// A leaf that was found, with the rank that holds it. `rank` is asked first.
fn held_leaf<S: Store + Drop>(
    tree: &MdCache<S>,
    regions: &Regions,
    rank: Rank,
    dir: Ino,
    leaf: LeafAt<'_>,
) -> Dirfrag
    requires owned { IsOwned tree.now (held_in regions.now) }
    requires live { IsLive tree.now.homes tree.now.covers (dir, leaf.frag) }
    requires home { option_copied leaf.home ≡ map.get tree.now.homes dir.0 }
    ensures held { HoldsAt (state_of tree.now) (held_in regions.now) result }
    ensures dir { result.dir ≡ dir }
    ensures frag { result.frag ≡ leaf.entry.frag }
{
    let frag = leaf.frag;
    let here = Dirfrag { dir, frag, rank };
    if tree.has_place(&here) {
        return here;
    }
    let rank = regions.holder_by(rank, tree.dirs(), (dir, frag), leaf.home);
    Dirfrag { dir, frag, rank }
}

/// The rank that holds a leaf; none exactly where there is no such leaf. `rank` is asked first.
pub(crate) fn holder_at<S: Store + Drop>(
    tree: &MdCache<S>,
    regions: &Regions,
    rank: Rank,
    dir: Ino,
    frag: Frag,
) -> Option<Rank>
    requires { IsOwned tree.now (held_in regions.now) }
    ensures { MatchOption result (IsLive tree.now.homes tree.now.covers (dir, frag) → ⊥)
        (λ holder. IsLive tree.now.homes tree.now.covers (dir, frag)
        × Rules (state_of tree.now) (held_in regions.now) (dir, frag) holder) }
{
    // a leaf contains the hash that its value is, and no other leaf does
    let Some(located) = locate(tree, regions, rank, dir, frag.value()) else {
        return None;
    };
    if located.at.frag != frag {
        return None;
    }
    Some(located.at.rank)
}

/// The rank that holds a leaf which can be split by so many bits. `rank` is asked first.
pub(crate) fn holder_to_split<S: Store + Drop>(
    tree: &MdCache<S>,
    regions: &Regions,
    rank: Rank,
    dir: Ino,
    frag: Frag,
    bits: u8,
) -> Result<Rank, Refusal>
    requires { IsOwned tree.now (held_in regions.now) }
    ensures known { OnOk result (is_known tree.now.homes dir.0 ≡ true) }
    ensures can { OnOk result (CanSplit (leaves_of tree.now.covers dir.0) frag bits) }
    ensures holder { IfOk result (Rules (state_of tree.now) (held_in regions.now) (dir, frag)) }
    ensures refused { IfErr result
        (RefusesLeaves (RefusesSplit (leaves_of tree.now.covers dir.0) frag bits) tree.now.homes dir) }
{
    let dirs = tree.dirs();
    let leaf = match dirs.check_split(dir, frag, bits) {
        Ok(leaf) => leaf,
        Err(refusal) => return Err(refusal),
    };
    let at = held_leaf(tree, regions, rank, dir, leaf);
    Ok(at.rank)
}

// Whether a rank is the authority of a leaf.
fn is_authority<S: Store + Drop>(
    tree: &MdCache<S>,
    roots: &Subtrees,
    rank: Rank,
    dir: Ino,
    frag: Frag,
) -> bool
    ensures { IsTrue result ↔ Rules (state_of tree.now) roots.now.roots (dir, frag) rank }
{
    roots.find_authority(tree.dirs(), dir, frag) == Some(rank)
}

// Whether a leaf lies in the region that another has once it is a root.
fn is_under<S: Store + Drop>(
    tree: &MdCache<S>,
    roots: &Subtrees,
    root: &(Ino, Frag),
    leaf: &(Ino, Frag),
) -> bool
    ensures { IsTrue result ↔ IsUnder roots.now.roots tree.now.homes tree.now.covers root.now leaf.now }
{
    roots.is_under(tree.dirs(), root, leaf)
}

// Whether a leaf is frozen.
fn is_frozen<S: Store + Drop>(tree: &MdCache<S>, regions: &Regions, dir: Ino, frag: Frag) -> bool
    ensures { IsTrue result ↔ IsFrozenIn (state_of tree.now) regions.now (dir, frag) }
{
    regions
        .exports
        .is_frozen(&regions.roots, tree.dirs(), dir, frag)
}

// Whether no export stands, and no rank knows of a root in a directory.
fn inherits(regions: &Regions, dir: Ino) -> bool
    ensures { result ≡ true → Inherits regions.now.roots.roots regions.now.exports dir }
{
    if regions.exports.len() != 0 {
        return false;
    }
    !regions.roots.knows_of(dir)
}

// Whether a leaf of a directory that lies properly inside a fragment is frozen.
fn is_any_frozen<S: Store + Drop>(
    tree: &MdCache<S>,
    regions: &Regions,
    dir: Ino,
    frag: Frag,
) -> bool
    ensures { IsTrue result ↔ IsAnyFrozen regions.now.exports regions.now.roots.roots
        tree.now.homes tree.now.covers dir frag }
{
    some_frozen(tree.dirs(), regions, dir, frag)
}

/// The authority of a leaf that lies here.
pub(crate) fn authority_at<S: Store + Drop>(
    tree: &MdCache<S>,
    regions: &Regions,
    at: &Dirfrag,
) -> Rank
    requires live { IsLive tree.now.homes tree.now.covers (leaf_of at.now) }
    requires valid { AreRoots (state_of tree.now) regions.now.roots.roots }
    requires held { HoldsAt (state_of tree.now) (held_in regions.now) at.now }
    ensures { Rules (state_of tree.now) regions.now.roots.roots (leaf_of at.now) result }
{
    if regions.exports.len() == 0 {
        return at.rank;
    }
    regions.roots.authority(tree.dirs(), at.dir, at.frag)
}

// Whether a rank is the authority of a leaf that is held so.
fn has_authority<S: Store + Drop>(
    tree: &MdCache<S>,
    regions: &Regions,
    at: &Dirfrag,
    rank: Rank,
) -> bool
    requires live { IsLive tree.now.homes tree.now.covers (leaf_of at.now) }
    requires valid { AreRoots (state_of tree.now) regions.now.roots.roots }
    requires held { HoldsAt (state_of tree.now) (held_in regions.now) at.now }
    ensures { IsTrue result ↔ Rules (state_of tree.now) regions.now.roots.roots (leaf_of at.now) rank }
{
    authority_at(tree, regions, at) == rank
}

// Whether each leaf of a directory that lies properly inside a fragment has this rank as its authority.
fn is_all_of<S: Store + Drop>(
    tree: &MdCache<S>,
    roots: &Subtrees,
    dir: Ino,
    frag: Frag,
    rank: Rank,
) -> bool
    requires valid { AreRoots (state_of tree.now) roots.now.roots }
    ensures { IsTrue result ↔ AllHave tree.now.homes tree.now.covers roots.now.roots dir frag rank }
{
    all_have(tree.dirs(), roots, dir, frag, rank)
}
