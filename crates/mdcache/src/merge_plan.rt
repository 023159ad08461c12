//! What a merge needs beside the caches: the leaves that end, and the leaves after it.
ghost use Rattle.std.specs.Prelude.{◌≡◌, ◌≤◌, ◌<◌, ◌++◌, ◌∷◌, [], length, OnOk, IfOk, IfErr};
ghost use Rattle.mds_types.specs.declared.refusals.Refusal.TheVariants.{NoMemory};
ghost use Rattle.fragtree.specs.FragTree.{CanMerge, IsMerge, IsTree, leaves_inside, lies_inside};
ghost use Rattle.inode_table.specs.Dirs.{leaves_of};
ghost use Rattle.mdcache.specs.Core.{IsNoLess};
ghost use Rattle.mdcache.specs.Regrouping.{IsMergePlanned};

use crate::mdcache::MdCache;
use fragtree::FragTree;
use inode_table::{BoxedTree, Dirs};
use mds_types::{Dirfrag, Frag, Refusal};
use objstore::Store;
use std::alloc::{AllocError, Global};

/// The leaves that end with a merge, and the leaves of the directory after it.
#[derive(Drop)]
pub struct MergePlan {
    pub leaves: Vec<Frag>,
    pub cover: BoxedTree,
}

impl<S: Store + Drop> MdCache<S> {
    /// Plans a merge of leaves that can be merged, and makes room for it on the purge list. Refused for want of
    /// memory alone.
    pub(crate) fn plan_merge(&mut self, alloc: Global, at: &Dirfrag) -> Result<MergePlan, Refusal>
        requires { CanMerge (leaves_of self.old.covers at.now.dir.0) at.now.frag }
        ensures planned { IfOk result (IsMergePlanned self.new at.now) }
        ensures left { self.new ≡ record self.old { room = self.new.room } }
        ensures room { IsNoLess self.old.room self.new.room }
        ensures refused { IfErr result (λ reason. reason ≡ NoMemory) }
    {
        let plan = match planned(alloc, &self.dirs, at) {
            Ok(plan) => plan,
            Err(refusal) => return Err(refusal),
        };
        match self.purge.reserve(plan.leaves.len()) {
            Ok(()) => Ok(plan),
            Err(_) => {
                drop(plan);
                Err(Refusal::NoMemory)
            }
        }
    }
}

// The leaves of a directory that end with a merge, and those after it. Copies the directory's leaves once.
fn planned(alloc: Global, dirs: &Dirs, at: &Dirfrag) -> Result<MergePlan, Refusal>
    requires { CanMerge (leaves_of dirs.now.trees at.now.dir.0) at.now.frag }
    ensures leaves { IfOk result
        (λ plan. plan.leaves.items ≡ leaves_inside at.now.frag (leaves_of dirs.now.trees at.now.dir.0)) }
    ensures merged { IfOk result (λ plan. IsMerge (leaves_of dirs.now.trees at.now.dir.0) plan.cover at.now.frag) }
    ensures whole { IfOk result (λ plan. IsTree plan.cover) }
    ensures refused { IfErr result (λ reason. reason ≡ NoMemory) }
{
    let tree = dirs.tree(alloc, at.dir)?;
    let Ok(leaves) = ending_leaves(alloc, at.frag, &tree) else {
        drop(tree);
        return Err(Refusal::NoMemory);
    };
    match merged_at(alloc, tree, at.frag) {
        Ok(cover) => Ok(MergePlan { leaves, cover }),
        Err(refusal) => {
            drop(leaves);
            Err(refusal)
        }
    }
}

// These leaves once those inside a fragment are merged, ready for the table.
fn merged_at(alloc: Global, tree: FragTree, frag: Frag) -> Result<BoxedTree, Refusal>
    requires { CanMerge tree frag }
    ensures merged { IfOk result (λ cover. IsMerge tree cover frag) }
    ensures whole { IfOk result (λ cover. IsTree cover) }
    ensures refused { IfErr result (λ reason. reason ≡ NoMemory) }
{
    let mut cover = tree;
    if let Err(refusal) = cover.merge(frag) {
        drop(cover);
        return Err(refusal);
    }
    Ok(BoxedTree::new(alloc, cover)?)
}

// Those of these leaves that lie properly inside a fragment.
fn ending_leaves(alloc: Global, frag: Frag, tree: &FragTree) -> Result<Vec<Frag>, AllocError>
    ensures { IfOk result (λ leaves. leaves.items ≡ leaves_inside frag tree.now) }
{
    let mut leaves = Vec::new(alloc);
    for leaf in tree {
        push_inside(&mut leaves, frag, leaf)?;
    }
    Ok(leaves)
}

// Adds a leaf to others if it lies properly inside a fragment.
fn push_inside(leaves: &mut Vec<Frag>, frag: Frag, leaf: Frag) -> Result<(), AllocError>
    ensures { OnOk result (leaves.new.items ≡ leaves.old.items ++ leaves_inside frag (leaf ∷ [])) }
{
    if !is_inside(frag, leaf) {
        return Ok(());
    }
    leaves.push(leaf)?;
    Ok(())
}

// Whether a leaf lies properly inside a fragment.
fn is_inside(frag: Frag, leaf: Frag) -> bool
    ensures { result ≡ lies_inside frag leaf }
{
    if leaf.bits() <= frag.bits() {
        return false;
    }
    frag.contains_frag(leaf)
}
