//! Leaves that a directory was given, and the one leaf `*` of a directory that was given none.
ghost use Rattle.std.specs.Prelude.{◌≡◌, ◌≢◌, ◌∷◌, [], IfErr, IfOk, OnErr, OnOk};
ghost use Rattle.std.specs.Option.{option_copied};
ghost use Rattle.mds_types.specs.declared.refusals.Refusal.TheVariants.{NoMemory};
ghost use Rattle.mds_types.specs.Frag.{root_fragment};
ghost use Rattle.fragtree.specs.FragTree.{CanSplit, IsPick, IsSplit, IsTree, RefusesSplit};
ghost use Rattle.inode_table.specs.Dirs.{or_whole};

use crate::boxed_tree::BoxedTree;
use fragtree::FragTree;
use mds_types::{Frag, Refusal};
use std::alloc::Global;

/// Leaves that were set, lent.
pub(crate) fn tree_of(leaves: &Option<BoxedTree>) -> Option<&FragTree>
    ensures { option_copied result ≡ leaves.now }
{
    Some(leaves.as_ref()?.as_tree())
}

/// The leaf that a hash picks of leaves that were set, and of the one leaf `*` where none were.
pub(crate) fn picked(leaves: Option<&FragTree>, hash: u32) -> Frag
    ensures { IsPick (or_whole (option_copied leaves.entry)) hash result }
{
    match leaves {
        Some(tree) => tree.pick(hash),
        None => Frag::ROOT,
    }
}

/// Whether a fragment of leaves that were set, and of the one leaf `*` where none were, can be split by so many bits.
/// Refused as the split is where it can't be. Takes no memory.
pub(crate) fn check_split_of(leaves: Option<&FragTree>, frag: Frag, bits: u8) -> Result<(), Refusal>
    ensures ok { OnOk result (CanSplit (or_whole (option_copied leaves.entry)) frag bits) }
    ensures err { IfErr result (RefusesSplit (or_whole (option_copied leaves.entry)) frag bits) }
    ensures memory { IfErr result (λ reason. reason ≢ NoMemory) }
{
    match leaves {
        Some(tree) => tree.check_split(frag, bits),
        None => check_split_of_whole(frag, bits),
    }
}

// Whether the one leaf `*` can be split at a fragment by so many bits.
fn check_split_of_whole(frag: Frag, bits: u8) -> Result<(), Refusal>
    ensures ok { OnOk result (CanSplit (root_fragment ∷ []) frag bits) }
    ensures err { IfErr result (RefusesSplit (root_fragment ∷ []) frag bits) }
    ensures memory { IfErr result (λ reason. reason ≢ NoMemory) }
{
    if frag != Frag::ROOT {
        return Err(Refusal::NoSuchFrag);
    }
    if bits < 1 || bits > FragTree::MAX_SPLIT_BITS {
        return Err(Refusal::BadSplit);
    }
    Ok(())
}

/// Splits one of leaves that were set, or the one leaf `*` where none were.
pub(crate) fn split_in(
    alloc: Global,
    leaves: &mut Option<BoxedTree>,
    frag: Frag,
    bits: u8,
) -> Result<(), Refusal>
    requires { CanSplit (or_whole leaves.old) frag bits }
    ensures split { OnOk result (IsSplit (or_whole leaves.old) (or_whole leaves.new) frag bits) }
    ensures set { OnOk result (leaves.new ≡ Some (or_whole leaves.new)) }
    ensures whole { OnOk result (IsTree (or_whole leaves.new)) }
    ensures left { OnErr result (leaves.new ≡ leaves.old) }
    ensures refused { IfErr result (λ reason. reason ≡ NoMemory) }
{
    if let Some(tree) = leaves {
        return tree.split(frag, bits);
    }
    *leaves = Some(split_whole(alloc, frag, bits)?);
    Ok(())
}

/// The leaves that the one leaf `*` is split into, in a box. Refused for want of memory alone.
pub(crate) fn split_whole(alloc: Global, frag: Frag, bits: u8) -> Result<BoxedTree, Refusal>
    requires { CanSplit (root_fragment ∷ []) frag bits }
    ensures split { IfOk result (λ tree. IsSplit (root_fragment ∷ []) tree frag bits) }
    ensures whole { IfOk result (λ tree. IsTree tree) }
    ensures refused { IfErr result (λ reason. reason ≡ NoMemory) }
{
    let mut tree = BoxedTree::new(alloc, FragTree::whole(alloc))?;
    match tree.split(frag, bits) {
        Ok(()) => Ok(tree),
        Err(refusal) => {
            drop(tree);
            Err(refusal)
        }
    }
}
