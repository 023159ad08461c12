//! How a tree is made of its leaves.
ghost use Rattle.std.specs.Prelude.{◌≡◌, ◌↔◌, ◌^◌, ◌<◌, ◌≤◌, IfOk, IsTrue, OnErr, OnOk, SomeIff, length};
ghost use Rattle.mds_types.specs.Frag.{frag_cmp};
ghost use Rattle.sorted_map.specs.SortedMap.{contents};
ghost use Rattle.fragtree.specs.FragTree.{IsTree, Tiles};
ghost use Rattle.fragtree.specs.Descents.{IsSplitRound, Spells};

use crate::descents::{frag_at, last_hash};
use crate::tree::FragTree;
use mds_types::Frag;
use sorted_map::SortedMap;
use std::alloc::{AllocError, Global};

impl FragTree {
    /// The tree of these leaves, if they are those of a tree: by strictly ascending value, with every 24-bit hash in
    /// exactly one, and at most 4096. Each fragment round a leaf is split by 1 bit. Takes memory for the splits, so
    /// there is an error only where the leaves are a tree's, and two at least.
    pub fn from_leaves(alloc: Global, leaves: &[Frag]) -> Result<Option<FragTree>, AllocError>
        ensures made { IfOk result (λ made. SomeIff made (IsTree leaves.now) leaves.now) }
        ensures memory { OnErr result (IsTree leaves.now) }
        ensures several { OnErr result (2 ≤ length leaves.now) }
    {
        if leaves.len() > FragTree::MAX_LEAVES || !do_tile(leaves) {
            return Ok(None);
        }
        let splits = splits_of(alloc, leaves)?;
        Ok(Some(FragTree {
            splits,
            count: leaves.len(),
        }))
    }
}

// Whether fragments tile the hashes: each begins where the one before it ends. Takes linear time.
fn do_tile(leaves: &[Frag]) -> bool
    ensures { IsTrue result ↔ Tiles 0 (2 ^ 24) leaves.now }
{
    let mut next = 0;
    for leaf in leaves {
        if leaf.value() != next {
            return false;
        }
        next = last_hash(*leaf) + 1;
    }
    next == 1 << 24
}

// Splits by 1 bit each that spell the leaves.
fn splits_of(alloc: Global, leaves: &[Frag]) -> Result<SortedMap<Frag, u8>, AllocError>
    requires { IsTree leaves.now }
    ensures spelled { IfOk result (λ splits. Spells (contents frag_cmp splits) leaves.now) }
    ensures several { OnErr result (2 ≤ length leaves.now) }
{
    let mut splits = SortedMap::new(alloc);
    for leaf in leaves {
        split_round(&mut splits, *leaf)?;
    }
    Ok(splits)
}

// Splits each fragment round a leaf by 1 bit.
fn split_round(splits: &mut SortedMap<Frag, u8>, leaf: Frag) -> Result<(), AllocError>
    ensures split { OnOk result
        (IsSplitRound (contents frag_cmp splits.old) (contents frag_cmp splits.new) leaf leaf.bits) }
    ensures some { OnErr result (0 < leaf.bits) }
{
    for bits in 0..leaf.bits() {
        splits.reserve(1)?;
        let _ = splits.insert(frag_at(bits, leaf.value()), 1);
    }
    Ok(())
}
