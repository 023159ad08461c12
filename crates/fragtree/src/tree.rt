//! `FragTree`, what a contract sees of it, and the calls that read it.
ghost use Rattle.std.specs.Prelude.{◌≡◌, ◌↔◌, ◌∷◌, [], IfOk, IsTrue, length};
ghost use Rattle.mds_types.specs.Frag.{IsCover, root_fragment};
ghost use Rattle.fragtree.specs.FragTree.{HasLeaf, IsPick, IsTree};

use crate::descents::leaf_of;
use mds_types::Frag;
use sorted_map::SortedMap;
use std::alloc::{AllocError, Global};
use std::marker::Model;

/// The leaves of one directory, kept as CephFS keeps them: by how many bits fragments are split, from `*` on. Contracts
/// see the list of the leaves by ascending value: fragments that cover every 24-bit hash exactly once, at most 4096.
#[derive(Debug, Drop)]
pub struct FragTree {
    pub(crate) splits: SortedMap<Frag, u8>,
    pub(crate) count: usize,
}

impl Model for FragTree {
    ghost use Rattle.std.specs.Prelude.{List};
    ghost use Rattle.mds_types.specs.Frag.{Fragment, frag_cmp};
    ghost use Rattle.sorted_map.specs.SortedMap.{contents};
    ghost use Rattle.fragtree.specs.Descents.{SpellsLeaves, spelled_leaves};

    ghost Value = { List Fragment };

    ghost view = { λ t. spelled_leaves (contents frag_cmp t.splits) t.count };

    ghost invariant = { λ t. SpellsLeaves (contents frag_cmp t.splits) t.count };
}

impl FragTree {
    /// The most leaves that a directory has.
    pub const MAX_LEAVES: usize = 4096;

    /// The most leaves that are merged at once.
    pub const MAX_MERGED: usize = 256;

    /// The most bits by which a leaf is split at once.
    pub const MAX_SPLIT_BITS: u8 = 8;

    /// The leaves of a new directory: `*` alone. Takes no memory.
    pub fn whole(alloc: Global) -> FragTree
        ensures { result ≡ root_fragment ∷ [] }
    {
        FragTree {
            splits: SortedMap::new(alloc),
            count: 1,
        }
    }

    /// How many leaves there are. A directory always has one.
    pub fn len(&self) -> usize
        ensures len { result ≡ length self.now }
        ensures valid { IsTree self.now }
        ensures cover { IsCover self.now }
    {
        self.count
    }

    /// The leaves by ascending value.
    pub fn leaves(&self, alloc: Global) -> Result<Vec<Frag>, AllocError>
        ensures { IfOk result (λ leaves. leaves.items ≡ self.now) }
    {
        let mut leaves = Vec::with_capacity(alloc, self.len())?;
        for leaf in self {
            leaves.push(leaf)?;
        }
        Ok(leaves)
    }

    /// A copy. Takes memory for the splits.
    pub fn try_clone(&self) -> Result<FragTree, AllocError>
        ensures { IfOk result (λ copy. copy ≡ self.now) }
    {
        Ok(FragTree {
            splits: self.splits.clone()?,
            count: self.count,
        })
    }

    /// The leaf that a hash picks: the one that contains it. The top 8 bits of the hash play no part. Takes no memory,
    /// and logarithmic time for the leaf and for each split that the descent passes, 24 at most.
    pub fn pick(&self, hash: u32) -> Frag
        ensures { IsPick self.now hash result }
    {
        leaf_of(&self.splits, hash % (1 << 24))
    }

    /// Whether the fragment is a leaf. Takes the time of a pick.
    pub fn has_leaf(&self, f: Frag) -> bool
        ensures { IsTrue result ↔ HasLeaf self.now f }
    {
        self.pick(f.value()) == f
    }
}

impl Clone for FragTree {
    ghost is_clone = { λ old new. new ≡ old };

    fn clone(&self) -> Result<FragTree, AllocError> {
        self.try_clone()
    }
}
