//! The plain tree as a value.
ghost use Rattle.std.specs.Prelude.{◌≡◌, ◌↔◌, IfOk, IsTrue};
ghost use Rattle.std.specs.Cmp.{on_per, on_equiv, partial_equiv_from_equiv, decided};
ghost use Rattle.std.specs.Cmp.Lexicographic.{pointwise, lists_equiv};
ghost use Rattle.std.specs.FinMap as map;
ghost use Rattle.std.proofs.Common.{rules};
ghost use Rattle.sorted_map.proofs.Decided.{pair_decides};
ghost use Rattle.mds_types.specs.declared.dentries.Dentry as DentryValue;
ghost use Rattle.mds_types.specs.InodeLaws.{inode_decides};
ghost use Rattle.sorted_map.specs.SortedMap.{contents, pairs_eq};
ghost use Rattle.mds_types.specs.Tree.{dentry_cmp};

use mds_types::{Dentry, Inode};
use sorted_map::SortedMap;
use std::alloc::{AllocError, Global};
use std::marker::Model;

/// A plain tree: a finite map from dentries to inodes.
#[derive(Debug, Drop)]
pub struct PlainTree {
    entries: SortedMap<Dentry, Inode>,
}

impl Model for PlainTree {
    ghost use Rattle.std.specs.Coded.{codes};
    ghost use Rattle.std.specs.FinMap as map;
    ghost use Rattle.mds_types.specs.Tree.{Tree, dentry_cmp};
    ghost use Rattle.sorted_map.specs.SortedMap.{contents};

    ghost Value = { Tree };

    ghost coded = { Prim.hlevel (codes, map.code) };

    ghost view = { λ t. contents dentry_cmp t.entries };
}

impl PlainTree {
    /// The empty tree.
    pub fn new(alloc: Global) -> PlainTree
        ensures { result ≡ map.empty }
    {
        PlainTree {
            entries: SortedMap::new(alloc),
        }
    }

    /// The tree that has these entries. Takes no memory.
    pub fn of(entries: SortedMap<Dentry, Inode>) -> PlainTree
        ensures { result ≡ contents dentry_cmp entries }
    {
        PlainTree { entries }
    }

    /// A copy. Takes memory for the entries.
    pub fn try_clone(&self) -> Result<PlainTree, AllocError>
        ensures { IfOk result (λ copy. copy ≡ self.now) }
    {
        Ok(PlainTree {
            entries: self.entries.clone()?,
        })
    }
}

impl PartialEq for PlainTree {
    ghost eq = { λ a b. pointwise (pairs_eq ⟦<Dentry as PartialEq>⟧.eq ⟦<Inode as PartialEq>⟧.eq) (map.entries a)
        (map.entries b) };

    ghost laws = { on_per (λ t. map.entries t)
        (partial_equiv_from_equiv (lists_equiv (decided (pairs_eq ⟦<Dentry as PartialEq>⟧.eq ⟦<Inode as PartialEq>⟧.eq)
        (pair_decides ⟦<Dentry as PartialEq>⟧.eq ⟦<Inode as PartialEq>⟧.eq
        (λ (a b : DentryValue.Dentry). Prim.search rules) inode_decides)))) };

    /// Whether both trees are the same.
    fn eq(&self, other: &PlainTree) -> bool
        ensures value { result ≡ pointwise (pairs_eq ⟦<Dentry as PartialEq>⟧.eq ⟦<Inode as PartialEq>⟧.eq)
            (map.entries self.now) (map.entries other.now) }
        ensures same { IsTrue result ↔ (self.now ≡ other.now) }
    {
        // The contract of `len` tells here that the keys of a map are in order.
        let _ = self.entries.len();
        let _ = other.entries.len();
        self.entries == other.entries
    }
}

impl Eq for PlainTree {
    ghost laws = { on_equiv (λ t. map.entries t)
        (lists_equiv (decided (pairs_eq ⟦<Dentry as PartialEq>⟧.eq ⟦<Inode as PartialEq>⟧.eq)
        (pair_decides ⟦<Dentry as PartialEq>⟧.eq ⟦<Inode as PartialEq>⟧.eq
        (λ (a b : DentryValue.Dentry). Prim.search rules) inode_decides))) };
}
