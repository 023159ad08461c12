//! Leaves that are kept in a box.
ghost use Rattle.std.specs.Prelude.{◌≡◌, IfErr, IfOk, OnErr, OnOk};
ghost use Rattle.fragtree.specs.FragTree.{CanSplit, IsSplit, IsTree};
ghost use Rattle.mds_types.specs.declared.refusals.Refusal.TheVariants.{NoMemory};

use fragtree::FragTree;
use mds_types::{Frag, Refusal};
use std::alloc::{AllocError, Global};
use std::marker::Model;

/// The leaves of a directory in a box, as the directory table keeps those that were ever set: made ready before, so that
/// the table takes no memory for them. Contracts see the leaves alone.
#[derive(Debug, Drop)]
pub struct BoxedTree {
    // few directories have leaves of their own, so they take little room in a row
    tree: Box<FragTree>,
}

impl Model for BoxedTree {
    ghost use Rattle.std.specs.Prelude.{List, box_value};
    ghost use Rattle.mds_types.specs.Frag.{Fragment};
    ghost use Rattle.fragtree.specs.FragTree.{IsTree};

    ghost Value = { List Fragment };

    ghost view = { λ t. box_value t.tree };

    ghost invariant = { λ t. IsTree (box_value t.tree) };
}

impl BoxedTree {
    /// These leaves. Takes memory for the box alone.
    pub fn new(alloc: Global, tree: FragTree) -> Result<BoxedTree, AllocError>
        ensures { IfOk result (λ boxed. boxed ≡ tree) }
    {
        // of a tree that is asked for its length its leaves are known to cover every hash
        let _ = tree.len();
        Ok(BoxedTree {
            tree: Box::new(alloc, tree)?,
        })
    }

    /// The leaves, lent.
    pub fn as_tree(&self) -> &FragTree
        ensures tree { result.now ≡ self.now }
        ensures valid { IsTree self.now }
    {
        &self.tree
    }

    // Splits a leaf that can be split by so many bits. Refused for want of memory alone, and then all is left as it was.
    pub(crate) fn split(&mut self, frag: Frag, bits: u8) -> Result<(), Refusal>
        requires { CanSplit self.old frag bits }
        ensures split { OnOk result (IsSplit self.old self.new frag bits) }
        ensures left { OnErr result (self.new ≡ self.old) }
        ensures refused { IfErr result (λ reason. reason ≡ NoMemory) }
        ensures valid { IsTree self.new }
    {
        self.tree.split(frag, bits)
    }
}
