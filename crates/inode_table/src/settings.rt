//! What a directory was given: leaves, and a pin.
ghost use Rattle.std.specs.Prelude.{◌≡◌, IfErr, None, OnErr, OnOk, Some};
ghost use Rattle.std.specs.Option.{option_copied};
ghost use Rattle.mds_types.specs.declared.refusals.Refusal.TheVariants.{NoMemory};
ghost use Rattle.fragtree.specs.FragTree.{CanSplit, IsSplit, IsTree};
ghost use Rattle.inode_table.specs.Dirs.{or_whole};

use crate::boxed_tree::BoxedTree;
use crate::set_leaves::split_whole;
use fragtree::FragTree;
use mds_types::{Frag, Rank, Refusal};
use std::alloc::Global;
use std::marker::Model;

/// What a directory was given: its leaves, if they were ever set, and its pin, if it has one. Both together take two
/// words of the machine.
#[derive(Debug, Drop)]
pub(crate) struct Settings {
    packed: Packed,
}

// the pin stands first, as there is room behind the tag
#[derive(Debug, Drop)]
enum Packed {
    Whole {
        pin: Option<Rank>,
    },
    Set {
        pin: Option<Rank>,
        leaves: BoxedTree,
    },
}

impl Model for Settings {
    ghost use Rattle.inode_table.specs.Settings.{LeavesAndPin, given_by};

    ghost Value = { LeavesAndPin };

    ghost view = { λ s. given_by s.packed };
}

impl Settings {
    /// Neither leaves nor a pin.
    pub(crate) fn none() -> Settings
        ensures { result ≡ record { leaves = None; pin = None } }
    {
        Settings {
            packed: Packed::Whole { pin: None },
        }
    }

    /// The leaves, lent, if they were ever set.
    pub(crate) fn leaves(&self) -> Option<&FragTree>
        ensures { option_copied result ≡ self.now.leaves }
    {
        match &self.packed {
            Packed::Whole { .. } => None,
            Packed::Set { leaves, .. } => Some(leaves.as_tree()),
        }
    }

    /// The pin, if there is one.
    pub(crate) fn pin(&self) -> Option<Rank>
        ensures { result ≡ self.now.pin }
    {
        match &self.packed {
            Packed::Whole { pin } => *pin,
            Packed::Set { pin, .. } => *pin,
        }
    }

    /// Another pin, or none.
    pub(crate) fn set_pin(&mut self, pin: Option<Rank>)
        ensures { self.new ≡ record self.old { pin = pin } }
    {
        match &mut self.packed {
            Packed::Whole { pin: kept } => *kept = pin,
            Packed::Set { pin: kept, .. } => *kept = pin,
        }
    }

    /// These leaves, in place of others or of none.
    pub(crate) fn set_leaves(&mut self, leaves: BoxedTree)
        ensures { self.new ≡ record self.old { leaves = Some leaves } }
    {
        let pin = self.pin();
        self.packed = Packed::Set { pin, leaves };
    }

    /// Splits one of the leaves, or the one leaf `*` where none were set. Refused for want of memory alone, and then
    /// all is left as it was.
    pub(crate) fn split(&mut self, alloc: Global, frag: Frag, bits: u8) -> Result<(), Refusal>
        requires { CanSplit (or_whole self.old.leaves) frag bits }
        ensures split { OnOk result (IsSplit (or_whole self.old.leaves) (or_whole self.new.leaves) frag bits) }
        ensures set { OnOk result (self.new ≡ record self.old { leaves = Some (or_whole self.new.leaves) }) }
        ensures whole { OnOk result (IsTree (or_whole self.new.leaves)) }
        ensures left { OnErr result (self.new ≡ self.old) }
        ensures refused { IfErr result (λ reason. reason ≡ NoMemory) }
    {
        match &mut self.packed {
            Packed::Whole { .. } => {
                self.set_leaves(split_whole(alloc, frag, bits)?);
                Ok(())
            }
            Packed::Set { leaves, .. } => leaves.split(frag, bits),
        }
    }

    /// The leaves, given away, if they were ever set.
    pub(crate) fn into_leaves(self) -> Option<BoxedTree>
        ensures { result ≡ self.leaves }
    {
        match self.packed {
            Packed::Whole { .. } => None,
            Packed::Set { leaves, .. } => Some(leaves),
        }
    }
}
