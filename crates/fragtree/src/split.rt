//! How a leaf is split.
ghost use Rattle.std.specs.Prelude.{◌≡◌, ◌≢◌, ◌↔◌, ◌+◌, ◌-◌, ◌^◌, ◌<◌, ◌≤◌, ◌++◌, IsTrue, IfErr, OnErr, OnOk, take, drop, suc, vec_len, vec_capacity};
ghost use Rattle.fragtree.specs.FragTree.{CanSplit, FitsSplit, IsSplit, IsTree, RefusesSplit};
ghost use Rattle.mds_types.specs.declared.refusals.Refusal.TheVariants.{NoMemory};

use crate::tree::FragTree;
use mds_types::{Frag, Refusal};

impl FragTree {
    /// Whether the leaf can be split by so many bits, but for want of memory: `NoSuchFrag` where it is no leaf, else
    /// `BadSplit` where the bits don't fit, else `TooManyFrags` where there would be more than 4096 leaves. Takes no
    /// memory.
    pub fn check_split(&self, f: Frag, nb: u8) -> Result<(), Refusal>
        ensures can { OnOk result (CanSplit self.now f nb) }
        ensures refused { IfErr result (RefusesSplit self.now f nb) }
        ensures memory { IfErr result (λ reason. reason ≢ NoMemory) }
    {
        if !self.has_leaf(f) {
            return Err(Refusal::NoSuchFrag);
        }
        if !fits_split(f, nb) {
            return Err(Refusal::BadSplit);
        }
        if self.len() - 1 + child_count(nb) > FragTree::MAX_LEAVES {
            return Err(Refusal::TooManyFrags);
        }
        Ok(())
    }

    /// Replaces the leaf by its children of so many more bits, 1 to 8, and to at most 24. The room is taken first, so a
    /// refused split leaves all as it was.
    pub fn split(&mut self, f: Frag, nb: u8) -> Result<(), Refusal>
        ensures can { OnOk result (CanSplit self.old f nb) }
        ensures split { OnOk result (IsSplit self.old self.new f nb) }
        ensures refused { IfErr result (RefusesSplit self.old f nb) }
        ensures err { OnErr result (self.new ≡ self.old) }
        ensures valid { IsTree self.new }
    {
        if let Err(refusal) = self.check_split(f, nb) {
            return Err(refusal);
        }
        self.splits.reserve(1)?;
        let _ = self.splits.insert(f, nb);
        self.count = self.count - 1 + child_count(nb);
        Ok(())
    }
}

// Whether a fragment can be split by so many bits.
fn fits_split(f: Frag, nb: u8) -> bool
    ensures { IsTrue result ↔ FitsSplit f nb }
{
    1 <= nb && nb <= FragTree::MAX_SPLIT_BITS && nb <= Frag::MAX_BITS - f.bits()
}

// How many children of so many more bits a fragment has.
fn child_count(nb: u8) -> usize
    requires { nb ≤ 8 }
    ensures count { result ≡ 2 ^ nb }
    ensures few { result ≤ 256 }
    ensures some { 1 ≤ result }
{
    1 << nb
}
