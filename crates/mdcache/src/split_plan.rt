//! What a split needs beside the caches: the names of objects.
ghost use Rattle.std.specs.Prelude.{◌≡◌, ◌+◌, ◌≤◌, ◌<◌, ◌^◌, map as each, OnOk, IfOk, IfErr};
ghost use Rattle.mds_types.specs.declared.refusals.Refusal.TheVariants.{NoMemory};
ghost use Rattle.mds_types.specs.Frag.{child_of};
ghost use Rattle.fragtree.specs.FragTree.{CanSplit};
ghost use Rattle.inode_table.specs.Dirs.{leaves_of};
ghost use Rattle.mdcache.specs.Core.{IsNoLess};
ghost use Rattle.mdcache.specs.Regrouping.{IsSplitPlanned};
ghost use Rattle.mdcache.specs.Splits.{NameChildren};

use crate::mdcache::MdCache;
use crate::regrouping::{child_count, object_name};
use mds_types::{Dirfrag, Frag, Ino, ObjText, Refusal};
use objstore::Store;
use std::alloc::{AllocError, Global};

/// The names of the objects of a leaf that splits, and of its children.
#[derive(Drop)]
pub struct SplitPlan {
    pub object: ObjText,
    pub children: Vec<ObjText>,
}

impl<S: Store + Drop> MdCache<S> {
    /// Plans a split of a leaf that can be split, and makes room for it on the purge list. Refused for want of
    /// memory alone.
    pub(crate) fn plan_split(
        &mut self,
        alloc: Global,
        at: &Dirfrag,
        nb: u8,
    ) -> Result<SplitPlan, Refusal>
        requires { CanSplit (leaves_of self.old.covers at.now.dir.0) at.now.frag nb }
        ensures planned { IfOk result (IsSplitPlanned self.new at.now nb) }
        ensures left { self.new ≡ record self.old { room = self.new.room } }
        ensures room { IsNoLess self.old.room self.new.room }
        ensures refused { IfErr result (λ reason. reason ≡ NoMemory) }
    {
        self.purge.reserve(1)?;
        let object = object_name(at.dir, at.frag);
        let children = child_names(alloc, at.dir, at.frag, nb)?;
        Ok(SplitPlan { object, children })
    }
}

// The names of the objects of the children of a fragment.
fn child_names(alloc: Global, dir: Ino, frag: Frag, nb: u8) -> Result<Vec<ObjText>, AllocError>
    requires few { nb ≤ 8 }
    requires bits { frag.bits + nb ≤ 24 }
    ensures { IfOk result (λ names. NameChildren dir frag nb names.items) }
{
    let mut names = Vec::new(alloc);
    for i in 0..child_count(nb) {
        names.push(object_name(dir, child(frag, i, nb)))?;
    }
    Ok(names)
}

// The child `i` of a fragment by so many bits.
fn child(frag: Frag, i: u32, nb: u8) -> Frag
    requires bits { frag.bits + nb ≤ 24 }
    requires below { i < 2 ^ nb }
    ensures { result ≡ child_of frag i nb }
{
    frag.child(i, nb).unwrap()
}
