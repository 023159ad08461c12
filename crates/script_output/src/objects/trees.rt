//! The object of a fragment tree.
ghost use Rattle.std.specs.Prelude.{◌≡◌, IfOk, OnErr, Some, nat_lt};
ghost use Rattle.std.specs.FinMap as map;
ghost use Rattle.script_output.specs.ShownObjects.{MayTakeMemory};
ghost use Rattle.script_output.specs.ObjectParts.{IsTreeOf};

use crate::frag_lists::FragList;
use dirfrag_codec::decode_tree;
use objstore::Object;
use std::alloc::{AllocError, Global};

/// The leaves of the fragment tree that the object is; none, where it is no fragment tree's. Takes memory for them.
pub(crate) fn tree_leaves(alloc: Global, object: &Object) -> Result<Option<FragList>, AllocError>
    ensures leaves { IfOk result (IsTreeOf object.now) }
    ensures memory { OnErr result (MayTakeMemory (Some object.now)) }
{
    if has_pairs(object) {
        return Ok(None);
    }
    match decode_tree(alloc, object.header().as_slice())? {
        Some(tree) => Ok(Some(FragList::from_vec(tree.leaves(alloc)?))),
        None => Ok(None),
    }
}

// Whether the object has pairs.
fn has_pairs(object: &Object) -> bool
    ensures { result ≡ nat_lt 0 (map.len object.now.pairs) }
{
    object.pairs().len() > 0
}
