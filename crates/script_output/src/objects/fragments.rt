//! The object of a fragment.
ghost use Rattle.std.specs.Prelude.{◌≡◌, ◌↔◌, IfOk, IsTrue, List, OnErr, Some, map, ℕ};
ghost use Rattle.std.specs.FinMap as finmap;
ghost use Rattle.script_output.specs.ShownObjects.{MayTakeMemory};
ghost use Rattle.script_output.specs.ObjectParts.{IsFragOf};

use crate::object_lines::ObjectLine;
use crate::objects::entries::counted;
use crate::word_lists::WordList;
use dirfrag_codec::{FragHeader, decode_header};
use mds_types::Bytes;
use objstore::Object;
use std::alloc::{AllocError, Global};

/// The line of the fragment that the object is; none, where it is no fragment's. Takes memory for its pairs.
pub(crate) fn frag_line(alloc: Global, object: &Object) -> Result<Option<ObjectLine>, AllocError>
    ensures line { IfOk result (IsFragOf object.now) }
    ensures memory { OnErr result (MayTakeMemory (Some object.now)) }
{
    let Some(header) = decode_header(object.header().as_slice()) else {
        return Ok(None);
    };
    let pairs = all_pairs(alloc, object)?;
    let counted = counted(alloc, header.version, &pairs)?;
    if !has_counts(counted, header) {
        return Ok(None);
    }
    Ok(Some(ObjectLine::Frag {
        version: header.version,
        files: header.files,
        dirs: header.dirs,
        keys: keys_of(alloc, pairs)?,
    }))
}

// Whether the header that was counted is this one.
fn has_counts(counted: Option<FragHeader>, header: FragHeader) -> bool
    ensures { IsTrue result ↔ (counted ≡ Some header) }
{
    counted == Some(header)
}

// Copies of all pairs of the object, in order.
fn all_pairs(alloc: Global, object: &Object) -> Result<Vec<(Bytes, Bytes)>, AllocError>
    ensures { IfOk result (λ pairs. pairs.items ≡ finmap.entries object.now.pairs) }
{
    let count = object.pairs().len();
    let page = object.page(alloc, None, count.max(1))?;
    Ok(page.into_pairs())
}

// The keys of pairs.
fn keys_of(alloc: Global, pairs: Vec<(Bytes, Bytes)>) -> Result<WordList, AllocError>
    ensures { IfOk result (λ keys. keys ≡ map (λ (pair : List ℕ × List ℕ). pair.0) pairs.items) }
{
    let mut keys = Vec::with_capacity(alloc, pairs.len())?;
    for (key, _) in pairs {
        keys.push(key)?;
    }
    Ok(WordList::from_vec(keys))
}
