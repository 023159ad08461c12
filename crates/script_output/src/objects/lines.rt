//! The line of an object, and that of the names of all objects.
ghost use Rattle.std.specs.Prelude.{◌≡◌, IfErr, IfOk, OnErr, Some, option_copied};
ghost use Rattle.std.specs.FinMap as map;
ghost use Rattle.mds_types.specs.declared.refusals.Refusal.TheVariants.{NoMemory};
ghost use Rattle.script_output.specs.declared.lines.OutputLine.TheVariants.{Objects};
ghost use Rattle.script_output.specs.ShownObjects.{IsLineOf, MayTakeMemory};

use crate::lines::OutputLine;
use crate::object_lines::ObjectLine;
use crate::objects::fragments::frag_line;
use crate::objects::trees::tree_leaves;
use crate::word_lists::WordList;
use mds_types::Refusal;
use objstore::{MemStore, Object};
use std::alloc::{AllocError, Global};

/// The line of an object of the store; `absent`, where there is none. What it is depends on its bytes alone: its name
/// plays no part. Takes memory for its pairs or leaves; the only refusal is `Refusal::NoMemory`, and it comes only of
/// an object that begins as a fragment's or as a fragment tree's.
pub fn object_line(alloc: Global, object: Option<&Object>) -> Result<ObjectLine, Refusal>
    ensures line { IfOk result (IsLineOf (option_copied object.entry)) }
    ensures refused { IfErr result (λ refusal. (refusal ≡ NoMemory) × MayTakeMemory (option_copied object.entry)) }
{
    match object {
        Some(object) => Ok(stored_line(alloc, object)?),
        None => Ok(ObjectLine::Absent),
    }
}

/// The line of the names of all objects, in the order of their bytes. Takes memory for copies of them; the only refusal
/// is `Refusal::NoMemory`.
pub fn objects_line(alloc: Global, store: &MemStore) -> Result<OutputLine, Refusal>
    ensures line { IfOk result (λ line. line ≡ Objects (map.keys store.now)) }
    ensures refused { IfErr result (λ refusal. refusal ≡ NoMemory) }
{
    let names = store.names(alloc)?;
    Ok(OutputLine::Objects(WordList::from_texts(alloc, names)?))
}

// The line of an object that is there.
fn stored_line(alloc: Global, object: &Object) -> Result<ObjectLine, AllocError>
    ensures line { IfOk result (IsLineOf (Some object.now)) }
    ensures memory { OnErr result (MayTakeMemory (Some object.now)) }
{
    if let Some(line) = frag_line(alloc, object)? {
        return Ok(line);
    }
    if let Some(leaves) = tree_leaves(alloc, object)? {
        return Ok(ObjectLine::Tree(leaves));
    }
    Ok(ObjectLine::Damaged)
}
