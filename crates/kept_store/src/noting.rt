//! Noting what a write may change.
ghost use Rattle.std.specs.Prelude.{◌≡◌, true, ℕ, List, is_some, OnOk};
ghost use Rattle.std.specs.FinMap as map;
ghost use Rattle.objstore.specs.Objects.{written};
ghost use Rattle.object_tables.specs.Noted.{has_key, has_name};
ghost use Rattle.object_tables.specs.Spelled.{value_at};
ghost use Rattle.kept_store.specs.Noting.{AgreeBut, IsMore};

use object_tables::Changes;
use objstore::{KeySet, MemStore, Pairs, WriteOp};
use std::alloc::{AllocError, Global};

/// Notes all that an operation may change in the object of this name: its name, the keys that it sets and those that it
/// removes, and all keys if it clears the object.
pub fn note_write(
    changes: &mut Changes,
    alloc: Global,
    objects: &MemStore,
    name: &str,
    op: &WriteOp,
) -> Result<(), AllocError>
    ensures more { IsMore changes.old changes.new }
    ensures noted { OnOk result (AgreeBut objects.now (written objects.now name.now op.now) changes.new) }
{
    changes.note_name(alloc, name)?;
    note_pairs(changes, alloc, name, &op.set)?;
    if op.clear {
        return note_all(changes, alloc, objects, name);
    }
    note_keys(changes, alloc, name, &op.remove)
}

/// Notes the object of this name, with all its keys.
pub fn note_object(
    changes: &mut Changes,
    alloc: Global,
    objects: &MemStore,
    name: &str,
) -> Result<(), AllocError>
    ensures more { IsMore changes.old changes.new }
    ensures noted { OnOk result (AgreeBut objects.now (map.remove objects.now name.now) changes.new) }
{
    changes.note_name(alloc, name)?;
    note_all(changes, alloc, objects, name)
}

// Notes all keys of the object of this name.
fn note_all(
    changes: &mut Changes,
    alloc: Global,
    objects: &MemStore,
    name: &str,
) -> Result<(), AllocError>
    ensures more { IsMore changes.old changes.new }
    ensures keys { OnOk result ((key : List ℕ) → is_some (value_at objects.now name.now key) ≡ true
        → has_key changes.new name.now key ≡ true) }
{
    match objects.get(name) {
        Some(object) => note_pairs(changes, alloc, name, object.pairs()),
        None => Ok(()),
    }
}

// Notes the keys of pairs in the object of this name.
fn note_pairs(
    changes: &mut Changes,
    alloc: Global,
    name: &str,
    pairs: &Pairs,
) -> Result<(), AllocError>
    ensures more { IsMore changes.old changes.new }
    ensures names { changes.new.names ≡ changes.old.names }
    ensures keys { OnOk result ((key : List ℕ) → is_some (map.get pairs.now key) ≡ true
        → has_key changes.new name.now key ≡ true) }
{
    let mut left = pairs.iter();
    while let Some((key, _)) = left.next() {
        changes.note_key(alloc, name, key)?;
    }
    Ok(())
}

// Notes these keys in the object of this name.
fn note_keys(
    changes: &mut Changes,
    alloc: Global,
    name: &str,
    keys: &KeySet,
) -> Result<(), AllocError>
    ensures more { IsMore changes.old changes.new }
    ensures keys { OnOk result ((key : List ℕ) → map.contains_key keys.now key ≡ true
        → has_key changes.new name.now key ≡ true) }
{
    let mut left = keys.iter();
    while let Some((gone, _)) = left.next() {
        changes.note_key(alloc, name, gone)?;
    }
    Ok(())
}
