//! Pairs that are read object by object, and set in the objects many at once.
ghost use Rattle.std.specs.Prelude.{◌≡◌, ℕ, List, IsTrue, None, Some, IfOk, OnOk};
ghost use Rattle.std.specs.FinMap as map;
ghost use Rattle.objstore.specs.Objects.{written};
ghost use Rattle.objstore.specs.Writes.{nothing};
ghost use Rattle.object_tables.specs.Entries.{entry};
ghost use Rattle.object_tables.specs.Reading.{AddsPair, HasBatch, IsReadUpTo, Precedes, with_batch};
ghost use Rattle.object_tables.specs.Spelled.{pair_key};

use crate::reading::ReadFault;
use mds_types::{Bytes, Text};
use objstore::{MemStore, WriteOp};
use std::alloc::{AllocError, Global};
use std::mem;

// How many pairs are set at once.
const MOST: usize = 256;

/// Pairs that wait to be set in the object of this name, and the last key that was read of it, if one was.
#[derive(Drop)]
pub struct Batch {
    pub name: Text,
    pub last: Option<Bytes>,
    pub pairs: WriteOp,
}

impl Batch {
    /// No pairs.
    pub fn new(alloc: Global) -> Result<Batch, AllocError>
        ensures last { IfOk result (λ batch. batch.last ≡ None) }
        ensures pairs { IfOk result (λ batch. batch.pairs ≡ nothing) }
    {
        Ok(Batch {
            name: Text::copy_of(alloc, "")?,
            last: None,
            pairs: WriteOp::new(alloc),
        })
    }
}

/// Reads a pair of an object, whose pairs are read in the order of their keys.
pub fn add(
    alloc: Global,
    objects: &mut MemStore,
    batch: &mut Batch,
    name: &[u8],
    key: &[u8],
    value: &[u8],
) -> Result<(), ReadFault>
    requires { HasBatch objects.old batch.old }
    ensures batch { OnOk result (HasBatch objects.new batch.new) }
    ensures added { OnOk result (AddsPair (with_batch objects.old batch.old) (with_batch objects.new batch.new)
        (entry (pair_key name.now key.now) value.now)) }
{
    let key = Bytes::from_slice(alloc, key)?;
    make_ready(alloc, objects, batch, name, &key)?;
    let value = Bytes::from_slice(alloc, value)?;
    take(batch, key, value)?;
    Ok(())
}

// Goes on with the object of the last key, or turns to another one.
fn make_ready(
    alloc: Global,
    objects: &mut MemStore,
    batch: &mut Batch,
    name: &[u8],
    key: &Bytes,
) -> Result<(), ReadFault>
    requires { HasBatch objects.old batch.old }
    ensures ready { OnOk result (IsReadUpTo objects.new batch.new.name batch.new.pairs key.now
        (with_batch objects.old batch.old)) }
    ensures name { OnOk result (batch.new.name ≡ name.now) }
{
    if is_of(batch, name) {
        go_on(alloc, objects, batch, key)
    } else {
        turn_to(alloc, objects, batch, name)
    }
}

// Whether a key was read of the object of this name, and of no other since.
fn is_of(batch: &Batch, name: &[u8]) -> bool
    ensures { IsTrue result → batch.now.name ≡ name.now }
{
    batch.last.is_some() && batch.name.as_str().as_bytes() == name
}

// Goes on with an object, where the key comes after the last one. Many pairs are set.
fn go_on(
    alloc: Global,
    objects: &mut MemStore,
    batch: &mut Batch,
    key: &Bytes,
) -> Result<(), ReadFault>
    requires { HasBatch objects.old batch.old }
    ensures ready { OnOk result (IsReadUpTo objects.new batch.new.name batch.new.pairs key.now
        (with_batch objects.old batch.old)) }
    ensures name { batch.new.name ≡ batch.old.name }
{
    if !precedes(&batch.last, key) {
        return Err(ReadFault::Row);
    }
    if batch.pairs.set.len() < MOST {
        return Ok(());
    }
    set_pairs(alloc, objects, batch)
}

// Whether a key comes after the last one.
fn precedes(last: &Option<Bytes>, key: &Bytes) -> bool
    ensures { IsTrue result → Precedes last.now key.now }
{
    match last {
        Some(last) => last.cmp(key).is_lt(),
        None => false,
    }
}

// Turns to an object, which has no pairs yet: so no key is read of it twice.
fn turn_to(
    alloc: Global,
    objects: &mut MemStore,
    batch: &mut Batch,
    name: &[u8],
) -> Result<(), ReadFault>
    requires { HasBatch objects.old batch.old }
    ensures ready { OnOk result ((key : List ℕ) → IsReadUpTo objects.new batch.new.name batch.new.pairs key
        (with_batch objects.old batch.old)) }
    ensures name { OnOk result (batch.new.name ≡ name.now) }
{
    finish(alloc, objects, batch)?;
    let Ok(name) = str::from_utf8(name) else {
        return Err(ReadFault::Row);
    };
    let Some(object) = objects.get(name) else {
        return Err(ReadFault::Row);
    };
    if object.pairs().len() != 0 {
        return Err(ReadFault::Row);
    }
    batch.name = Text::copy_of(alloc, name)?;
    Ok(())
}

// Takes a pair.
fn take(batch: &mut Batch, key: Bytes, value: Bytes) -> Result<(), AllocError>
    ensures { OnOk result (batch.new ≡ record batch.old {
      last = Some key;
      pairs = record batch.old.pairs { set = map.insert batch.old.pairs.set key value };
    }) }
{
    batch.last = Some(key.try_clone()?);
    batch.pairs.set.put(key, value)
}

/// Sets the pairs that wait.
pub fn finish(alloc: Global, objects: &mut MemStore, batch: &mut Batch) -> Result<(), ReadFault>
    requires { HasBatch objects.old batch.old }
    ensures set { OnOk result (objects.new ≡ with_batch objects.old batch.old) }
    ensures none { OnOk result (batch.new.pairs ≡ nothing) }
{
    if batch.last.is_some() {
        return set_pairs(alloc, objects, batch);
    }
    Ok(())
}

// Sets the pairs in the object of their name.
fn set_pairs(alloc: Global, objects: &mut MemStore, batch: &mut Batch) -> Result<(), ReadFault>
    ensures set { OnOk result (objects.new ≡ written objects.old batch.old.name batch.old.pairs) }
    ensures none { batch.new ≡ record batch.old { pairs = nothing } }
{
    let pairs = mem::replace(&mut batch.pairs, WriteOp::new(alloc));
    match objects.apply_owned(batch.name.as_str(), pairs) {
        Ok(true) => Ok(()),
        Ok(false) => Err(ReadFault::Row),
        Err(refused) => Err(refused.into()),
    }
}
