//! Objects out of the tables.
ghost use Rattle.std.specs.Prelude.{◌≡◌, List, IfOk, OnOk};
ghost use Rattle.std.specs.FinMap as map;
ghost use Rattle.objstore.specs.Writes.{nothing};
ghost use Rattle.sqlite_value.specs.Order.{Row as Columns};
ghost use Rattle.sqlite_trees.specs.View.{IsClean, IsQuiet, KeepsSchema};
ghost use Rattle.object_tables.specs.Reading.{AddsObject, AddsPair, HasBatch, SpellHeaders, SpellPairs, with_batch};
ghost use Rattle.object_tables.specs.Spelled.{HasTables, SpellsObjects};

use crate::batches::{Batch, add, finish};
use crate::tables::{OBJECTS, PAIRS};
use mds_types::{Bytes, Refusal};
use objstore::{MemStore, Store as _, WriteOp};
use sqlite_trees::error::StoreError;
use sqlite_trees::store::{Direction, Shape, Store};
use sqlite_value::row::Row;
use sqlite_value::value::ValueRef;
use std::alloc::{AllocError, Global};
use std::fmt;

/// Why objects can't be read.
#[derive(Clone, Copy, Debug, PartialEq, Eq)]
pub enum ReadFault {
    /// The store of the tables refuses.
    Store(StoreError),
    /// A row is no object's, and no pair's of one.
    Row,
}

impl fmt::Display for ReadFault {
    fn fmt<W: fmt::Write>(&self, f: &mut fmt::Formatter<W>) -> fmt::Result {
        f.write_str(match self {
            ReadFault::Store(StoreError::OutOfMemory) => "out of memory",
            ReadFault::Store(_) => "disk fault",
            ReadFault::Row => "has a row that is no object's",
        })
    }
}

impl From<StoreError> for ReadFault {
    fn from(error: StoreError) -> ReadFault {
        ReadFault::Store(error)
    }
}

impl From<AllocError> for ReadFault {
    fn from(_: AllocError) -> ReadFault {
        ReadFault::Store(StoreError::OutOfMemory)
    }
}

/// All objects that the tables have, exactly.
pub fn read_objects<T: Store>(trees: &mut T, alloc: Global) -> Result<MemStore, ReadFault>
    requires { IsClean (T.Store.view trees.old) → HasTables (T.Store.view trees.old) }
    ensures ok { IfOk result (λ objects. IsClean (T.Store.view trees.new) → SpellsObjects (T.Store.view trees.old).trees objects) }
    ensures same { OnOk result (IsClean (T.Store.view trees.new)
        → T.Store.view trees.new ≡ record (T.Store.view trees.old) { cursors = (T.Store.view trees.new).cursors }) }
    ensures schema { KeepsSchema (T.Store.view trees.old) (T.Store.view trees.new) }
    ensures quiet { IsQuiet T.Store.view T.Store.faults T.Store.recovers T.Store.is_shielded trees.old trees.new }
{
    let mut objects = MemStore::new(alloc);
    let mut row = Row::new(alloc);
    read_headers(trees, alloc, &mut objects, &mut row)?;
    read_pairs(trees, alloc, &mut objects, &mut row)?;
    Ok(objects)
}

// Each object with its header.
fn read_headers<T: Store>(
    trees: &mut T,
    alloc: Global,
    objects: &mut MemStore,
    row: &mut Row,
) -> Result<(), ReadFault>
    requires shaped { IsClean (T.Store.view trees.old) → HasTables (T.Store.view trees.old) }
    requires none { objects.old ≡ map.empty }
    ensures ok { OnOk result (IsClean (T.Store.view trees.new) → SpellHeaders ((T.Store.view trees.old).trees 0) objects.new) }
    ensures same { OnOk result (IsClean (T.Store.view trees.new)
        → T.Store.view trees.new ≡ record (T.Store.view trees.old) { cursors = (T.Store.view trees.new).cursors }) }
    ensures schema { KeepsSchema (T.Store.view trees.old) (T.Store.view trees.new) }
    ensures quiet { IsQuiet T.Store.view T.Store.faults T.Store.recovers T.Store.is_shielded trees.old trees.new }
{
    let first = Row::new(alloc);
    trees.seek(0, OBJECTS, &first, Direction::Forward)?;
    'rows: for _ in 0..u64::MAX {
        if !trees.next(0, row)? {
            return Ok(());
        }
        add_object(alloc, objects, row)?;
    }
    Err(ReadFault::Row)
}

// Each pair of the objects.
fn read_pairs<T: Store>(
    trees: &mut T,
    alloc: Global,
    objects: &mut MemStore,
    row: &mut Row,
) -> Result<(), ReadFault>
    requires shaped { IsClean (T.Store.view trees.old) → HasTables (T.Store.view trees.old) }
    ensures ok { OnOk result (IsClean (T.Store.view trees.new) → (heads : List Columns) → SpellHeaders heads objects.old
        → SpellPairs heads ((T.Store.view trees.old).trees 1) objects.new) }
    ensures same { OnOk result (IsClean (T.Store.view trees.new)
        → T.Store.view trees.new ≡ record (T.Store.view trees.old) { cursors = (T.Store.view trees.new).cursors }) }
    ensures schema { KeepsSchema (T.Store.view trees.old) (T.Store.view trees.new) }
    ensures quiet { IsQuiet T.Store.view T.Store.faults T.Store.recovers T.Store.is_shielded trees.old trees.new }
{
    let first = Row::new(alloc);
    let mut batch = Batch::new(alloc)?;
    trees.seek(0, PAIRS, &first, Direction::Forward)?;
    'rows: for _ in 0..u64::MAX {
        if !trees.next(0, row)? {
            return finish(alloc, objects, &mut batch);
        }
        add_pair(alloc, objects, &mut batch, row)?;
    }
    Err(ReadFault::Row)
}

// The object of a row of the first table.
fn add_object(alloc: Global, objects: &mut MemStore, row: &Row) -> Result<(), ReadFault>
    ensures { OnOk result (AddsObject objects.old objects.new row.now) }
{
    let (ValueRef::Text(name), ValueRef::Blob(header)) = (row.get(0), row.get(1)) else {
        return Err(ReadFault::Row);
    };
    let Ok(name) = str::from_utf8(name) else {
        return Err(ReadFault::Row);
    };
    if row.len() != 2 || objects.get(name).is_some() {
        return Err(ReadFault::Row);
    }
    let op = header_op(alloc, header)?;
    let done = objects.apply(alloc, name, &op);
    drop(op);
    applied(done)
}

// The operation that writes a header.
fn header_op(alloc: Global, header: &[u8]) -> Result<WriteOp, AllocError>
    ensures { IfOk result (λ op. op ≡ record nothing { header = Some header.now }) }
{
    let mut op = WriteOp::new(alloc);
    op.header = Some(Bytes::from_slice(alloc, header)?);
    Ok(op)
}

// The pair of a row of the second table.
fn add_pair(
    alloc: Global,
    objects: &mut MemStore,
    batch: &mut Batch,
    row: &Row,
) -> Result<(), ReadFault>
    requires { HasBatch objects.old batch.old }
    ensures batch { OnOk result (HasBatch objects.new batch.new) }
    ensures added { OnOk result (AddsPair (with_batch objects.old batch.old) (with_batch objects.new batch.new) row.now) }
{
    let (ValueRef::Text(name), ValueRef::Text(key), ValueRef::Blob(value)) = (
        row.get(0),
        row.get(1),
        row.get(2),
    ) else {
        return Err(ReadFault::Row);
    };
    if row.len() != 3 {
        return Err(ReadFault::Row);
    }
    add(alloc, objects, batch, name, key, value)
}

/// A store in memory refuses for want of memory alone.
pub fn applied(done: Result<(), Refusal>) -> Result<(), ReadFault>
    ensures { OnOk result (done ≡ Ok tt) }
{
    match done {
        Ok(()) => Ok(()),
        Err(_) => Err(ReadFault::Store(StoreError::OutOfMemory)),
    }
}
