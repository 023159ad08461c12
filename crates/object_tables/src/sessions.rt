//! The session map: rows of its table, each a key and a value, both of them bytes.
ghost use Rattle.std.specs.Prelude.{◌≡◌, ◌≤◌, IsTrue, IfOk, OnOk, option_copied};
ghost use Rattle.sqlite_trees.specs.View.{IsClean, IsQuiet, KeepsSchema, OnlyWrites};
ghost use Rattle.object_tables.specs.Entries.{IsKeyedTable, LeavesOthers, PutsRow, one_blob};
ghost use Rattle.object_tables.specs.Sessions.{AddsRow, HasSessionRows, session_key};
ghost use Rattle.keeping.specs.Rows.{SessionRows, rows_after_edits};
ghost use Rattle.object_tables.specs.Spelled.{HasTables};

use crate::entries::put_entry;
use crate::reading::ReadFault;
use crate::tables::SESSIONS;
use keeping::RowEdit;
use mds_types::Bytes;
use objstore::Pairs;
use sqlite_trees::error::StoreError;
use sqlite_trees::store::{Direction, Shape, Store};
use sqlite_value::row::Row;
use sqlite_value::value::ValueRef;
use std::alloc::Global;

/// All rows of the session map, exactly. Where it fails, the transaction is rolled back.
pub fn read_session_rows<T: Store>(trees: &mut T, alloc: Global) -> Result<Pairs, ReadFault>
    requires { IsClean (T.Store.view trees.old) → HasTables (T.Store.view trees.old) }
    ensures ok { IfOk result (λ rows. IsClean (T.Store.view trees.new)
        → HasSessionRows (T.Store.view trees.old).trees rows) }
    ensures same { OnOk result (IsClean (T.Store.view trees.new)
        → T.Store.view trees.new ≡ record (T.Store.view trees.old) { cursors = (T.Store.view trees.new).cursors }) }
    ensures fresh { IsClean (T.Store.view trees.new)
        → (T.Store.view trees.old).trees ≡ (T.Store.view trees.old).committed → IsTrue (T.Store.view trees.new).is_open
        → (T.Store.view trees.new).trees ≡ (T.Store.view trees.new).committed }
    ensures shape { IsClean (T.Store.view trees.new)
        → (T.Store.view trees.old).shape ≡ (T.Store.view trees.old).committed_shape
        → ((T.Store.view trees.new).shape ≡ (T.Store.view trees.old).shape)
        × ((T.Store.view trees.new).committed_shape ≡ (T.Store.view trees.old).shape) }
    ensures quiet { IsQuiet T.Store.view T.Store.faults T.Store.recovers T.Store.is_shielded trees.old trees.new }
{
    match read_rows(trees, alloc) {
        Ok(rows) => Ok(rows),
        Err(fault) => {
            trees.rollback();
            Err(fault)
        }
    }
}

// All rows.
fn read_rows<T: Store>(trees: &mut T, alloc: Global) -> Result<Pairs, ReadFault>
    requires { IsClean (T.Store.view trees.old) → HasTables (T.Store.view trees.old) }
    ensures ok { IfOk result (λ rows. IsClean (T.Store.view trees.new)
        → HasSessionRows (T.Store.view trees.old).trees rows) }
    ensures same { OnOk result (IsClean (T.Store.view trees.new)
        → T.Store.view trees.new ≡ record (T.Store.view trees.old) { cursors = (T.Store.view trees.new).cursors }) }
    ensures schema { KeepsSchema (T.Store.view trees.old) (T.Store.view trees.new) }
    ensures quiet { IsQuiet T.Store.view T.Store.faults T.Store.recovers T.Store.is_shielded trees.old trees.new }
{
    let first = Row::new(alloc);
    let mut row = Row::new(alloc);
    let mut found = Pairs::new(alloc);
    trees.seek(0, SESSIONS, &first, Direction::Forward)?;
    'rows: for _ in 0..u64::MAX {
        if !trees.next(0, &mut row)? {
            return Ok(found);
        }
        add_row(alloc, &mut found, &row)?;
    }
    Err(ReadFault::Row)
}

// The row of a table's row, whose key must be none of those that were read.
fn add_row(alloc: Global, rows: &mut Pairs, row: &Row) -> Result<(), ReadFault>
    ensures { OnOk result (AddsRow rows.old rows.new row.now) }
{
    let (ValueRef::Blob(key), ValueRef::Blob(value)) = (row.get(0), row.get(1)) else {
        return Err(ReadFault::Row);
    };
    let key = Bytes::from_slice(alloc, key)?;
    if row.len() != 2 || rows.get(&key).is_some() {
        return Err(ReadFault::Row);
    }
    let value = Bytes::from_slice(alloc, value)?;
    rows.put(key, value)?;
    Ok(())
}

/// Makes edits of the session map, one after the other. No other table changes, whatever rows there are.
pub fn write_rows<T: Store>(
    trees: &mut T,
    edits: &[RowEdit],
    key: &mut Row,
    row: &mut Row,
) -> Result<(), StoreError>
    requires { IsClean (T.Store.view trees.old) → HasTables (T.Store.view trees.old) }
    ensures ok { OnOk result (IsClean (T.Store.view trees.new) → (rows : SessionRows)
        → HasSessionRows (T.Store.view trees.old).trees rows
        → HasSessionRows (T.Store.view trees.new).trees (rows_after_edits edits.now rows)) }
    ensures others { OnOk result (IsClean (T.Store.view trees.new)
        → LeavesOthers (T.Store.view trees.old) (T.Store.view trees.new) 2) }
    ensures frame { OnOk result (IsClean (T.Store.view trees.new)
        → OnlyWrites (T.Store.view trees.old) (T.Store.view trees.new)) }
    ensures schema { KeepsSchema (T.Store.view trees.old) (T.Store.view trees.new) }
    ensures quiet { IsQuiet T.Store.view T.Store.faults T.Store.recovers T.Store.is_shielded trees.old trees.new }
{
    for edit in edits {
        put_row(trees, edit, key, row)?;
    }
    Ok(())
}

// Gives a key of the session map its value, or none.
fn put_row<T: Store>(
    trees: &mut T,
    edit: &RowEdit,
    key: &mut Row,
    row: &mut Row,
) -> Result<(), StoreError>
    requires { IsClean (T.Store.view trees.old) → HasTables (T.Store.view trees.old) }
    ensures ok { OnOk result (IsClean (T.Store.view trees.new)
        → IsKeyedTable one_blob ((T.Store.view trees.old).trees 2)
        → PutsRow (T.Store.view trees.old) (T.Store.view trees.new) 2 (session_key edit.now.key) edit.now.value) }
    ensures others { OnOk result (IsClean (T.Store.view trees.new)
        → LeavesOthers (T.Store.view trees.old) (T.Store.view trees.new) 2) }
    ensures frame { OnOk result (IsClean (T.Store.view trees.new)
        → OnlyWrites (T.Store.view trees.old) (T.Store.view trees.new)) }
    ensures schema { KeepsSchema (T.Store.view trees.old) (T.Store.view trees.new) }
    ensures quiet { IsQuiet T.Store.view T.Store.faults T.Store.recovers T.Store.is_shielded trees.old trees.new }
{
    key.clear();
    key.push(ValueRef::Blob(edit.key.as_slice()))?;
    put_entry(trees, SESSIONS, key, value_of(edit), row)?;
    Ok(())
}

// The value that an edit gives, if it does.
fn value_of<'a>(edit: &'a RowEdit) -> Option<&'a [u8]>
    ensures { option_copied result ≡ edit.entry.now.value }
{
    match &edit.value {
        Some(value) => Some(value.as_slice()),
        None => None,
    }
}
