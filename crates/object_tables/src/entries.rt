//! One row of a table.
ghost use Rattle.std.specs.Prelude.{◌≡◌, ◌↔◌, false, true, None, Some, IfOk, OnOk, IsTrue, option_copied};
ghost use Rattle.sqlite_value.specs.Order.{column};
ghost use Rattle.sqlite_value.specs.Keys.{plain};
ghost use Rattle.sqlite_value.specs.declared.value.Value.TheVariants.{Blob};
ghost use Rattle.sqlite_trees.specs.View.{IsClean, IsQuiet, KeepsSchema, OnlyWrites};
ghost use Rattle.object_tables.specs.Entries.{HasNoOther, HoldsValue, IsKey, IsKeyedTable, LeavesOthers, Looks, Misses};
ghost use Rattle.object_tables.specs.Entries.{PutsRow, entry, texts_of};

use sqlite_trees::error::StoreError;
use sqlite_trees::store::{Direction, Shape, Store};
use sqlite_value::keys::Order;
use sqlite_value::row::Row;
use sqlite_value::value::ValueRef;

// The cursor that looks for a row.
const CURSOR: u16 = 0;

/// Gives a key this value in a table whose rows are each a key and one value, or none, and says whether it had a row. A
/// row that is so already is left.
pub fn put_entry<T: Store>(
    trees: &mut T,
    tree: u32,
    key: &Row,
    value: Option<&[u8]>,
    row: &mut Row,
) -> Result<bool, StoreError>
    requires key { IsKey key.now }
    requires shaped { IsClean (T.Store.view trees.old) → (T.Store.view trees.old).shape tree ≡ Shape.Index plain }
    ensures ok { OnOk result (IsClean (T.Store.view trees.new)
        → IsKeyedTable (texts_of key.now) ((T.Store.view trees.old).trees tree)
        → PutsRow (T.Store.view trees.old) (T.Store.view trees.new) tree key.now (option_copied value.entry)) }
    ensures had { IfOk result (λ had. IsClean (T.Store.view trees.new) → Misses ((T.Store.view trees.old).trees tree) key.now had) }
    ensures others { OnOk result (IsClean (T.Store.view trees.new)
        → LeavesOthers (T.Store.view trees.old) (T.Store.view trees.new) tree) }
    ensures frame { OnOk result (IsClean (T.Store.view trees.new) → OnlyWrites (T.Store.view trees.old) (T.Store.view trees.new)) }
    ensures schema { KeepsSchema (T.Store.view trees.old) (T.Store.view trees.new) }
    ensures quiet { IsQuiet T.Store.view T.Store.faults T.Store.recovers T.Store.is_shielded trees.old trees.new }
{
    let had = find(trees, tree, key, row)?;
    if had {
        if has_value(row, key.len(), value) {
            return Ok(true);
        }
        trees.remove(tree, row)?;
    }
    match value {
        Some(value) => {
            add_entry(trees, tree, key, value, row)?;
            Ok(had)
        }
        None => Ok(had),
    }
}

/// Puts in the row of a key that has none, or none but this one. It looks for no row, and so costs half.
pub fn add_entry<T: Store>(
    trees: &mut T,
    tree: u32,
    key: &Row,
    value: &[u8],
    row: &mut Row,
) -> Result<(), StoreError>
    requires key { IsKey key.now }
    requires shaped { IsClean (T.Store.view trees.old) → (T.Store.view trees.old).shape tree ≡ Shape.Index plain }
    ensures ok { OnOk result (IsClean (T.Store.view trees.new)
        → IsKeyedTable (texts_of key.now) ((T.Store.view trees.old).trees tree)
        → HasNoOther ((T.Store.view trees.old).trees tree) key.now value.now
        → PutsRow (T.Store.view trees.old) (T.Store.view trees.new) tree key.now (Some value.now)) }
    ensures others { OnOk result (IsClean (T.Store.view trees.new)
        → LeavesOthers (T.Store.view trees.old) (T.Store.view trees.new) tree) }
    ensures frame { OnOk result (IsClean (T.Store.view trees.new) → OnlyWrites (T.Store.view trees.old) (T.Store.view trees.new)) }
    ensures schema { KeepsSchema (T.Store.view trees.old) (T.Store.view trees.new) }
    ensures quiet { IsQuiet T.Store.view T.Store.faults T.Store.recovers T.Store.is_shielded trees.old trees.new }
{
    fill(row, key, value)?;
    trees.insert(tree, row)
}

// Whether there is a row of this key, which is read then.
fn find<T: Store>(trees: &mut T, tree: u32, key: &Row, row: &mut Row) -> Result<bool, StoreError>
    requires shaped { IsClean (T.Store.view trees.old) → (T.Store.view trees.old).shape tree ≡ Shape.Index plain }
    ensures ok { IfOk result (λ found. IsClean (T.Store.view trees.new)
        → Looks (T.Store.view trees.old) (T.Store.view trees.new) tree key.now row.new found) }
    ensures schema { KeepsSchema (T.Store.view trees.old) (T.Store.view trees.new) }
    ensures quiet { IsQuiet T.Store.view T.Store.faults T.Store.recovers T.Store.is_shielded trees.old trees.new }
{
    trees.seek(CURSOR, tree, key, Direction::Forward)?;
    let found = trees.next(CURSOR, row)?;
    Ok(found && row.cmp_prefix(Order::PLAIN, key).is_eq())
}

// Whether the row's column has just this value.
fn has_value(row: &Row, at: usize, value: Option<&[u8]>) -> bool
    ensures { IsTrue result ↔ HoldsValue row.now at (option_copied value.entry) }
{
    match (row.get(at), value) {
        (ValueRef::Blob(found), Some(value)) => found == value,
        _ => false,
    }
}

// Makes the row of a key and a value.
fn fill(row: &mut Row, key: &Row, value: &[u8]) -> Result<(), StoreError>
    ensures { OnOk result (row.new ≡ entry key.now value.now) }
{
    row.copy_from(key)?;
    row.push(ValueRef::Blob(value))?;
    Ok(())
}
