//! Objects, and edits of the session map, into the tables.
ghost use Rattle.std.specs.Prelude.{◌≡◌, ◌⊎◌, ◌≤◌, ℕ, Bool, true, false, List, Some, is_some, IsTrue, IfOk, OnErr, OnOk, option_copied};
ghost use Rattle.std.specs.FinMap as map;
ghost use Rattle.objstore.specs.Objects.{header_at};
ghost use Rattle.sqlite_trees.specs.Tree.{Trees};
ghost use Rattle.sqlite_trees.specs.View.{IsClean, IsQuiet, KeepsSchema, OnlyWrites, doubt};
ghost use Rattle.object_tables.specs.Entries.{HasRow, IsElement, IsKeyedTable, LeavesOthers, PutsRow, entry, one_text, two_texts};
ghost use Rattle.object_tables.specs.Noted.{is_key_of, is_name_of};
ghost use Rattle.object_tables.specs.Sessions.{Brings};
ghost use Rattle.object_tables.specs.Spelled.{AreRight, HasTables, HaveOwners, SpellsBut, object_key, pair_key, value_at};

use crate::changes::Changes;
use crate::entries::{add_entry, put_entry};
use crate::name_sets::NameSet;
use crate::sessions::write_rows;
use crate::tables::{OBJECTS, PAIRS};
use keeping::RowEdit;
use mds_types::{Bytes, Text};
use objstore::MemStore;
use sorted_map::Iter;
use sqlite_trees::error::StoreError;
use sqlite_trees::store::Store;
use sqlite_value::row::Row;
use sqlite_value::value::ValueRef;
use std::alloc::{AllocError, Global};

/// Brings what changed into the tables, with edits of the session map, all in one transaction. Where the tables have
/// spelled all objects but those names and keys, with a row for each pair's object, the last commit spells exactly the
/// objects then, and has exactly the edited rows. Whatever it answers, and wherever it is cut off, a crash leaves what
/// it could leave before, or tables that have both. Where it fails, and the tables are still open, a crash leaves what
/// it could leave before.
pub fn save<T: Store>(
    trees: &mut T,
    alloc: Global,
    objects: &MemStore,
    changes: &Changes,
    edits: &[RowEdit],
) -> Result<(), StoreError>
    requires { IsClean (T.Store.view trees.old) → HasTables (T.Store.view trees.old) }
    ensures saved { OnOk result (IsClean (T.Store.view trees.new) → ((T.Store.view trees.old).is_broken ≡ false)
        × Brings (T.Store.view trees.old).trees (T.Store.view trees.new).committed objects.now changes.now edits.now) }
    ensures open { OnOk result (IsClean (T.Store.view trees.new) → (T.Store.view trees.new).is_open ≡ (T.Store.view trees.old).is_open) }
    ensures crash { IsClean (T.Store.view trees.new) → (db : Trees) → T.Store.recovers trees.new db
        → T.Store.recovers trees.old db ⊎ (((T.Store.view trees.old).is_broken ≡ false)
        × Brings (T.Store.view trees.old).trees db objects.now changes.now edits.now) }
    ensures failed { OnErr result (IsClean (T.Store.view trees.new) → IsTrue (T.Store.view trees.new).is_open
        → (db : Trees) → T.Store.recovers trees.new db → T.Store.recovers trees.old db) }
    ensures clean { doubt (T.Store.view trees.old).is_clean ≤ doubt (T.Store.view trees.new).is_clean }
    ensures fresh { IsClean (T.Store.view trees.new) → IsTrue (T.Store.view trees.new).is_open
        → (T.Store.view trees.new).trees ≡ (T.Store.view trees.new).committed }
    ensures shape { IsClean (T.Store.view trees.new) → (T.Store.view trees.old).shape ≡ (T.Store.view trees.old).committed_shape
        → ((T.Store.view trees.new).shape ≡ (T.Store.view trees.old).shape) × ((T.Store.view trees.new).committed_shape ≡ (T.Store.view trees.old).shape) }
{
    match write_changes(trees, alloc, objects, changes, edits) {
        Ok(()) => trees.commit(),
        Err(error) => {
            trees.rollback();
            Err(error)
        }
    }
}

/// Brings what changed, and edits of the session map, into the tables as the transaction sees them.
pub fn write_changes<T: Store>(
    trees: &mut T,
    alloc: Global,
    objects: &MemStore,
    changes: &Changes,
    edits: &[RowEdit],
) -> Result<(), StoreError>
    requires { IsClean (T.Store.view trees.old) → HasTables (T.Store.view trees.old) }
    ensures ok { OnOk result (IsClean (T.Store.view trees.new)
        → Brings (T.Store.view trees.old).trees (T.Store.view trees.new).trees objects.now changes.now edits.now) }
    ensures frame { OnOk result (IsClean (T.Store.view trees.new) → OnlyWrites (T.Store.view trees.old) (T.Store.view trees.new)) }
    ensures schema { KeepsSchema (T.Store.view trees.old) (T.Store.view trees.new) }
    ensures quiet { IsQuiet T.Store.view T.Store.faults T.Store.recovers T.Store.is_shielded trees.old trees.new }
{
    let mut key = Row::new(alloc);
    let mut row = Row::new(alloc);
    let fresh = write_headers(trees, alloc, objects, changes.names(), &mut key, &mut row)?;
    write_pairs(trees, objects, changes.keys(), &fresh, &mut key, &mut row)?;
    write_rows(trees, edits, &mut key, &mut row)
}

// The headers of these objects. Answers the names of those that had no row, and so no pairs.
fn write_headers<T: Store>(
    trees: &mut T,
    alloc: Global,
    objects: &MemStore,
    mut names: Iter<'_, Text, ()>,
    key: &mut Row,
    row: &mut Row,
) -> Result<NameSet, StoreError>
    requires { IsClean (T.Store.view trees.old) → HasTables (T.Store.view trees.old) }
    ensures ok { OnOk result (IsClean (T.Store.view trees.new) → (keys : List ℕ → List ℕ → Bool)
        → SpellsBut (T.Store.view trees.old).trees objects.now (is_name_of names.entry) keys
        → SpellsBut (T.Store.view trees.new).trees objects.now (λ _. false) keys) }
    ensures fresh { IfOk result (λ fresh. IsClean (T.Store.view trees.new) → (keys : List ℕ → List ℕ → Bool)
        → SpellsBut (T.Store.view trees.old).trees objects.now (is_name_of names.entry) keys → HaveOwners (T.Store.view trees.old).trees
        → AreRight ((T.Store.view trees.new).trees 1) objects.now (map.contains_key fresh)) }
    ensures others { OnOk result (IsClean (T.Store.view trees.new)
        → LeavesOthers (T.Store.view trees.old) (T.Store.view trees.new) 0) }
    ensures frame { OnOk result (IsClean (T.Store.view trees.new) → OnlyWrites (T.Store.view trees.old) (T.Store.view trees.new)) }
    ensures schema { KeepsSchema (T.Store.view trees.old) (T.Store.view trees.new) }
    ensures quiet { IsQuiet T.Store.view T.Store.faults T.Store.recovers T.Store.is_shielded trees.old trees.new }
{
    let mut fresh = NameSet::new(alloc);
    while let Some((name, _)) = names.next() {
        let name = name.as_str();
        let header = header_of(objects, name);
        let is_new = put_header(trees, name, header, key, row)?;
        note_new(&mut fresh, alloc, name, is_new)?;
    }
    Ok(fresh)
}

// The name is put in, if it is a new object's.
fn note_new(fresh: &mut NameSet, alloc: Global, name: &str, is_new: bool) -> Result<(), AllocError>
    ensures { (n : List ℕ) → map.contains_key fresh.new n ≡ true
        → (map.contains_key fresh.old n ≡ true) ⊎ ((n ≡ name.now) × (is_new ≡ true)) }
{
    if is_new {
        return fresh.put(alloc, name);
    }
    Ok(())
}

// The pairs of these keys. Those of fresh objects have no row, and none is looked for.
fn write_pairs<T: Store>(
    trees: &mut T,
    objects: &MemStore,
    mut keys: Iter<'_, (Text, Bytes), ()>,
    fresh: &NameSet,
    key: &mut Row,
    row: &mut Row,
) -> Result<(), StoreError>
    requires { IsClean (T.Store.view trees.old) → HasTables (T.Store.view trees.old) }
    ensures ok { OnOk result (IsClean (T.Store.view trees.new) → (names : List ℕ → Bool)
        → AreRight ((T.Store.view trees.old).trees 1) objects.now (map.contains_key fresh.now)
        → SpellsBut (T.Store.view trees.old).trees objects.now names (is_key_of keys.entry)
        → SpellsBut (T.Store.view trees.new).trees objects.now names (λ _ _. false)) }
    ensures others { OnOk result (IsClean (T.Store.view trees.new)
        → LeavesOthers (T.Store.view trees.old) (T.Store.view trees.new) 1) }
    ensures frame { OnOk result (IsClean (T.Store.view trees.new) → OnlyWrites (T.Store.view trees.old) (T.Store.view trees.new)) }
    ensures schema { KeepsSchema (T.Store.view trees.old) (T.Store.view trees.new) }
    ensures quiet { IsQuiet T.Store.view T.Store.faults T.Store.recovers T.Store.is_shielded trees.old trees.new }
{
    while let Some((spot, _)) = keys.next() {
        let is_new = fresh.contains(&spot.0);
        let value = value_of(objects, spot.0.as_str(), &spot.1);
        put_pair(trees, spot, value, is_new, key, row)?;
    }
    Ok(())
}

// The header of an object.
fn header_of<'a>(objects: &'a MemStore, name: &str) -> Option<&'a [u8]>
    ensures { option_copied result ≡ header_at objects.entry.now name.now }
{
    match objects.get(name) {
        Some(object) => Some(object.header().as_slice()),
        None => None,
    }
}

// The value of a key in an object.
fn value_of<'a>(objects: &'a MemStore, name: &str, key: &Bytes) -> Option<&'a [u8]>
    ensures { option_copied result ≡ value_at objects.entry.now name.now key.now }
{
    match objects.get(name) {
        Some(object) => match object.pairs().get(key) {
            Some(value) => Some(value.as_slice()),
            None => None,
        },
        None => None,
    }
}

// Gives an object this header in its table, or none. Answers whether the object is new there: it has one now, and had
// no row.
fn put_header<T: Store>(
    trees: &mut T,
    name: &str,
    header: Option<&[u8]>,
    key: &mut Row,
    row: &mut Row,
) -> Result<bool, StoreError>
    requires { IsClean (T.Store.view trees.old) → HasTables (T.Store.view trees.old) }
    ensures ok { OnOk result (IsClean (T.Store.view trees.new)
        → IsKeyedTable one_text ((T.Store.view trees.old).trees 0)
        → PutsRow (T.Store.view trees.old) (T.Store.view trees.new) 0 (object_key name.now) (option_copied header.entry)) }
    ensures new { IfOk result (λ is_new. IsClean (T.Store.view trees.new) → is_new ≡ true
        → (is_some (option_copied header.entry) ≡ true) × (HasRow ((T.Store.view trees.old).trees 0) (object_key name.now) → ⊥)) }
    ensures others { OnOk result (IsClean (T.Store.view trees.new)
        → LeavesOthers (T.Store.view trees.old) (T.Store.view trees.new) 0) }
    ensures frame { OnOk result (IsClean (T.Store.view trees.new) → OnlyWrites (T.Store.view trees.old) (T.Store.view trees.new)) }
    ensures schema { KeepsSchema (T.Store.view trees.old) (T.Store.view trees.new) }
    ensures quiet { IsQuiet T.Store.view T.Store.faults T.Store.recovers T.Store.is_shielded trees.old trees.new }
{
    key.clear();
    key.push(ValueRef::Text(name.as_bytes()))?;
    let had = put_entry(trees, OBJECTS, key, header, row)?;
    Ok(!had && header.is_some())
}

// Gives a key of an object this value in its table, or none. Of a new object no row is looked for: it has none but
// right ones.
fn put_pair<T: Store>(
    trees: &mut T,
    spot: &(Text, Bytes),
    value: Option<&[u8]>,
    is_new: bool,
    key: &mut Row,
    row: &mut Row,
) -> Result<(), StoreError>
    requires { IsClean (T.Store.view trees.old) → HasTables (T.Store.view trees.old) }
    ensures ok { OnOk result (IsClean (T.Store.view trees.new)
        → IsKeyedTable two_texts ((T.Store.view trees.old).trees 1)
        → (is_new ≡ true → (v : List ℕ) → IsElement (entry (pair_key spot.now.0 spot.now.1) v) ((T.Store.view trees.old).trees 1)
        → option_copied value.entry ≡ Some v)
        → PutsRow (T.Store.view trees.old) (T.Store.view trees.new) 1 (pair_key spot.now.0 spot.now.1) (option_copied value.entry)) }
    ensures others { OnOk result (IsClean (T.Store.view trees.new)
        → LeavesOthers (T.Store.view trees.old) (T.Store.view trees.new) 1) }
    ensures frame { OnOk result (IsClean (T.Store.view trees.new) → OnlyWrites (T.Store.view trees.old) (T.Store.view trees.new)) }
    ensures schema { KeepsSchema (T.Store.view trees.old) (T.Store.view trees.new) }
    ensures quiet { IsQuiet T.Store.view T.Store.faults T.Store.recovers T.Store.is_shielded trees.old trees.new }
{
    key.clear();
    key.push(ValueRef::Text(spot.0.as_str().as_bytes()))?;
    key.push(ValueRef::Text(spot.1.as_slice()))?;
    if is_new {
        if let Some(value) = value {
            return add_entry(trees, PAIRS, key, value, row);
        }
    }
    put_entry(trees, PAIRS, key, value, row)?;
    Ok(())
}
