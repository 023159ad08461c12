//! The files of a database are opened, or made.
ghost use Rattle.std.specs.Prelude.{◌≡◌, ◌∷◌, [], IfOk, IsTrue, OnOk, codes, map};
ghost use Rattle.sqlite_value.specs.Keys.{plain};
ghost use Rattle.sqlite_trees.specs.View.{IsClean};
ghost use Rattle.sqlite_trees.specs.declared.store.Shape.TheVariants.{Index};
ghost use Rattle.sqlite_store.specs.Catalog.{Describes};
ghost use Rattle.sqlite_store.specs.FileStore.{IsReady, schema_of, view};
ghost use Rattle.sqlite_store.specs.Unopened.{AreUsable, files_of, wanted_by};
ghost use Rattle.kept_store.specs.Kept.{IsFreshMirror};
ghost use Rattle.store_file.specs.Names.{HasNoName};

use crate::faults::{OpenFault, refused};
use crate::looking::{Found, look};
use crate::versions::{version_fault, versioned};
use object_tables::{SESSIONS, objects_schema, schema, sessions_table};
use sqlite_disk::{Disk, Files};
use sqlite_pager::{Options, PageSize, Pager};
use sqlite_store::{FileStore, OpenError, Unopened};
use sqlite_trees::error::StoreError;
use sqlite_trees::schema::Object;
use sqlite_trees::store::Alter;
use sqlite_value::row::Row;
use sqlite_value::value::ValueRef;
use std::alloc::{AllocFailed, Global};

// The size of a new file's pages. Each row that is put in has the sum of its page taken anew, so small pages are faster
// to write; each page of rows is looked for from the root, so large ones are faster to read. With 1,024 bytes a flush of
// new names takes 0.82 of these instructions, and an opening 1.11 times; with 4,096 bytes 1.43 times and 0.97.
const PAGE: usize = 2048;

/// Opens the database of these files, or makes it where there is none. What its log has is in the file then. The files
/// come back where they are refused.
pub fn open_files<D: Disk + Drop>(
    alloc: Global,
    mut files: Files<D>,
    options: Options,
) -> Result<FileStore<D>, (OpenFault, Files<D>)>
    requires log { IsTrue (D.Disk.is_usable files.log) }
    requires db { IsTrue (D.Disk.is_usable files.db) }
    ensures fresh { IfOk result (λ it. IsClean (view it) → IsFreshMirror (view it)) }
{
    let Some(new_size) = PageSize::new(PAGE) else {
        return Err((OpenFault::Io, files));
    };
    match look(alloc, &mut files, new_size) {
        Err(fault) => Err((fault, files)),
        Ok(Found::Nothing) => created(
            unopened(alloc, files, &schema(), new_size, options, true)?,
            true,
        ),
        Ok(Found::Database { size, has_sums }) => open_database(
            alloc, files, size, options, has_sums,
        ),
    }
}

// Opens a database with our tables.
fn open_database<D: Disk + Drop>(
    alloc: Global,
    files: Files<D>,
    size: PageSize,
    options: Options,
    has_sums: bool,
) -> Result<FileStore<D>, (OpenFault, Files<D>)>
    requires log { IsTrue (D.Disk.is_usable files.log) }
    requires db { IsTrue (D.Disk.is_usable files.db) }
    ensures fresh { IfOk result (λ it. IsClean (view it) → IsFreshMirror (view it)) }
{
    let unopened = unopened(alloc, files, &schema(), size, options, has_sums)?;
    let before = unopened.tally();
    match unopened.open_numbered() {
        Ok(store) => settled(store, has_sums),
        Err((OpenError::Refused, unopened)) => open_other(
            alloc,
            unopened.close(),
            size,
            options,
            has_sums,
        ),
        Err((error, unopened)) => {
            let fault = refused(error, before, unopened.tally());
            Err((fault, unopened.close()))
        }
    }
}

// Looks at a database that hasn't our tables, or is damaged. One that lists nothing was left by a program that stopped
// while it made them, so they are made. One that lists no session map may have been made before there was one.
fn open_other<D: Disk + Drop>(
    alloc: Global,
    files: Files<D>,
    size: PageSize,
    options: Options,
    has_sums: bool,
) -> Result<FileStore<D>, (OpenFault, Files<D>)>
    ensures fresh { IfOk result (λ it. IsClean (view it) → IsFreshMirror (view it)) }
{
    if !files.log.may_be_used() || !files.db.may_be_used() {
        return Err((OpenFault::Io, files));
    }
    let mut unopened = unopened(alloc, files, &schema(), size, options, has_sums)?;
    match catalog_of(&mut unopened) {
        Ok(Listed::Nothing) => created(unopened, has_sums),
        Ok(Listed::Objects) => open_older(alloc, unopened.close(), size, options, has_sums),
        Ok(Listed::Sessions) => Err((OpenFault::Damaged, unopened.close())),
        Err(fault) => Err((fault, unopened.close())),
    }
}

// Opens a database that was made before there was a session map, and makes its table, which is empty then. A crash
// leaves the two tables that were there, or all three.
fn open_older<D: Disk + Drop>(
    alloc: Global,
    files: Files<D>,
    size: PageSize,
    options: Options,
    has_sums: bool,
) -> Result<FileStore<D>, (OpenFault, Files<D>)>
    ensures fresh { IfOk result (λ it. IsClean (view it) → IsFreshMirror (view it)) }
{
    if !files.log.may_be_used() || !files.db.may_be_used() {
        return Err((OpenFault::Io, files));
    }
    let unopened = unopened(alloc, files, &objects_schema(), size, options, has_sums)?;
    let before = unopened.tally();
    match unopened.open_numbered() {
        Ok(store) => widened(store, has_sums),
        Err((error, unopened)) => {
            let fault = refused(error, before, unopened.tally());
            Err((fault, unopened.close()))
        }
    }
}

// Makes the table of the session map in a store that has the two others.
fn widened<D: Disk + Drop>(
    mut store: FileStore<D>,
    has_sums: bool,
) -> Result<FileStore<D>, (OpenFault, Files<D>)>
    requires ready { IsReady store }
    requires numbered { IsTrue (view store).is_numbered }
    requires shapes { map (λ w. w.shape) (schema_of store) ≡ Index plain ∷ Index plain ∷ [] }
    requires free { HasNoName (schema_of store) (codes "session_map") }
    ensures fresh { IfOk result (λ it. IsClean (view it) → IsFreshMirror (view it)) }
{
    if let Some(fault) = version_fault(has_sums, store.version()) {
        return Err((fault, store.close()));
    }
    match add_sessions(&mut store) {
        Ok(()) => settled(store, has_sums),
        Err(error) => Err((OpenFault::from(error), store.close())),
    }
}

// Makes the table of the session map, in a transaction of its own.
fn add_sessions<D: Disk + Drop>(store: &mut FileStore<D>) -> Result<(), StoreError>
    requires ready { IsReady store.old }
    requires numbered { IsTrue (view store.old).is_numbered }
    requires shapes { map (λ w. w.shape) (schema_of store.old) ≡ Index plain ∷ Index plain ∷ [] }
    requires free { HasNoName (schema_of store.old) (codes "session_map") }
    ensures { OnOk result (IsClean (view store.new) → IsFreshMirror (view store.new)) }
{
    store.create(SESSIONS, &sessions_table())?;
    store.commit()
}

// What a database lists of our tables.
#[derive(Clone, Copy, Debug)]
enum Listed {
    Nothing,
    /// None but those of the objects and their pairs.
    Objects,
    /// The session map, too.
    Sessions,
}

// What a database lists of our tables. With others it is of something else.
fn catalog_of<D: Disk + Drop>(unopened: &mut Unopened<D>) -> Result<Listed, OpenFault>
    requires { AreUsable unopened.old }
    ensures usable { OnOk result (AreUsable unopened.new) }
    ensures schema { wanted_by unopened.new ≡ wanted_by unopened.old }
{
    let before = unopened.tally();
    let rows = match unopened.read_catalog() {
        Ok(rows) => rows,
        Err(error) => return Err(refused(error, before, unopened.tally())),
    };
    listed_by(rows.as_slice())
}

// Makes the tables.
fn created<D: Disk + Drop>(
    unopened: Unopened<D>,
    has_sums: bool,
) -> Result<FileStore<D>, (OpenFault, Files<D>)>
    requires usable { AreUsable unopened }
    requires schema { map (λ w. w.shape) (wanted_by unopened) ≡ Index plain ∷ Index plain ∷ Index plain ∷ [] }
    ensures fresh { IfOk result (λ it. IsClean (view it) → IsFreshMirror (view it)) }
{
    let before = unopened.tally();
    match unopened.create() {
        Ok(store) => settled(store, has_sums),
        Err((error, unopened)) => {
            let fault = refused(error, before, unopened.tally());
            Err((fault, unopened.close()))
        }
    }
}

// Looks at the version, and puts the log into the file.
fn settled<D: Disk + Drop>(
    mut store: FileStore<D>,
    has_sums: bool,
) -> Result<FileStore<D>, (OpenFault, Files<D>)>
    requires { IsClean (view store) → IsFreshMirror (view store) }
    ensures fresh { IfOk result (λ it. IsClean (view it) → IsFreshMirror (view it)) }
{
    match versioned(&mut store, has_sums) {
        Ok(()) => Ok(store),
        Err(fault) => Err((fault, store.close())),
    }
}

fn unopened<D: Disk + Drop>(
    alloc: Global,
    files: Files<D>,
    schema: &[Object<'_>],
    size: PageSize,
    options: Options,
    has_sums: bool,
) -> Result<Unopened<D>, (OpenFault, Files<D>)>
    ensures files { IfOk result (λ it. files_of it ≡ (files.log, files.db)) }
    ensures schema { IfOk result (λ it. Describes (wanted_by it) schema.now) }
{
    let pager = match Pager::new(alloc, files, size, options) {
        Ok(pager) => pager,
        Err(AllocFailed { value }) => return Err((OpenFault::NoMemory, value)),
    };
    match Unopened::with_sums(alloc, pager, schema, has_sums) {
        Ok(unopened) => Ok(unopened),
        Err(AllocFailed { value }) => Err((OpenFault::NoMemory, value.close())),
    }
}

// What the rows of a list of objects are, if each has the text of one of our tables.
fn listed_by(rows: &[Row]) -> Result<Listed, OpenFault> {
    let mut found = Listed::Nothing;
    for row in rows {
        if is_table(row, &sessions_table()) {
            found = Listed::Sessions;
        } else if !is_of_objects(row) {
            return Err(OpenFault::Foreign);
        } else if matches!(found, Listed::Nothing) {
            found = Listed::Objects;
        }
    }
    Ok(found)
}

// Whether a row is of the objects' tables.
fn is_of_objects(row: &Row) -> bool {
    let [objects, pairs] = objects_schema();
    is_table(row, &objects) || is_table(row, &pairs)
}

// Whether a row lists this table. Its columns are its rowid, type, name, table, root page and text.
fn is_table(row: &Row, table: &Object<'_>) -> bool {
    match (row.get(5), table.sql) {
        (ValueRef::Text(text), Some(sql)) => text == sql.as_bytes(),
        _ => false,
    }
}
