//! `Kept`: a store that is mirrored in tables.
ghost use Rattle.std.specs.Prelude.{◌≡◌, ◌⊎◌, ◌↔◌, ◌≤◌, true, IsTrue, IfErr, IfOk, OnErr, OnOk};
ghost use Rattle.std.specs.FinMap as map;
ghost use Rattle.object_tables.specs.Noted.{none_noted};
ghost use Rattle.keeping.specs.Rows.{SessionRows, rows_after_edits};
ghost use Rattle.object_tables.specs.Spelled.{SpellsObjects};
ghost use Rattle.sqlite_trees.specs.Tree.{Trees as Rows};
ghost use Rattle.sqlite_trees.specs.View.{IsClean, doubt};
ghost use Rattle.kept_store.specs.Kept.{FindsOutcome, HasBoth, IsFreshMirror, IsMirrored, RecoversObjects, StoresRows, TakesEdits};
ghost use Rattle.kept_store.specs.Kept.{unkept_of};

use crate::noting::{note_object, note_write};
use crate::settling::Settle;
use keeping::{Keep, RowEdit, Unkept};
use mds_types::{Bytes, Refusal};
use object_tables::{Changes, ReadFault, has_tables, read_objects, read_session_rows, save};
use objstore::{MemStore, NamePage, Page, Pairs, Store, WriteOp};
use sqlite_trees::error::StoreError;
use sqlite_trees::store::{Reopen, Store as Trees};
use std::alloc::Global;
use std::marker::Model;

/// A store of objects that is mirrored in tables. It has all objects in memory, which serve each read; the names and
/// keys that changed since the last `keep`; and the tables, which have all but these changes. A write changes memory
/// alone, so only `keep` is slower than in a store in memory. The session map is in the tables alone.
#[derive(Drop)]
pub struct Kept<T: Trees + Drop> {
    objects: MemStore,
    changes: Changes,
    tables: T,
    alloc: Global,
}

impl<T: Trees + Drop> Model for Kept<T> {
    ghost use Rattle.std.specs.Coded.{codes};
    ghost use Rattle.std.specs.FinMap as map;
    ghost use Rattle.sqlite_trees.specs.View.{IsClean};
    ghost use Rattle.kept_store.specs.Kept.{IsMirrored, KeptObjects};

    ghost Value = { KeptObjects T };

    ghost coded = { Prim.hlevel (codes, map.code, T.code) };

    ghost view = { λ k. record { objects = k.objects; noted = k.changes; tables = k.tables } };

    ghost invariant = { λ k. IsClean (T.Store.view k.tables) → IsMirrored (T.Store.view k.tables) (T.Store.recovers k.tables) k.objects k.changes };
}

impl<T: Trees + Drop> Kept<T> {
    /// Reads all objects out of tables that were just opened. Returns the tables if they don't spell objects or can't
    /// be read. Takes memory for the objects.
    pub fn open(alloc: Global, mut tables: T) -> Result<Kept<T>, (ReadFault, T)>
        requires { IsClean (T.Store.view tables) → IsFreshMirror (T.Store.view tables) }
        ensures objects { IfOk result (λ k. IsClean (T.Store.view k.tables) → SpellsObjects (T.Store.view tables).committed k.objects) }
        ensures kept { IfOk result (λ k. k.noted ≡ none_noted) }
        ensures outcomes { IfOk result (λ k. (db : Rows) → T.Store.recovers k.tables db → T.Store.recovers tables db) }
        ensures clean { IfOk result (λ k. doubt (T.Store.view tables).is_clean ≤ doubt (T.Store.view k.tables).is_clean) }
    {
        match read_objects(&mut tables, alloc) {
            Ok(objects) => Ok(Kept {
                objects,
                changes: Changes::none(alloc),
                tables,
                alloc,
            }),
            Err(fault) => Err((fault, tables)),
        }
    }

    /// The objects.
    pub fn objects(&self) -> &MemStore
        ensures { result.now ≡ self.now.objects }
    {
        &self.objects
    }

    /// Whether the tables have all objects as they are now.
    pub fn is_kept(&self) -> bool
        ensures kept { IsTrue result ↔ (self.now.noted ≡ none_noted) }
        ensures outcomes { IsTrue result → IsClean (T.Store.view self.now.tables)
            → (db : Rows) → T.Store.recovers self.now.tables db → SpellsObjects db self.now.objects }
    {
        self.changes.is_empty()
    }

    /// The number of objects that changed since the last `keep` that returned Ok.
    pub fn changed(&self) -> usize
        ensures { result ≡ map.len self.now.noted.names }
    {
        self.changes.len()
    }

    /// Writes all changes into the tables and makes the edits of the session map, in one transaction. Whatever it
    /// returns, and wherever it is cut off, a crash leaves what it could leave before, or tables that spell exactly the
    /// objects and have exactly the edited rows. If it fails, the changes stay noted, so the next call writes them too,
    /// and no edit is made. Tables that are shut accept no more changes. Only another open tells which of both they have.
    pub fn keep(&mut self, edits: &[RowEdit]) -> Result<(), StoreError>
        ensures kept { OnOk result (self.new.noted ≡ none_noted) }
        ensures noted { OnErr result (self.new.noted ≡ self.old.noted) }
        ensures objects { self.new.objects ≡ self.old.objects }
        ensures rows { OnOk result (IsClean (T.Store.view self.new.tables) → (rows : SessionRows)
            → StoresRows (T.Store.recovers self.old.tables) rows
            → StoresRows (T.Store.recovers self.new.tables) (rows_after_edits edits.now rows)) }
        ensures failed { OnErr result (IsClean (T.Store.view self.new.tables)
            → IsTrue (T.Store.view self.new.tables).is_open → (db : Rows) → T.Store.recovers self.new.tables db → T.Store.recovers self.old.tables db) }
        ensures crash { IsClean (T.Store.view self.new.tables) → (db : Rows) → T.Store.recovers self.new.tables db
            → T.Store.recovers self.old.tables db
            ⊎ HasBoth (T.Store.recovers self.old.tables) db self.new.objects edits.now }
        ensures clean { doubt (T.Store.view self.old.tables).is_clean ≤ doubt (T.Store.view self.new.tables).is_clean }
    {
        if self.tables.is_broken() {
            return Err(StoreError::Broken);
        }
        save(
            &mut self.tables,
            self.alloc,
            &self.objects,
            &self.changes,
            edits,
        )?;
        self.changes = Changes::none(self.alloc);
        Ok(())
    }

    /// The rows of the session map, as the tables have them. Takes memory for all of them.
    pub fn session_rows(&mut self) -> Result<Pairs, ReadFault>
        ensures rows { IfOk result (λ rows. IsClean (T.Store.view self.new.tables)
            → StoresRows (T.Store.recovers self.new.tables) rows) }
        ensures alone { IfOk result (λ rows. IsClean (T.Store.view self.new.tables) → (others : SessionRows)
            → StoresRows (T.Store.recovers self.old.tables) others → rows ≡ others) }
        ensures objects { self.new.objects ≡ self.old.objects }
        ensures noted { self.new.noted ≡ self.old.noted }
        ensures crash { (db : Rows) → T.Store.recovers self.new.tables db → T.Store.recovers self.old.tables db }
        ensures clean { doubt (T.Store.view self.old.tables).is_clean ≤ doubt (T.Store.view self.new.tables).is_clean }
    {
        if self.tables.is_broken() {
            return Err(ReadFault::Store(StoreError::Broken));
        }
        read_session_rows(&mut self.tables, self.alloc)
    }

    /// The law of every kept store, told of this one.
    pub fn is_mirrored(&self)
        ensures { IsClean (T.Store.view self.now.tables)
            → IsMirrored (T.Store.view self.now.tables) (T.Store.recovers self.now.tables) self.now.objects self.now.noted }
    {
        let _ = &self.alloc;
    }

    /// The tables.
    pub fn into_tables(self) -> T
        ensures { result ≡ self.tables }
    {
        let Kept {
            objects: _,
            changes: _,
            tables,
            alloc: _,
        } = self;
        tables
    }
}

impl<T: Settle + Drop> Kept<T> {
    /// Gathers all that was kept in one place, such as a file whose log is empty. A crash leaves only what it could
    /// leave before.
    pub fn settle(&mut self) -> Result<(), StoreError>
        ensures objects { self.new.objects ≡ self.old.objects }
        ensures noted { self.new.noted ≡ self.old.noted }
        ensures crash { (db : Rows) → T.Store.recovers self.new.tables db → T.Store.recovers self.old.tables db }
        ensures clean { doubt (T.Store.view self.old.tables).is_clean ≤ doubt (T.Store.view self.new.tables).is_clean }
    {
        self.tables.settle()
    }
}

impl<T: Reopen + Drop> Kept<T> {
    /// Reopens the store after a crash, over a disk that can be made to crash. The objects are those that one of the
    /// crash's outcomes spells. If nothing was noted, they are exactly the objects from before. Its session map is that of the same
    /// outcome.
    pub fn revive(self, alloc: Global) -> Result<Kept<T>, ReadFault>
        ensures found { IfOk result (λ k. IsClean (T.Store.view k.tables) → RecoversObjects (T.Store.recovers self.tables) k.objects) }
        ensures back { IfOk result (λ k. IsClean (T.Store.view k.tables) → self.noted ≡ none_noted → k.objects ≡ self.objects) }
        ensures kept { IfOk result (λ k. k.noted ≡ none_noted) }
        ensures outcome { IfOk result (λ k. IsClean (T.Store.view k.tables)
            → FindsOutcome (T.Store.recovers self.tables) (T.Store.recovers k.tables) k.objects) }
    {
        self.is_mirrored();
        let mut tables = self.into_tables();
        tables.crash_and_reopen()?;
        if !has_tables(&tables) {
            return Err(ReadFault::Row);
        }
        match Kept::open(alloc, tables) {
            Ok(kept) => Ok(kept),
            Err((fault, _)) => Err(fault),
        }
    }
}

impl<T: Trees + Drop> Store for Kept<T> {
    ghost objects = { λ s. s.objects };

    ghost faults = { λ _. 0 };

    // Only `keep` and `settle` change the tables.
    ghost IsCall = { λ old _ new. new.tables ≡ old.tables };

    fn header(&mut self, alloc: Global, name: &str) -> Result<Option<Bytes>, Refusal> {
        self.objects.header(alloc, name)
    }

    fn page(
        &mut self,
        alloc: Global,
        name: &str,
        after: Option<&Bytes>,
        max: usize,
    ) -> Result<Option<Page>, Refusal> {
        self.objects.page(alloc, name, after, max)
    }

    fn apply(&mut self, alloc: Global, name: &str, op: &WriteOp) -> Result<(), Refusal> {
        if note_write(&mut self.changes, self.alloc, &self.objects, name, op).is_err() {
            return Err(Refusal::NoMemory);
        }
        self.objects.apply(alloc, name, op)
    }

    fn remove(&mut self, name: &str) -> Result<(), Refusal> {
        if note_object(&mut self.changes, self.alloc, &self.objects, name).is_err() {
            return Err(Refusal::NoMemory);
        }
        self.objects.remove(name)
    }

    fn names_page(
        &mut self,
        alloc: Global,
        after: Option<&str>,
        max: usize,
    ) -> Result<NamePage, Refusal> {
        self.objects.names_page(alloc, after, max)
    }
}

impl<T: Settle + Drop> Keep for Kept<T> {
    ghost may_fail = { Unit {0} };

    ghost has_rows = { true };

    ghost Takes = { TakesEdits T.Store.view T.Store.recovers };

    ghost faultless = { λ _ _. 0 };

    fn memory(&self) -> &MemStore {
        &self.objects
    }

    fn keeps_rows(&self) -> bool {
        true
    }

    fn keep(&mut self, edits: &[RowEdit]) -> Result<(), Unkept> {
        match Kept::keep(self, edits) {
            Ok(()) => {
                self.is_mirrored();
                Ok(())
            }
            Err(error) => Err(unkept(error)),
        }
    }

    fn settle(&mut self) -> Result<(), Unkept> {
        match Kept::settle(self) {
            Ok(()) => Ok(()),
            Err(error) => Err(unkept(error)),
        }
    }
}

// The public form of an error of the tables. Broken tables are reported as shut: each failed `save` is rolled back, so
// tables are broken only if another open must mend them. A row of over a billion bytes is reported as full.
fn unkept(error: StoreError) -> Unkept
    ensures { result ≡ unkept_of error }
{
    match error {
        StoreError::OutOfMemory => Unkept::NoMemory,
        StoreError::Full | StoreError::Unstorable => Unkept::Full,
        StoreError::Io => Unkept::Io,
        StoreError::Corrupt => Unkept::Corrupt,
        StoreError::Broken => Unkept::Shut,
    }
}
