//! The three tables.
ghost use Rattle.std.specs.Prelude.{◌≡◌, ◌∷◌, [], IsTrue, codes, map};
ghost use Rattle.sqlite_value.specs.Keys.{plain};
ghost use Rattle.sqlite_trees.specs.declared.store.Shape.TheVariants.{Index};
ghost use Rattle.object_tables.specs.Spelled.{HasTables};

use sqlite_trees::schema::Object;
use sqlite_trees::store::{Shape, Store};
use sqlite_value::keys::Order;

/// The number of the table of objects, each with its header.
pub const OBJECTS: u32 = 0;

/// The number of the table of pairs.
pub const PAIRS: u32 = 1;

/// The number of the table of the session map.
pub const SESSIONS: u32 = 2;

/// What the database lists. Each table is WITHOUT ROWID, so it is one tree, in the order of its primary key.
pub fn schema() -> [Object<'static>; 3]
    ensures { map (λ o. o.shape) result ≡ Index plain ∷ Index plain ∷ Index plain ∷ [] }
{
    let [objects, pairs] = objects_schema();
    [objects, pairs, sessions_table()]
}

/// What a database lists that was made before there was a session map: the tables of objects and of pairs.
pub fn objects_schema() -> [Object<'static>; 2]
    ensures shapes { map (λ o. o.shape) result ≡ Index plain ∷ Index plain ∷ [] }
    ensures names { map (λ o. o.name.now) result ≡ codes "object" ∷ codes "omap" ∷ [] }
{
    [
        table(
            "object",
            "CREATE TABLE object (name TEXT NOT NULL PRIMARY KEY, header BLOB NOT NULL) WITHOUT ROWID",
        ),
        table(
            "omap",
            "CREATE TABLE omap (object TEXT NOT NULL, key TEXT NOT NULL, value BLOB NOT NULL, PRIMARY KEY (object, key)) WITHOUT ROWID",
        ),
    ]
}

/// The table of the session map.
pub fn sessions_table() -> Object<'static>
    ensures shape { result.shape ≡ Index plain }
    ensures name { result.name.now ≡ codes "session_map" }
{
    table(
        "session_map",
        "CREATE TABLE session_map (key BLOB NOT NULL PRIMARY KEY, value BLOB NOT NULL) WITHOUT ROWID",
    )
}

// A table WITHOUT ROWID.
fn table(name: &'static str, sql: &'static str) -> Object<'static>
    ensures shape { result.shape ≡ Index plain }
    ensures name { result.name.now ≡ name.now }
{
    Object {
        shape: Shape::Index(Order::PLAIN),
        kind: "table",
        name,
        table: name,
        reals: 0,
        sql: Some(sql),
    }
}

/// Whether a store has the three tables.
pub fn has_tables<T: Store>(trees: &T) -> bool
    ensures { IsTrue result → HasTables (T.Store.view trees.now) }
{
    is_table(trees.shape(OBJECTS))
        && is_table(trees.shape(PAIRS))
        && is_table(trees.shape(SESSIONS))
}

// Whether a tree's rows are in the order of their columns.
fn is_table(shape: Shape) -> bool
    ensures { IsTrue result → shape ≡ Index plain }
{
    match shape {
        Shape::Index(order) => order.digits == 0,
        _ => false,
    }
}
