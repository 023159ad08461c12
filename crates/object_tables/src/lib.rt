//! Objects in two tables of a database: a row for each object with its header, a row for each of its pairs. Beside them the
//! session map has a table: rows of bytes, of which this crate knows nothing more. What changed of all three is brought
//! into the tables in one transaction, and all objects and rows are read out of them again.
#![tactic(auto)]

mod batches;
mod changes;
mod entries;
mod laws;
mod name_sets;
mod reading;
mod sessions;
mod tables;
mod writing;

pub use changes::Changes;
pub use entries::{add_entry, put_entry};
pub use laws::{objects_have_one_spelling, session_map_has_one_spelling};
pub use reading::{ReadFault, read_objects};
pub use sessions::read_session_rows;
pub use tables::{OBJECTS, PAIRS, SESSIONS, has_tables, objects_schema, schema, sessions_table};
pub use writing::{save, write_changes};
