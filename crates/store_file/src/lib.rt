//! The tables of objects and of the session map in a database file that sqlite3 opens: a file is made where there is none,
//! looked at before anything is written, and opened, or refused in words. It is held by one process at a time. While it is
//! open a log lies beside it, `FILE-wal`; a run that ends settles the store and removes the log, so that the file alone is
//! whole. A file that was made before there was a session map is given an empty one as it is opened.
#![tactic(auto)]

mod faults;
mod files;
mod looking;
mod opening;
mod versions;

pub use faults::OpenFault;
pub use files::{StoreFile, open, remove_log};
pub use opening::open_files;
pub use sqlite_disk::{Start, Unknown, Wary};
pub use sqlite_std_file::FileFrom;
pub use sqlite_store::FileStore;
