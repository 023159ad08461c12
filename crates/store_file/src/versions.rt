//! The version of the tables, which stands in the file as SQLite's `user_version`.
ghost use Rattle.std.specs.Prelude.{OnOk};
ghost use Rattle.sqlite_trees.specs.View.{IsClean};
ghost use Rattle.sqlite_store.specs.FileStore.{view};
ghost use Rattle.kept_store.specs.Kept.{IsFreshMirror};

use crate::faults::OpenFault;
use sqlite_disk::Disk;
use sqlite_store::FileStore;
use sqlite_trees::error::StoreError;
use sqlite_trees::store::{Alter, Store};

/// The version of a file that this program made. Each of its pages ends in a sum. One that another program made with the
/// same tables has no sums, and SQLite's own version 0: so no flipped bit of the header turns the one into the other.
pub const VERSION: u32 = 1;

/// Why a store of this version is refused, if it is.
pub fn version_fault(has_sums: bool, version: u32) -> Option<OpenFault> {
    match (has_sums, version) {
        (true, VERSION) | (_, 0) => None,
        (false, VERSION) => Some(OpenFault::Damaged),
        (_, version) => Some(OpenFault::Version(version)),
    }
}

/// Looks at the version of a store that was opened, and gives one that was just made its own. Then the log is put into
/// the file.
pub fn versioned<D: Disk + Drop>(store: &mut FileStore<D>, has_sums: bool) -> Result<(), OpenFault>
    requires { IsClean (view store.old) → IsFreshMirror (view store.old) }
    ensures { OnOk result (IsClean (view store.new) → IsFreshMirror (view store.new)) }
{
    if let Some(fault) = version_fault(has_sums, store.version()) {
        return Err(fault);
    }
    if has_sums && store.version() != VERSION {
        set_version(store)?;
    }
    store.checkpoint()?;
    Ok(())
}

// Gives a store that has none its version, in a transaction of its own.
fn set_version<D: Disk + Drop>(store: &mut FileStore<D>) -> Result<(), StoreError>
    requires { IsClean (view store.old) → IsFreshMirror (view store.old) }
    ensures { OnOk result (IsClean (view store.new) → IsFreshMirror (view store.new)) }
{
    store.set_version(VERSION)?;
    store.commit()
}
