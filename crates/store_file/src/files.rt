//! A file by its path.
ghost use Rattle.std.specs.Prelude.{IfOk};
ghost use Rattle.sqlite_trees.specs.View.{IsClean};
ghost use Rattle.sqlite_store.specs.FileStore.{view};
ghost use Rattle.kept_store.specs.Kept.{IsFreshMirror};

use crate::faults::OpenFault;
use crate::opening::open_files;
use sqlite_disk::{Files, Start, Wary};
use sqlite_pager::Options;
use sqlite_std_file::{FileFrom, OpenError};
use sqlite_store::FileStore;
use std::hash::{BuildHasher, RandomState};
use std::{fs, io};

/// What a program opens: a file of which a crash may tear any range that was written since the last sync, so that each
/// commit syncs twice.
pub type StoreFile = FileStore<FileFrom<Wary>>;

/// Opens the store of this path, or makes it where there is no file, or an empty one. A program passes `Wary`. The log
/// lies beside the file while it is open, and isn't left beside one that is refused, unless it was there; one whose file
/// didn't exist stays, since it may have what the file has not.
pub fn open<S: Start>(
    rt: &HostRuntime,
    path: &str,
    start: S,
) -> Result<FileStore<FileFrom<S>>, OpenFault>
    ensures fresh { IfOk result (λ it. IsClean (view it) → IsFreshMirror (view it)) }
{
    if let Some(fault) = seen_fault(rt, path) {
        return Err(fault);
    }
    let had_log = has_log(rt, path);
    let files = match sqlite_std_file::open(rt, path, start) {
        Ok(files) => files,
        Err(OpenError::OutOfMemory) => return Err(OpenFault::NoMemory),
        Err(OpenError::Busy) => return Err(OpenFault::Busy),
        Err(OpenError::HotJournal) => return Err(OpenFault::Journal),
        Err(OpenError::Io(error)) => return Err(OpenFault::from(error)),
    };
    let Ok(random) = RandomState::new(rt) else {
        return Err(OpenFault::Io);
    };
    match open_files(rt.alloc(), files, Options::new(random.hash_one(&0u8))) {
        Ok(store) => Ok(store),
        Err((fault, files)) => {
            let Files { log, db } = files;
            drop(log);
            if !had_log {
                let _ = remove_log(rt, path);
            }
            // Until here nobody else opens the file, and so the log.
            drop(db);
            Err(fault)
        }
    }
}

/// Removes the log beside a store that was settled, so that the file alone is left. To be called last, while the store
/// is still there, since then no other process has the file open: what was written to the store since it was settled
/// would be lost.
pub fn remove_log(rt: &HostRuntime, path: &str) -> io::Result<()> {
    let real = fs::canonicalize(rt, path)?;
    let log = format!(in rt.alloc(); "{}-wal", real.as_str())?;
    fs::remove_file(rt, log.as_str())
}

// Whether there may be a log beside the file that another run left: one is taken to be there where the file isn't.
fn has_log(rt: &HostRuntime, path: &str) -> bool {
    let Ok(real) = fs::canonicalize(rt, path) else {
        return true;
    };
    let Ok(log) = format!(in rt.alloc(); "{}-wal", real.as_str()) else {
        return true;
    };
    fs::symlink_metadata(rt, log.as_str()).is_ok()
}

// What can be told of a path before it is opened: a directory, or a file that nobody may write.
fn seen_fault(rt: &HostRuntime, path: &str) -> Option<OpenFault> {
    let Ok(found) = fs::metadata(rt, path) else {
        return None;
    };
    if found.is_dir() {
        return Some(OpenFault::Directory);
    }
    if found.is_file() && found.permissions().readonly() {
        return Some(OpenFault::ReadOnly);
    }
    None
}
