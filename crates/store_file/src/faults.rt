//! Why a file can't be opened.
use sqlite_disk::Tally;
use sqlite_store::{OpenError, name_fault};
use sqlite_trees::error::StoreError;
use std::alloc::AllocError;
use std::io;
use thiserror::Error;

/// Why a file can't be opened as a store. The file is as it was, but for one that was about to be made.
#[derive(Clone, Copy, Debug, Error)]
pub enum OpenFault {
    #[error("no such folder")]
    NoFolder,
    #[error("no permission to read and write the file, or to make a file in its folder")]
    Denied,
    /// The system refuses for another reason.
    #[error("{0}")]
    System(io::Error),
    #[error("is a directory")]
    Directory,
    /// A device, a link to nothing, or a file of several names: the log of a database goes by its name.
    #[error("is no regular file of one name")]
    Special,
    #[error("is read-only")]
    ReadOnly,
    #[error("is held by another process")]
    Busy,
    /// Another program began a change that only sqlite3 can end.
    #[error("has a rollback journal: open it with sqlite3 first")]
    Journal,
    /// It has fewer bytes than any database, or none beside a log that has some.
    #[error("is cut short")]
    CutShort,
    #[error("is no database")]
    NotDatabase,
    /// A database with other tables, or with more.
    #[error("is a database of something else")]
    Foreign,
    /// Its `user_version` is none of this program's.
    #[error("is of version {0}, which this program doesn't know")]
    Version(u32),
    /// A page fails its sum, or the pages make no sound database.
    #[error("has a damaged page")]
    Damaged,
    #[error("the disk failed to read or write")]
    Io,
    #[error("the disk is full")]
    Full,
    #[error("out of memory")]
    NoMemory,
}

impl From<AllocError> for OpenFault {
    fn from(_error: AllocError) -> OpenFault {
        OpenFault::NoMemory
    }
}

/// An error of the file system, by its kind.
impl From<io::Error> for OpenFault {
    fn from(error: io::Error) -> OpenFault {
        match error.kind() {
            io::ErrorKind::NotFound | io::ErrorKind::NotADirectory => OpenFault::NoFolder,
            io::ErrorKind::PermissionDenied => OpenFault::Denied,
            io::ErrorKind::Unsupported => OpenFault::Special,
            io::ErrorKind::ReadOnlyFilesystem => OpenFault::ReadOnly,
            io::ErrorKind::StorageFull | io::ErrorKind::QuotaExceeded => OpenFault::Full,
            io::ErrorKind::OutOfMemory => OpenFault::NoMemory,
            _ => OpenFault::System(error),
        }
    }
}

/// An error of a store that is open.
impl From<StoreError> for OpenFault {
    fn from(error: StoreError) -> OpenFault {
        match error {
            StoreError::OutOfMemory => OpenFault::NoMemory,
            StoreError::Corrupt => OpenFault::Damaged,
            StoreError::Full => OpenFault::Full,
            _ => OpenFault::Io,
        }
    }
}

/// Why a file isn't opened, by what its reads and writes met since `before`.
pub fn refused(error: OpenError, before: Tally, now: Tally) -> OpenFault {
    match error {
        OpenError::OutOfMemory => OpenFault::NoMemory,
        OpenError::Io => OpenFault::from(name_fault(before, now)),
        OpenError::Full => OpenFault::Full,
        OpenError::Refused => OpenFault::Damaged,
    }
}

/// Why a look at the files failed.
pub fn probed(error: sqlite_wal::Error) -> OpenFault {
    match error {
        sqlite_wal::Error::OutOfMemory => OpenFault::NoMemory,
        sqlite_wal::Error::Full => OpenFault::Full,
        sqlite_wal::Error::Io(_) => OpenFault::Io,
        _ => OpenFault::Damaged,
    }
}
