//! What two files hold, before anything is written.
ghost use Rattle.std.specs.Prelude.{◌≡◌, IsTrue, OnOk};

use crate::faults::{OpenFault, probed};
use crate::versions::VERSION;
use sqlite_disk::{Disk, Files};
use sqlite_pager::PageSize;
use sqlite_pool::probe_blank;
use sqlite_wal::{probe_frames, probe_page_size};
use std::alloc::Global;
use std::io;

/// What is there.
#[derive(Clone, Copy, Debug)]
pub enum Found {
    /// No database, or one that was begun and has no table: it is to be made.
    Nothing,
    /// A database with pages of this size, each with a sum or none.
    Database { size: PageSize, has_sums: bool },
}

// How many bytes of a database's header are looked at.
const HEADER: usize = 100;

// How each database begins.
const MAGIC: &[u8; 16] = b"SQLite format 3\0";

/// Looks at a database file and its log. Only a file that is missing or empty is new, and one that this program began to
/// make, which has a log beside it. Nothing is written.
pub fn look<D: Disk>(
    alloc: Global,
    files: &mut Files<D>,
    new_size: PageSize,
) -> Result<Found, OpenFault>
    requires log { IsTrue (D.Disk.is_usable files.old.log) }
    requires db { IsTrue (D.Disk.is_usable files.old.db) }
    ensures log { OnOk result (IsTrue (D.Disk.is_usable files.new.log)) }
    ensures db { OnOk result (IsTrue (D.Disk.is_usable files.new.db)) }
{
    let length = length_of(&mut files.db)?;
    let is_blank = match probe_blank(alloc, files, new_size, true) {
        Ok(is_blank) => is_blank,
        Err(error) => return Err(probed(error)),
    };
    if is_blank {
        return begun(alloc, files, new_size, length);
    }
    if length < HEADER {
        return Err(shortened(&mut files.db, length));
    }
    let size = match probe_page_size(files) {
        Ok(size) => size,
        Err(error) => return Err(of_read(error)),
    };
    let has_sums = match first_page_in_log(alloc, &mut files.log, size)? {
        Some(at) => read_header(&mut files.log, at)?,
        None => read_header(&mut files.db, 0)?,
    };
    match size {
        Some(size) => Ok(Found::Database { size, has_sums }),
        None => Err(OpenFault::Damaged),
    }
}

// How many bytes of a log lie before its first frame, and of a frame before its page: the format of SQLite's log.
const LOG_HEADER: usize = 32;

const FRAME_HEADER: usize = 24;

// Where the log has the first page that recovery will take, if it has one: a machine that stopped while the log was put
// into the file may have torn the first page there.
fn first_page_in_log<D: Disk>(
    alloc: Global,
    log: &mut D,
    size: Option<PageSize>,
) -> Result<Option<usize>, OpenFault>
    requires { IsTrue (D.Disk.is_usable log.old) }
    ensures { OnOk result (IsTrue (D.Disk.is_usable log.new)) }
{
    let Some(size) = size else {
        return Ok(None);
    };
    let frames = match probe_frames(alloc, log, size) {
        Ok(frames) => frames,
        Err(error) => return Err(probed(error)),
    };
    let Some(index) = frames.iter().rposition(|page| *page == 1) else {
        return Ok(None);
    };
    let Some(before) = index.checked_mul(FRAME_HEADER + size.bytes()) else {
        return Ok(None);
    };
    Ok(before.checked_add(LOG_HEADER + FRAME_HEADER))
}

// Why a file that is too short for a database is refused: it begins as one, or not.
fn shortened<D: Disk>(db: &mut D, length: usize) -> OpenFault
    requires { IsTrue (D.Disk.is_usable db.old) }
{
    let mut start = [0; MAGIC.len()];
    let count = length.min(MAGIC.len());
    if let Err(error) = db.read_at(0, &mut start[..count]) {
        return of_read(error);
    }
    if MAGIC.starts_with(&start[..count]) {
        OpenFault::CutShort
    } else {
        OpenFault::NotDatabase
    }
}

// Of a file that counts as new: an empty one beside a log with pages has lost them, and one of some bytes was begun only
// where its log was begun too.
fn begun<D: Disk>(
    alloc: Global,
    files: &mut Files<D>,
    new_size: PageSize,
    length: usize,
) -> Result<Found, OpenFault>
    requires log { IsTrue (D.Disk.is_usable files.old.log) }
    requires db { IsTrue (D.Disk.is_usable files.old.db) }
    ensures log { OnOk result (IsTrue (D.Disk.is_usable files.new.log)) }
    ensures db { OnOk result (IsTrue (D.Disk.is_usable files.new.db)) }
{
    let logged = length_of(&mut files.log)?;
    let frames = match probe_frames(alloc, &mut files.log, new_size) {
        Ok(frames) => frames.len(),
        Err(error) => return Err(probed(error)),
    };
    if frames > 0 {
        return Err(OpenFault::CutShort);
    }
    if length > 0 && logged == 0 {
        return Err(shortened(&mut files.db, length));
    }
    Ok(Found::Nothing)
}

// Whether the pages of a database end in sums, by its header, which a file has there. Its version is looked at first.
fn read_header<D: Disk>(file: &mut D, at: usize) -> Result<bool, OpenFault>
    requires { IsTrue (D.Disk.is_usable file.old) }
    ensures { OnOk result (IsTrue (D.Disk.is_usable file.new)) }
{
    let mut header = [0; HEADER];
    if let Err(error) = file.read_at(at, &mut header) {
        return Err(of_read(error));
    }
    if !header.starts_with(MAGIC) {
        return Err(OpenFault::NotDatabase);
    }
    let version = u32::from_be_bytes([header[60], header[61], header[62], header[63]]);
    if version > VERSION {
        return Err(OpenFault::Version(version));
    }
    Ok(header[20] != 0)
}

fn length_of<D: Disk>(file: &mut D) -> Result<usize, OpenFault>
    requires { IsTrue (D.Disk.is_usable file.old) }
    ensures { IsTrue (D.Disk.is_usable file.new) }
{
    match file.len() {
        Ok(length) => Ok(length),
        Err(error) => Err(of_read(error)),
    }
}

fn of_read(_error: io::Error) -> OpenFault {
    OpenFault::Io
}
