//! The pairs of an object, read as entries of a directory.
ghost use Rattle.std.specs.Prelude.{◌≡◌, IfOk};
ghost use Rattle.dirfrag_codec.specs.Values.{name_of_key};
ghost use Rattle.script_output.specs.ObjectEntries.{counted_header, is_dir_in};

use dirfrag_codec::{FragHeader, decode_entry};
use mds_types::{Bytes, Name};
use objstore::name_of;
use std::alloc::{AllocError, Global};

/// The header that a fragment of these pairs has at a commit version; none, where one of them is no entry's.
pub(crate) fn counted(
    alloc: Global,
    version: u64,
    pairs: &[(Bytes, Bytes)],
) -> Result<Option<FragHeader>, AllocError>
    ensures { IfOk result (λ header. header ≡ counted_header version pairs.now) }
{
    let mut files = 0;
    let mut dirs = 0;
    for (key, bytes) in pairs {
        match is_dir(alloc, key.as_slice(), bytes.as_slice())? {
            None => return Ok(None),
            Some(true) => dirs += 1,
            Some(false) => files += 1,
        }
    }
    Ok(Some(FragHeader {
        version,
        files,
        dirs,
    }))
}

// Whether the entry of a pair is a directory; none, where the pair is no entry's: its key is no name's, or its bytes
// are no record.
fn is_dir(alloc: Global, key: &[u8], bytes: &[u8]) -> Result<Option<bool>, AllocError>
    ensures { IfOk result (λ answer. answer ≡ is_dir_in (key.now, bytes.now)) }
{
    if named(alloc, key)?.is_none() {
        return Ok(None);
    }
    match decode_entry(alloc, bytes)? {
        Some(inode) => Ok(Some(inode.kind.is_dir())),
        None => Ok(None),
    }
}

// The name whose key this is.
fn named(alloc: Global, key: &[u8]) -> Result<Option<Name>, AllocError>
    ensures { IfOk result (λ name. name ≡ name_of_key key.now) }
{
    name_of(alloc, key)
}
