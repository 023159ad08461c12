//! The keys of directory entries.
ghost use Rattle.std.specs.Prelude.{◌≡◌, IfOk, OnErr};
ghost use Rattle.objstore.specs.EntryKeys.{IsEntryKey, NamesKey, entry_key};

use mds_types::{Bytes, Name, NameFault};
use std::alloc::{AllocError, Global};

// What follows the name in a key: the entry of the file system as it is now, not of a snapshot.
const HEAD: &[u8] = b"_head";

/// The key that an entry of this name has in its fragment's object: the name and then `_head`. Takes memory for it.
pub fn key_of(alloc: Global, name: &Name) -> Result<Bytes, AllocError>
    ensures { IfOk result (λ key. key ≡ entry_key name.now) }
{
    let name = name.as_bytes();
    let mut key = Vec::with_capacity(alloc, name.len() + HEAD.len())?;
    key.extend_from_slice(name)?;
    key.extend_from_slice(HEAD)?;
    Bytes::from_vec(alloc, key)
}

/// The name whose key this is; none, where it is no name's key. Takes memory for the name: none for another key.
pub fn name_of(alloc: Global, key: &[u8]) -> Result<Option<Name>, AllocError>
    ensures named { IfOk result (NamesKey key.now) }
    ensures memory { OnErr result (IsEntryKey key.now) }
{
    let Some(front) = key.strip_suffix(HEAD) else {
        return Ok(None);
    };
    match Name::from_bytes(alloc, front) {
        Ok(name) => Ok(Some(name)),
        Err(NameFault::NoMemory) => Err(AllocError),
        Err(NameFault::Invalid | NameFault::TooLong) => Ok(None),
    }
}
