//! The write of a snapshot.
ghost use Rattle.std.specs.Prelude.{◌≡◌, IfOk, IfSome, OnOk};
ghost use Rattle.dirfrag_codec.specs.EntryRecord.{HasRecord};
ghost use Rattle.dirfrag_codec.specs.FragHeader.{header_bytes};
ghost use Rattle.cached_frag.specs.Commit.{gone_of, header_of_commit, removed_on, set_of, with_key, with_record, write_of};

use crate::bases::Base;
use crate::dirty_names::DirtyNames;
use crate::marks::Mark;
use crate::snapshots::Snapshot;
use dirfrag_codec::{FragHeader, encode_entry, encode_header};
use mds_types::{Bytes, Name};
use objstore::{KeySet, Pairs, WriteOp, key_of};
use std::alloc::{AllocError, Global};

/// The write of a snapshot: on an object that counts the header, the dirty present names and a removal of the dirty
/// removed ones; on any other a clear, the header and the names.
pub fn write_of(alloc: Global, snapshot: &Snapshot) -> Result<WriteOp, AllocError>
    ensures { IfOk result (λ op. op ≡ write_of snapshot.now) }
{
    let base = snapshot.base();
    let (set, remove) = changes_of(alloc, snapshot)?;
    match header_after(alloc, snapshot) {
        Ok(header) => Ok(WriteOp {
            clear: base.is_fresh(),
            header: Some(header),
            set,
            remove,
        }),
        Err(refused) => {
            drop(set);
            drop(remove);
            Err(refused)
        }
    }
}

// What the write of a snapshot sets, and what it removes.
fn changes_of(alloc: Global, snapshot: &Snapshot) -> Result<(Pairs, KeySet), AllocError>
    ensures { IfOk result (λ changes. (changes.0 ≡ set_of snapshot.now.names)
        × (changes.1 ≡ removed_on snapshot.now.base snapshot.now.names)) }
{
    let set = set_of(alloc, snapshot.names())?;
    match removed_on(alloc, snapshot.base(), snapshot.names()) {
        Ok(remove) => Ok((set, remove)),
        Err(refused) => {
            drop(set);
            Err(refused)
        }
    }
}

// The bytes of the header that a commit of the snapshot writes.
fn header_after(alloc: Global, snapshot: &Snapshot) -> Result<Bytes, AllocError>
    ensures { IfOk result (λ bytes. bytes ≡ header_bytes (header_of_commit snapshot.now)) }
{
    let counts = snapshot.counts();
    let header = FragHeader {
        version: snapshot.base().next_version(),
        files: counts.files,
        dirs: counts.dirs,
    };
    Bytes::from_vec(alloc, encode_header(alloc, &header)?)
}

// The records of the present names under their keys.
#[tactic(auto, unfolding(crate::specs::Commit::set_of))]
fn set_of(alloc: Global, names: &DirtyNames) -> Result<Pairs, AllocError>
    ensures { IfOk result (λ set. set ≡ set_of names.now) }
{
    let mut set = Pairs::new(alloc);
    for (name, mark) in names.as_map() {
        put_record(alloc, &mut set, name, mark)?;
    }
    Ok(set)
}

// Puts the record of a name that is present under its key.
fn put_record(alloc: Global, set: &mut Pairs, name: &Name, mark: &Mark) -> Result<(), AllocError>
    requires { IfSome mark.now.inode HasRecord }
    ensures { OnOk result (set.new ≡ with_record set.old name.now mark.now.inode) }
{
    match &mark.inode {
        Some(inode) => {
            let record = Bytes::from_vec(alloc, encode_entry(alloc, inode)?)?;
            set.put(key_of(alloc, name)?, record)
        }
        None => Ok(()),
    }
}

// The keys that a commit removes: those of the removed names, where the object isn't cleared.
fn removed_on(alloc: Global, base: Base, names: &DirtyNames) -> Result<KeySet, AllocError>
    ensures { IfOk result (λ keys. keys ≡ removed_on base names.now) }
{
    if base.is_fresh() {
        return Ok(KeySet::new(alloc));
    }
    gone_of(alloc, names)
}

// The keys of the removed names.
#[tactic(auto, unfolding(crate::specs::Commit::gone_of))]
fn gone_of(alloc: Global, names: &DirtyNames) -> Result<KeySet, AllocError>
    ensures { IfOk result (λ keys. keys ≡ gone_of names.now) }
{
    let mut keys = KeySet::new(alloc);
    for (name, mark) in names.as_map() {
        put_gone(alloc, &mut keys, name, mark)?;
    }
    Ok(keys)
}

// Puts the key of a name that was removed.
fn put_gone(alloc: Global, keys: &mut KeySet, name: &Name, mark: &Mark) -> Result<(), AllocError>
    ensures { OnOk result (keys.new ≡ with_key keys.old name.now mark.now.inode) }
{
    match &mark.inode {
        Some(_) => Ok(()),
        None => keys.put(key_of(alloc, name)?),
    }
}
