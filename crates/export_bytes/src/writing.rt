//! The bytes of an export.
ghost use Rattle.std.specs.Prelude.{◌≡◌, ◌++◌, ◌∷◌, ◌<◌, ◌^◌, true, IfOk, IsTrue, OnOk, length};
ghost use Rattle.std.specs.List.{flat_map, list_all};
ghost use Rattle.byteorder.specs.Endian.{little_bytes};
ghost use Rattle.export_bytes.specs.Export.{SpellsExport, base_bytes, frag_bytes, inode_bytes, has_record, is_base_of, is_sendable, is_sent_frag, is_sent_name, name_bytes};

use crate::exports::{Export, SentFrag};
use cached_frag::Base;
use dirfrag_codec::encode_entry;
use dirfrag_codec::fields::{put_u16, put_u32, put_u64};
use mds_types::{Inode, Name};
use std::alloc::{AllocError, Global};

// How an export begins: its letter, and the version of the format.
pub(crate) const LETTER: u8 = b'X';

pub(crate) const VERSION: u8 = 2;

// The bytes of what became of a name.
pub(crate) const REMOVED: u8 = 0;

pub(crate) const PRESENT: u8 = 1;

// The bytes of bases.
pub(crate) const FRESH: u8 = 0;

pub(crate) const STORED: u8 = 1;

/// The bytes of an export. Takes memory for them.
pub fn encode_export(alloc: Global, export: &Export) -> Result<Vec<u8>, AllocError>
    requires { IsTrue (is_sendable export.now) }
    ensures { IfOk result (λ bytes. SpellsExport bytes.items export.now) }
{
    let frags = export.frags.as_slice();
    let mut bytes = Vec::new(alloc);
    bytes.extend_from_slice(&[LETTER, VERSION])?;
    put_u64(&mut bytes, export.ino.0)?;
    put_u32(&mut bytes, export.frag.word())?;
    bytes.extend_from_slice(&[export.exporter.0, export.importer.0])?;
    put_u32(&mut bytes, frags.len() as u32)?;
    put_frags(alloc, &mut bytes, frags)?;
    Ok(bytes)
}

// Appends fragments.
fn put_frags(alloc: Global, out: &mut Vec<u8>, frags: &[SentFrag]) -> Result<(), AllocError>
    requires { list_all is_sent_frag frags.now ≡ true }
    ensures { OnOk result (out.new.items ≡ out.old.items ++ flat_map frag_bytes frags.now) }
{
    for frag in frags {
        put_frag(alloc, out, frag)?;
    }
    Ok(())
}

// Appends a fragment.
fn put_frag(alloc: Global, out: &mut Vec<u8>, frag: &SentFrag) -> Result<(), AllocError>
    requires { is_sent_frag frag.now ≡ true }
    ensures { OnOk result (out.new.items ≡ out.old.items ++ frag_bytes frag.now) }
{
    let names = frag.names.as_slice();
    put_u64(out, frag.ino.0)?;
    put_u32(out, frag.frag.word())?;
    put_base(out, frag.base)?;
    put_u32(out, names.len() as u32)?;
    put_names(alloc, out, names)
}

// Appends what the object is to its fragment.
fn put_base(out: &mut Vec<u8>, base: Base) -> Result<(), AllocError>
    ensures { OnOk result (out.new.items ≡ out.old.items ++ base_bytes base) }
{
    let (byte, version) = match base {
        Base::Fresh => (FRESH, 0),
        Base::Stored(version) => (STORED, version),
    };
    out.push(byte)?;
    put_u64(out, version)
}

// Appends names.
fn put_names(
    alloc: Global,
    out: &mut Vec<u8>,
    names: &[(Name, Option<Inode>)],
) -> Result<(), AllocError>
    requires { list_all is_sent_name names.now ≡ true }
    ensures { OnOk result (out.new.items ≡ out.old.items ++ flat_map name_bytes names.now) }
{
    for name in names {
        put_name(alloc, out, name)?;
    }
    Ok(())
}

// Appends a name and what became of it.
fn put_name(
    alloc: Global,
    out: &mut Vec<u8>,
    name: &(Name, Option<Inode>),
) -> Result<(), AllocError>
    requires { is_sent_name name.now ≡ true }
    ensures { OnOk result (out.new.items ≡ out.old.items ++ name_bytes name.now) }
{
    let bytes = name.0.as_bytes();
    out.push(bytes.len() as u8)?;
    out.extend_from_slice(bytes)?;
    put_inode(alloc, out, &name.1)
}

// Appends what became of a name.
fn put_inode(alloc: Global, out: &mut Vec<u8>, inode: &Option<Inode>) -> Result<(), AllocError>
    requires { has_record inode.now ≡ true }
    ensures { OnOk result (out.new.items ≡ out.old.items ++ inode_bytes inode.now) }
{
    match inode {
        Some(inode) => {
            let record = encode_entry(alloc, inode)?;
            put_record(out, record.as_slice())
        }
        None => Ok(out.push(REMOVED)?),
    }
}

// Appends the record of a name that is there.
fn put_record(out: &mut Vec<u8>, record: &[u8]) -> Result<(), AllocError>
    requires { length record.now < 2 ^ 16 }
    ensures { OnOk result (out.new.items ≡ out.old.items ++ 1 ∷ (little_bytes 2 (length record.now) ++ record.now)) }
{
    out.push(PRESENT)?;
    put_u16(out, record.len() as u16)?;
    out.extend_from_slice(record)
}
