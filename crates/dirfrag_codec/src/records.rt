//! The record of a directory entry.
ghost use Rattle.std.specs.Prelude.{◌≡◌, ◌<◌, ◌≤◌, ◌^◌, ◌∷◌, [], IfOk, OnErr, length};
ghost use Rattle.mds_types.specs.Name.{IsTarget};
ghost use Rattle.dirfrag_codec.specs.EntryRecord.{HasWidths, IsRecordable, SpellsEntry, SpellsLink, WritesEntry, WritesLink, kind_byte, pin_byte, target_bytes, widths_front};
ghost use Rattle.dirfrag_codec.specs.Grammar.{Decodes};
ghost use Rattle.dirfrag_codec.specs.Reading.{Gives, IsFieldsOfLink, IsInodeOf, IsKindOf, IsPinOf, RecordFields, fields_at, fields_at_v1, fields_at_v2, fits_kind, numbers_at};
ghost use Rattle.dirfrag_codec.specs.Values.{inode_of_record, written_of};

use crate::fields::{put_u16, put_u32, put_u64, u8_at, u16_at, u32_at, u64_at, version_at};
use crate::recordable::{RANKS, is_rank_number};
use mds_types::{Ino, Inode, Kind, Mode, Rank, Target, TargetFault};
use std::alloc::{AllocError, Global};

// How a record begins: its letter, and a version. The first is read, the second read and written.
const LETTER: u8 = b'I';

const FIRST: u8 = 1;

const SECOND: u8 = 2;

// How many bytes stand before the target in what is written.
const FRONT_LEN: usize = 40;

// The byte of a directory that has no pin, and of all that is none.
const NO_PIN: u8 = 255;

// The bytes of the kinds.
const FILE: u8 = 1;

const DIR: u8 = 2;

const SYMLINK: u8 = 3;

/// The bytes of an inode's record. Takes memory for them.
pub fn encode_entry(alloc: Global, inode: &Inode) -> Result<Vec<u8>, AllocError>
    requires { IsRecordable inode.now }
    ensures { IfOk result (λ bytes. WritesEntry bytes.items inode.now) }
{
    let target = target_of(&inode.kind);
    let mut bytes = Vec::with_capacity(alloc, FRONT_LEN + target.len())?;
    bytes.extend_from_slice(&[LETTER, SECOND, kind_byte(&inode.kind)])?;
    put_u64(&mut bytes, inode.ino.0)?;
    put_u16(&mut bytes, inode.mode.bits())?;
    put_u64(&mut bytes, inode.size)?;
    put_u64(&mut bytes, inode.mtime)?;
    put_u32(&mut bytes, inode.uid)?;
    put_u32(&mut bytes, inode.gid)?;
    bytes.push(pin_byte(inode.pin))?;
    put_u16(&mut bytes, target.len() as u16)?;
    bytes.extend_from_slice(target)?;
    Ok(bytes)
}

/// The inode whose record these bytes are; none, where they are no record. Takes memory for a link's target alone, so
/// there is an error for links' records alone.
pub fn decode_entry(alloc: Global, bytes: &[u8]) -> Result<Option<Inode>, AllocError>
    ensures spelled { IfOk result (Decodes SpellsEntry bytes.now) }
    ensures value { IfOk result (λ answer. answer ≡ inode_of_record bytes.now) }
    ensures memory { OnErr result (SpellsLink bytes.now) }
{
    match fields_of(bytes) {
        Some(fields) => inode_of(alloc, fields),
        None => Ok(None),
    }
}

/// The inode whose record these bytes are in the version that is written; none, where they are another version's or no
/// record. Takes memory for a link's target alone.
pub fn decode_written(alloc: Global, bytes: &[u8]) -> Result<Option<Inode>, AllocError>
    ensures spelled { IfOk result (Decodes WritesEntry bytes.now) }
    ensures value { IfOk result (λ answer. answer ≡ written_of bytes.now) }
    ensures memory { OnErr result (WritesLink bytes.now) }
{
    let Some((version, _)) = version_at(bytes, LETTER) else {
        return Ok(None);
    };
    if version != SECOND {
        return Ok(None);
    }
    decode_entry(alloc, bytes)
}

/// What holds of an inode's numbers: a law of the types, so there is nothing to do.
pub fn has_widths(inode: &Inode)
    ensures { HasWidths inode.now }
{
    have_64_bits(inode.size, inode.mtime);
    have_32_bits(inode.uid, inode.gid);
}

fn have_64_bits(size: u64, mtime: u64)
    ensures size { size < 2 ^ 64 }
    ensures mtime { mtime < 2 ^ 64 }
{
    let _ = size;
    let _ = mtime;
}

fn have_32_bits(uid: u32, gid: u32)
    ensures uid { uid < 2 ^ 32 }
    ensures gid { gid < 2 ^ 32 }
{
    let _ = uid;
    let _ = gid;
}

// What records of every version begin with.
#[derive(Clone, Copy)]
struct Front {
    kind: u8,
    ino: u64,
    mode: u16,
    size: u64,
    mtime: u64,
}

// The fields of a record, whatever they mean; of version 1 with no owner, no group and no pin.
#[derive(Clone, Copy)]
struct Fields<'a> {
    front: Front,
    uid: u32,
    gid: u32,
    pin: u8,
    target: &'a [u8],
}

// The fields that stand in the bytes, and nothing after them.
#[tactic(auto, unfolding(crate::specs::Reading::fields_at))]
fn fields_of(bytes: &[u8]) -> Option<Fields<'_>>
    ensures { Gives (λ f. record {
      kind = f.front.kind;
      ino = f.front.ino;
      mode = f.front.mode;
      size = f.front.size;
      mtime = f.front.mtime;
      uid = f.uid;
      gid = f.gid;
      pin = f.pin;
      target = f.target.now;
    }) result (fields_at bytes.now) }
{
    let (version, rest) = version_at(bytes, LETTER)?;
    match version {
        FIRST => first_fields_of(rest),
        SECOND => second_fields_of(rest),
        _ => None,
    }
}

// What stands behind the letter and the version, and the bytes after it.
fn front_of(bytes: &[u8]) -> Option<(Front, &[u8])>
    ensures { Gives (λ x. (x.0.kind ∷ x.0.ino ∷ x.0.mode ∷ x.0.size ∷ x.0.mtime ∷ [], x.1.now)) result
        (numbers_at widths_front bytes.now) }
{
    let (kind, rest) = u8_at(bytes)?;
    let (ino, rest) = u64_at(rest)?;
    let (mode, rest) = u16_at(rest)?;
    let (size, rest) = u64_at(rest)?;
    let (mtime, rest) = u64_at(rest)?;
    let front = Front {
        kind,
        ino,
        mode,
        size,
        mtime,
    };
    Some((front, rest))
}

// The fields behind the letter and version 1.
fn first_fields_of(bytes: &[u8]) -> Option<Fields<'_>>
    ensures { Gives (λ f. record {
      kind = f.front.kind;
      ino = f.front.ino;
      mode = f.front.mode;
      size = f.front.size;
      mtime = f.front.mtime;
      uid = f.uid;
      gid = f.gid;
      pin = f.pin;
      target = f.target.now;
    }) result (fields_at_v1 bytes.now) }
{
    let (front, rest) = front_of(bytes)?;
    let (stated, target) = u16_at(rest)?;
    if target.len() != usize::from(stated) {
        return None;
    }
    Some(Fields {
        front,
        uid: 0,
        gid: 0,
        pin: NO_PIN,
        target,
    })
}

// The fields behind the letter and version 2.
fn second_fields_of(bytes: &[u8]) -> Option<Fields<'_>>
    ensures { Gives (λ f. record {
      kind = f.front.kind;
      ino = f.front.ino;
      mode = f.front.mode;
      size = f.front.size;
      mtime = f.front.mtime;
      uid = f.uid;
      gid = f.gid;
      pin = f.pin;
      target = f.target.now;
    }) result (fields_at_v2 bytes.now) }
{
    let (front, rest) = front_of(bytes)?;
    let (uid, rest) = u32_at(rest)?;
    let (gid, rest) = u32_at(rest)?;
    let (pin, rest) = u8_at(rest)?;
    let (len, target) = u16_at(rest)?;
    if target.len() != usize::from(len) {
        return None;
    }
    Some(Fields {
        front,
        uid,
        gid,
        pin,
        target,
    })
}

// The inode of these fields, if a record allows it. Takes memory only where it does.
fn inode_of(alloc: Global, fields: Fields<'_>) -> Result<Option<Inode>, AllocError>
    ensures ok { IfOk result (IsInodeOf (record {
      kind = fields.entry.front.kind;
      ino = fields.entry.front.ino;
      mode = fields.entry.front.mode;
      size = fields.entry.front.size;
      mtime = fields.entry.front.mtime;
      uid = fields.entry.uid;
      gid = fields.entry.gid;
      pin = fields.entry.pin;
      target = fields.entry.target.now;
    })) }
    ensures memory { OnErr result (IsFieldsOfLink (record {
      kind = fields.entry.front.kind;
      ino = fields.entry.front.ino;
      mode = fields.entry.front.mode;
      size = fields.entry.front.size;
      mtime = fields.entry.front.mtime;
      uid = fields.entry.uid;
      gid = fields.entry.gid;
      pin = fields.entry.pin;
      target = fields.entry.target.now;
    })) }
{
    let Some(mode) = Mode::new(fields.front.mode) else {
        return Ok(None);
    };
    if !fits_kind(&fields) {
        return Ok(None);
    }
    let Some(pin) = pin_of(fields.front.kind, fields.pin) else {
        return Ok(None);
    };
    let Some(kind) = kind_of(alloc, fields.front.kind, fields.target)? else {
        return Ok(None);
    };
    Ok(Some(Inode {
        ino: Ino(fields.front.ino),
        kind,
        mode,
        size: fields.front.size,
        mtime: fields.front.mtime,
        uid: fields.uid,
        gid: fields.gid,
        pin,
    }))
}

// Whether a record allows the number, and the size for the kind.
fn fits_kind(fields: &Fields<'_>) -> bool
    ensures { result ≡ fits_kind (record {
      kind = fields.now.front.kind;
      ino = fields.now.front.ino;
      mode = fields.now.front.mode;
      size = fields.now.front.size;
      mtime = fields.now.front.mtime;
      uid = fields.now.uid;
      gid = fields.now.gid;
      pin = fields.now.pin;
      target = fields.now.target.now;
    }) }
{
    let has_size = match fields.front.kind {
        DIR => fields.front.size == 0,
        SYMLINK => fields.front.size == fields.target.len() as u64,
        _ => true,
    };
    is_rank_number(fields.front.ino) && has_size
}

// The kind of this byte with this target.
fn kind_of(alloc: Global, byte: u8, target: &[u8]) -> Result<Option<Kind>, AllocError>
    ensures ok { IfOk result (IsKindOf byte target.now) }
    ensures memory { OnErr result ((byte ≡ 3) × IsTarget target.now) }
{
    if byte == SYMLINK {
        return match Target::from_bytes(alloc, target) {
            Ok(target) => Ok(Some(Kind::Symlink(target))),
            Err(TargetFault::NoMemory) => Err(AllocError),
            Err(_) => Ok(None),
        };
    }
    if !target.is_empty() {
        return Ok(None);
    }
    match byte {
        FILE => Ok(Some(Kind::File)),
        DIR => Ok(Some(Kind::Dir)),
        _ => Ok(None),
    }
}

// The pin of this byte in a record of this kind: a rank stands on a directory alone.
fn pin_of(kind: u8, byte: u8) -> Option<Option<Rank>>
    ensures { IsPinOf kind byte result }
{
    if byte == NO_PIN {
        return Some(None);
    }
    if kind == DIR && byte < RANKS {
        return Some(Some(Rank(byte)));
    }
    None
}

// The byte of a pin.
fn pin_byte(pin: Option<Rank>) -> u8
    ensures { result ≡ pin_byte pin }
{
    match pin {
        Some(rank) => rank.0,
        None => NO_PIN,
    }
}

// The byte of a kind.
fn kind_byte(kind: &Kind) -> u8
    ensures { result ≡ kind_byte kind.now }
{
    match kind {
        Kind::File => FILE,
        Kind::Dir => DIR,
        Kind::Symlink(_) => SYMLINK,
    }
}

// What a link points to; nothing for the other kinds.
fn target_of(kind: &Kind) -> &[u8]
    ensures target { result.now ≡ target_bytes kind.now }
    ensures short { length result.now ≤ 4095 }
{
    match kind {
        Kind::File | Kind::Dir => &[],
        Kind::Symlink(target) => target.as_bytes(),
    }
}
