//! The reply whose bytes these are.
ghost use Rattle.std.specs.Prelude.{◌≡◌, ◌∷◌, IfOk, IfSome, OnErr, get_or};
ghost use Rattle.dirfrag_codec.specs.Grammar.{Decodes};
ghost use Rattle.dirfrag_codec.specs.Reading.{Gives};
ghost use Rattle.reply_codec.specs.Reading.{InodeFields, bytes_at, counted_at, entry_name_at, errno_at, found_at, inode_said, kind_from, link_at, list_at, listed_at, listing_at, more_of, pin_from, plain_fields_at, plain_inode_at, reply_at, said_at, target_at};
ghost use Rattle.reply_codec.specs.ReplyBytes.{BeginsLink, ReadsIntoMemory, SpellsReply};
ghost use Rattle.reply_codec.specs.Values.{reply_from};

use crate::writing::{DIR, DONE, ENTRIES, ENTRY, ERRNO, FILE, SYMLINK, TARGET};
use dirfrag_codec::fields::{u8_at, u16_at, u32_at, u64_at};
use mds_types::{
    Ino, Inode, Kind, Listing, Mode, Name, NameFault, Rank, Reply, Target, TargetFault,
};
use std::alloc::{AllocError, Global};

/// The reply whose bytes these are; none, where they are no reply's. Takes memory for listings and targets alone, so
/// there is an error only where bytes begin as a listing, a target or a link's inode.
pub fn decode_reply(alloc: Global, bytes: &[u8]) -> Result<Option<Reply>, AllocError>
    ensures spelled { IfOk result (Decodes SpellsReply bytes.now) }
    ensures value { IfOk result (λ answer. answer ≡ reply_from bytes.now) }
    ensures memory { OnErr result (ReadsIntoMemory bytes.now) }
{
    let Some((reply, rest)) = reply_at(alloc, bytes)? else {
        return Ok(None);
    };
    if !rest.is_empty() {
        drop(reply);
        return Ok(None);
    }
    Ok(Some(reply))
}

// A reply, and the bytes after it.
#[tactic(auto, unfolding(crate::specs::Reading::reply_at))]
fn reply_at(alloc: Global, bytes: &[u8]) -> Result<Option<(Reply, &[u8])>, AllocError>
    ensures ok { IfOk result (λ answer. Gives (λ x. (x.0, x.1.now)) answer (reply_at bytes.now)) }
    ensures memory { OnErr result (ReadsIntoMemory bytes.now) }
{
    let Some((kind, rest)) = u8_at(bytes) else {
        return Ok(None);
    };
    said_at(alloc, kind, rest)
}

// The reply of this kind, and the bytes after it.
fn said_at(alloc: Global, kind: u8, bytes: &[u8]) -> Result<Option<(Reply, &[u8])>, AllocError>
    ensures ok { IfOk result (λ answer. Gives (λ x. (x.0, x.1.now)) answer (said_at kind bytes.now)) }
    ensures memory { OnErr result (ReadsIntoMemory (kind ∷ bytes.now)) }
{
    match kind {
        ENTRY => found_at(alloc, bytes),
        ENTRIES => listing_at(alloc, bytes),
        TARGET => link_at(alloc, bytes),
        DONE => Ok(Some((Reply::Done, bytes))),
        ERRNO => Ok(errno_at(bytes)),
        _ => Ok(None),
    }
}

// The reply that is an inode, and the bytes after it.
#[tactic(auto, unfolding(crate::specs::Reading::found_at))]
fn found_at(alloc: Global, bytes: &[u8]) -> Result<Option<(Reply, &[u8])>, AllocError>
    ensures ok { IfOk result (λ answer. Gives (λ x. (x.0, x.1.now)) answer (found_at bytes.now)) }
    ensures memory { OnErr result (BeginsLink bytes.now) }
{
    let Some((inode, rest)) = plain_inode_at(alloc, bytes)? else {
        return Ok(None);
    };
    Ok(Some((Reply::Entry(inode), rest)))
}

// The reply that is a listing, and the bytes after it.
#[tactic(auto, unfolding(crate::specs::Reading::listing_at))]
fn listing_at(alloc: Global, bytes: &[u8]) -> Result<Option<(Reply, &[u8])>, AllocError>
    ensures { IfOk result (λ answer. Gives (λ x. (x.0, x.1.now)) answer (listing_at bytes.now)) }
{
    let Some((byte, rest)) = u8_at(bytes) else {
        return Ok(None);
    };
    let Some(more) = more_of(byte) else {
        return Ok(None);
    };
    let Some((count, rest)) = u64_at(rest) else {
        return Ok(None);
    };
    let Some((list, rest)) = list_at(alloc, rest, count)? else {
        return Ok(None);
    };
    Ok(Some((Reply::Entries { list, more }, rest)))
}

// The reply that is a target, and the bytes after it.
#[tactic(auto, unfolding(crate::specs::Reading::link_at))]
fn link_at(alloc: Global, bytes: &[u8]) -> Result<Option<(Reply, &[u8])>, AllocError>
    ensures { IfOk result (λ answer. Gives (λ x. (x.0, x.1.now)) answer (link_at bytes.now)) }
{
    let Some((target, rest)) = target_at(alloc, bytes)? else {
        return Ok(None);
    };
    Ok(Some((Reply::Target(target), rest)))
}

// The reply that is an error, and the bytes after it.
#[tactic(auto, unfolding(crate::specs::Reading::errno_at))]
fn errno_at(bytes: &[u8]) -> Option<(Reply, &[u8])>
    ensures { Gives (λ x. (x.0, x.1.now)) result (errno_at bytes.now) }
{
    let (number, rest) = u16_at(bytes)?;
    Some((Reply::Errno(number), rest))
}

// Whether further names follow, as a byte says it.
fn more_of(byte: u8) -> Option<bool>
    ensures { result ≡ more_of byte }
{
    match byte {
        0 => Some(false),
        1 => Some(true),
        _ => None,
    }
}

// So many names with their inodes, and the bytes after them.
fn list_at(alloc: Global, bytes: &[u8], count: u64) -> Result<Option<(Listing, &[u8])>, AllocError>
    ensures { IfOk result (λ answer. Gives (λ x. (x.0, x.1.now)) answer (list_at count bytes.now)) }
{
    let mut list = Vec::new(alloc);
    let mut rest = bytes;
    'names: while (list.len() as u64) < count {
        let Some((entry, after)) = listed_at(alloc, rest)? else {
            return Ok(None);
        };
        list.push(entry)?;
        rest = after;
    }
    Ok(Some((Listing::from_vec(list), rest)))
}

// A name with its inode, and the bytes after it.
#[tactic(auto, unfolding(crate::specs::Reading::listed_at))]
fn listed_at(alloc: Global, bytes: &[u8]) -> Result<Option<((Name, Inode), &[u8])>, AllocError>
    ensures { IfOk result (λ answer. Gives (λ x. (x.0, x.1.now)) answer (listed_at bytes.now)) }
{
    let Some((name, rest)) = entry_name_at(alloc, bytes)? else {
        return Ok(None);
    };
    let Some((inode, rest)) = plain_inode_at(alloc, rest)? else {
        return Ok(None);
    };
    Ok(Some(((name, inode), rest)))
}

// A name behind its length, and the bytes after it.
#[tactic(auto, unfolding(crate::specs::Reading::entry_name_at))]
fn entry_name_at(alloc: Global, bytes: &[u8]) -> Result<Option<(Name, &[u8])>, AllocError>
    ensures { IfOk result (λ answer. Gives (λ x. (x.0, x.1.now)) answer (entry_name_at bytes.now)) }
{
    let Some((text, rest)) = name_part(bytes) else {
        return Ok(None);
    };
    match Name::from_bytes(alloc, text) {
        Ok(name) => Ok(Some((name, rest))),
        Err(NameFault::NoMemory) => Err(AllocError),
        Err(_) => Ok(None),
    }
}

// A target behind its length, and the bytes after it.
#[tactic(auto, unfolding(crate::specs::Reading::target_at))]
fn target_at(alloc: Global, bytes: &[u8]) -> Result<Option<(Target, &[u8])>, AllocError>
    ensures { IfOk result (λ answer. Gives (λ x. (x.0, x.1.now)) answer (target_at bytes.now)) }
{
    let Some((text, rest)) = target_part(bytes) else {
        return Ok(None);
    };
    match Target::from_bytes(alloc, text) {
        Ok(target) => Ok(Some((target, rest))),
        Err(TargetFault::NoMemory) => Err(AllocError),
        Err(_) => Ok(None),
    }
}

// Bytes behind a length of 1 byte, and the bytes after them.
fn name_part(bytes: &[u8]) -> Option<(&[u8], &[u8])>
    ensures { Gives (λ x. (x.0.now, x.1.now)) result (counted_at 1 bytes.now) }
{
    let (len, rest) = u8_at(bytes)?;
    bytes_at(rest, usize::from(len))
}

// Bytes behind a length of 2 bytes, and the bytes after them.
fn target_part(bytes: &[u8]) -> Option<(&[u8], &[u8])>
    ensures { Gives (λ x. (x.0.now, x.1.now)) result (counted_at 2 bytes.now) }
{
    let (len, rest) = u16_at(bytes)?;
    bytes_at(rest, usize::from(len))
}

// So many bytes, and the bytes after them.
fn bytes_at(bytes: &[u8], len: usize) -> Option<(&[u8], &[u8])>
    ensures { Gives (λ x. (x.0.now, x.1.now)) result (bytes_at len bytes.now) }
{
    if bytes.len() < len {
        return None;
    }
    Some(bytes.split_at(len))
}

// An inode, and the bytes after it.
#[tactic(auto, unfolding(crate::specs::Reading::plain_inode_at))]
fn plain_inode_at(alloc: Global, bytes: &[u8]) -> Result<Option<(Inode, &[u8])>, AllocError>
    ensures ok { IfOk result (λ answer. Gives (λ x. (x.0, x.1.now)) answer (plain_inode_at bytes.now)) }
    ensures memory { OnErr result (BeginsLink bytes.now) }
{
    let Some((fields, rest)) = plain_fields_at(bytes) else {
        return Ok(None);
    };
    let Some(inode) = inode_said(alloc, fields)? else {
        return Ok(None);
    };
    Ok(Some((inode, rest)))
}

// The fields of an inode, whatever they mean.
#[derive(Clone, Copy)]
struct Fields<'a> {
    kind: u8,
    ino: u64,
    size: u64,
    mtime: u64,
    uid: u32,
    gid: u32,
    mode: u16,
    pin: u16,
    target: &'a [u8],
}

// The fields of an inode, and the bytes after them.
#[tactic(auto, unfolding(crate::specs::Reading::plain_fields_at))]
fn plain_fields_at(bytes: &[u8]) -> Option<(Fields<'_>, &[u8])>
    ensures fields { Gives (λ x. (
      record {
        kind = x.0.kind;
        ino = x.0.ino;
        size = x.0.size;
        mtime = x.0.mtime;
        uid = x.0.uid;
        gid = x.0.gid;
        mode = x.0.mode;
        pin = x.0.pin;
        target = x.0.target.now;
      },
      x.1.now,
    )) result (plain_fields_at bytes.now) }
    ensures first { IfSome result (λ x. get_or bytes.now 0 0 ≡ x.0.kind) }
{
    let (kind, rest) = u8_at(bytes)?;
    let (ino, rest) = u64_at(rest)?;
    let (size, rest) = u64_at(rest)?;
    let (mtime, rest) = u64_at(rest)?;
    let (uid, rest) = u32_at(rest)?;
    let (gid, rest) = u32_at(rest)?;
    let (mode, rest) = u16_at(rest)?;
    let (pin, rest) = u16_at(rest)?;
    let (target, rest) = target_part(rest)?;
    let fields = Fields {
        kind,
        ino,
        size,
        mtime,
        uid,
        gid,
        mode,
        pin,
        target,
    };
    Some((fields, rest))
}

// The inode of these fields; none, where no inode has them.
#[tactic(auto, unfolding(crate::specs::Reading::inode_said))]
fn inode_said(alloc: Global, fields: Fields<'_>) -> Result<Option<Inode>, AllocError>
    ensures ok { IfOk result (λ answer. answer ≡ inode_said (record {
      kind = fields.entry.kind;
      ino = fields.entry.ino;
      size = fields.entry.size;
      mtime = fields.entry.mtime;
      uid = fields.entry.uid;
      gid = fields.entry.gid;
      mode = fields.entry.mode;
      pin = fields.entry.pin;
      target = fields.entry.target.now;
    })) }
    ensures memory { OnErr result (fields.entry.kind ≡ 3) }
{
    let Some(mode) = Mode::new(fields.mode) else {
        return Ok(None);
    };
    let Some(pin) = pin_from(fields.pin) else {
        return Ok(None);
    };
    let Some(kind) = kind_from(alloc, fields.kind, fields.target)? else {
        return Ok(None);
    };
    Ok(Some(Inode {
        ino: Ino(fields.ino),
        kind,
        size: fields.size,
        mtime: fields.mtime,
        uid: fields.uid,
        gid: fields.gid,
        mode,
        pin,
    }))
}

// The kind of a byte, with the target of a link; the other kinds have none.
fn kind_from(alloc: Global, byte: u8, target: &[u8]) -> Result<Option<Kind>, AllocError>
    ensures ok { IfOk result (λ answer. answer ≡ kind_from byte target.now) }
    ensures memory { OnErr result (byte ≡ 3) }
{
    if byte == SYMLINK {
        return match Target::from_bytes(alloc, target) {
            Ok(target) => Ok(Some(Kind::Symlink(target))),
            Err(TargetFault::NoMemory) => Err(AllocError),
            Err(_) => Ok(None),
        };
    }
    if !target.is_empty() {
        return Ok(None);
    }
    match byte {
        FILE => Ok(Some(Kind::File)),
        DIR => Ok(Some(Kind::Dir)),
        _ => Ok(None),
    }
}

// The pin of a number.
fn pin_from(number: u16) -> Option<Option<Rank>>
    ensures { result ≡ pin_from number }
{
    if number == 0 {
        return Some(None);
    }
    match u8::try_from(number - 1) {
        Ok(rank) => Some(Some(Rank(rank))),
        Err(_) => None,
    }
}
