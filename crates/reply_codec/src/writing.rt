//! The bytes of a reply.
ghost use Rattle.std.specs.Prelude.{◌≡◌, ◌++◌, ◌∷◌, ◌≤◌, ◌<◌, ◌^◌, IfOk, OnOk, length};
ghost use Rattle.std.specs.List.{flat_map, AllByRecursion};
ghost use Rattle.byteorder.specs.Endian.{little_bytes};
ghost use Rattle.mds_types.specs.Name.{IsTarget};
ghost use Rattle.dirfrag_codec.specs.EntryRecord.{HasTarget, kind_byte, target_bytes};
ghost use Rattle.reply_codec.specs.ReplyBytes.{AreListedEntries, HasRank, IsInode, IsListed, IsReply, SpellsReply, counted_bytes, listed_bytes, listing_bytes, pin_number, plain_bytes, reply_bytes};

use dirfrag_codec::fields::{put_u16, put_u32, put_u64};
use dirfrag_codec::has_widths;
use mds_types::{Inode, Kind, Name, Rank, Reply, Target};
use std::alloc::{AllocError, Global};

// The bytes of the kinds of replies.
pub(crate) const ENTRY: u8 = 1;

pub(crate) const ENTRIES: u8 = 2;

pub(crate) const TARGET: u8 = 3;

pub(crate) const DONE: u8 = 4;

pub(crate) const ERRNO: u8 = 5;

// The bytes of the kinds of inodes.
pub(crate) const FILE: u8 = 1;

pub(crate) const DIR: u8 = 2;

pub(crate) const SYMLINK: u8 = 3;

/// The bytes of a reply. Takes memory for them.
pub fn encode_reply(alloc: Global, reply: &Reply) -> Result<Vec<u8>, AllocError>
    ensures { IfOk result (λ bytes. SpellsReply bytes.items reply.now) }
{
    let mut bytes = Vec::new(alloc);
    put_reply(&mut bytes, reply)?;
    Ok(bytes)
}

// Appends a reply.
fn put_reply(out: &mut Vec<u8>, reply: &Reply) -> Result<(), AllocError>
    ensures { OnOk result (IsReply reply.now × (out.new.items ≡ out.old.items ++ reply_bytes reply.now)) }
{
    match reply {
        Reply::Entry(inode) => put_entry(out, inode),
        Reply::Entries { list, more } => put_entries(out, list.as_slice(), *more),
        Reply::Target(target) => put_target(out, target),
        Reply::Done => Ok(out.push(DONE)?),
        Reply::Errno(number) => put_errno(out, *number),
    }
}

// Appends the reply that is an inode.
fn put_entry(out: &mut Vec<u8>, inode: &Inode) -> Result<(), AllocError>
    ensures { OnOk result (IsInode inode.now × (out.new.items ≡ out.old.items ++ 1 ∷ plain_bytes inode.now)) }
{
    out.push(ENTRY)?;
    put_inode(out, inode)
}

// Appends the reply that is a listing.
fn put_entries(out: &mut Vec<u8>, list: &[(Name, Inode)], more: bool) -> Result<(), AllocError>
    ensures { OnOk result (AreListedEntries list.now × (out.new.items ≡ out.old.items ++ 2 ∷ listing_bytes list.now more)) }
{
    out.extend_from_slice(&[ENTRIES, u8::from(more)])?;
    put_u64(out, list.len() as u64)?;
    put_list(out, list)
}

// Appends names with their inodes.
fn put_list(out: &mut Vec<u8>, list: &[(Name, Inode)]) -> Result<(), AllocError>
    ensures known { OnOk result (AllByRecursion IsListed list.now) }
    ensures bytes { OnOk result (out.new.items ≡ out.old.items ++ flat_map listed_bytes list.now) }
{
    for entry in list {
        put_listed(out, entry)?;
    }
    Ok(())
}

// Appends a name with its inode.
fn put_listed(out: &mut Vec<u8>, entry: &(Name, Inode)) -> Result<(), AllocError>
    ensures { OnOk result (IsListed entry.now × (out.new.items ≡ out.old.items ++ listed_bytes entry.now)) }
{
    let name = entry.0.as_bytes();
    out.push(name.len() as u8)?;
    out.extend_from_slice(name)?;
    put_inode(out, &entry.1)
}

// Appends the reply that is a target.
fn put_target(out: &mut Vec<u8>, target: &Target) -> Result<(), AllocError>
    ensures { OnOk result (IsTarget target.now × (out.new.items ≡ out.old.items ++ 3 ∷ counted_bytes 2 target.now)) }
{
    let target = target.as_bytes();
    out.push(TARGET)?;
    put_u16(out, target.len() as u16)?;
    out.extend_from_slice(target)
}

// Appends the reply that is an error.
fn put_errno(out: &mut Vec<u8>, number: u16) -> Result<(), AllocError>
    ensures { OnOk result ((number < 2 ^ 16) × (out.new.items ≡ out.old.items ++ 5 ∷ little_bytes 2 number)) }
{
    out.push(ERRNO)?;
    put_u16(out, number)
}

// Appends an inode.
fn put_inode(out: &mut Vec<u8>, inode: &Inode) -> Result<(), AllocError>
    ensures { OnOk result (IsInode inode.now × (out.new.items ≡ out.old.items ++ plain_bytes inode.now)) }
{
    is_inode(inode);
    let target = target_of(&inode.kind);
    out.push(kind_byte(&inode.kind))?;
    put_u64(out, inode.ino.0)?;
    put_u64(out, inode.size)?;
    put_u64(out, inode.mtime)?;
    put_u32(out, inode.uid)?;
    put_u32(out, inode.gid)?;
    put_u16(out, inode.mode.bits())?;
    put_u16(out, pin_number(inode.pin))?;
    put_u16(out, target.len() as u16)?;
    out.extend_from_slice(target)
}

// What holds of an inode: a law of the types, so there is nothing to do.
fn is_inode(inode: &Inode)
    ensures { IsInode inode.now }
{
    has_widths(inode);
    has_64_bits(inode.ino.0);
    let _ = inode.mode.bits();
    let _ = pin_number(inode.pin);
    let _ = target_of(&inode.kind);
}

fn has_64_bits(number: u64)
    ensures { number < 2 ^ 64 }
{
    let _ = number;
}

// The number of a pin.
fn pin_number(pin: Option<Rank>) -> u16
    ensures number { result ≡ pin_number pin }
    ensures rank { HasRank pin }
{
    match pin {
        Some(rank) => u16::from(rank.0) + 1,
        None => 0,
    }
}

// The byte of a kind.
fn kind_byte(kind: &Kind) -> u8
    ensures { result ≡ kind_byte kind.now }
{
    match kind {
        Kind::File => FILE,
        Kind::Dir => DIR,
        Kind::Symlink(_) => SYMLINK,
    }
}

// What a link points to; nothing for the other kinds.
fn target_of(kind: &Kind) -> &[u8]
    ensures target { result.now ≡ target_bytes kind.now }
    ensures valid { HasTarget kind.now }
    ensures short { length result.now ≤ 4095 }
{
    match kind {
        Kind::File | Kind::Dir => &[],
        Kind::Symlink(target) => target.as_bytes(),
    }
}
