//! The export whose bytes these are.
ghost use Rattle.std.specs.Prelude.{◌≡◌, IfOk, IsSome, None, OnErr};
ghost use Rattle.dirfrag_codec.specs.Grammar.{Decodes};
ghost use Rattle.dirfrag_codec.specs.Reading.{Gives};
ghost use Rattle.export_bytes.specs.Export.{SpellsExport};
ghost use Rattle.export_bytes.specs.Reading.{Front, Head, StatesFragment, StatesHead, base_of, export_of, frag_of_word, front_at, head_at, sent_inode_at, items_at, long_part_at, name_at, part_at, parts_at, present_at, record_at, sent_frag_at, sent_name_at, short_part_at};

use crate::checking::are_parts;
use crate::exports::{Export, SentFrag, SentFrags, SentNames};
use crate::rising::{frags_rise, names_rise};
use crate::writing::{FRESH, LETTER, PRESENT, REMOVED, STORED, VERSION};
use cached_frag::Base;
use dirfrag_codec::decode_written;
use dirfrag_codec::fields::{after_tag, u8_at, u16_at, u32_at, u64_at};
use mds_types::{Frag, Ino, Inode, Name, NameFault, Rank};
use std::alloc::{AllocError, Global};

/// The export whose bytes these are; none, where they are no export. Takes memory for the fragments and their names.
/// Where it is wanting the bytes are read once more with nothing kept, so there is an error for exports alone.
pub fn decode_export(alloc: Global, bytes: &[u8]) -> Result<Option<Export>, AllocError>
    ensures spelled { IfOk result (Decodes SpellsExport bytes.now) }
    ensures value { IfOk result (λ answer. answer ≡ export_of bytes.now) }
    ensures memory { OnErr result (StatesFragment bytes.now) }
    ensures export { OnErr result (IsSome (export_of bytes.now)) }
{
    match parts_at(alloc, bytes) {
        Ok(answer) => Ok(answer),
        Err(_) => without_memory(alloc, bytes),
    }
}

// What is answered where memory is wanting: an error for an export's bytes, and none for others.
fn without_memory(alloc: Global, bytes: &[u8]) -> Result<Option<Export>, AllocError>
    ensures none { IfOk result (λ answer. (answer ≡ None) × (parts_at bytes.now ≡ None)) }
    ensures export { OnErr result (IsSome (parts_at bytes.now)) }
{
    if are_parts(alloc, bytes) {
        return Err(AllocError);
    }
    Ok(None)
}

// The export of the parts that stand there.
#[tactic(auto, unfolding(crate::specs::Reading::parts_at))]
fn parts_at(alloc: Global, bytes: &[u8]) -> Result<Option<Export>, AllocError>
    ensures parts { IfOk result (λ answer. answer ≡ parts_at bytes.now) }
    ensures memory { OnErr result (StatesFragment bytes.now) }
{
    let Some((front, rest)) = front_at(bytes) else {
        return Ok(None);
    };
    let Some((frags, rest)) = frags_at(alloc, rest, front.count as usize)? else {
        return Ok(None);
    };
    if !frags_rise(frags.as_slice()) || !rest.is_empty() {
        return Ok(None);
    }
    Ok(Some(Export {
        ino: Ino(front.ino),
        frag: front.frag,
        exporter: Rank(front.exporter),
        importer: Rank(front.importer),
        frags,
    }))
}

// What stands before the fragments.
#[derive(Clone, Copy)]
pub(crate) struct Opening {
    ino: u64,
    frag: Frag,
    exporter: u8,
    importer: u8,
    pub(crate) count: u32,
}

// What stands before the fragments, and the bytes of these.
#[tactic(auto, unfolding(crate::specs::Reading::front_at))]
pub(crate) fn front_at(bytes: &[u8]) -> Option<(Opening, &[u8])>
    ensures { Gives
        (λ x. (
          record
              { ino = x.0.ino; frag = x.0.frag; exporter = x.0.exporter; importer = x.0.importer; count = x.0.count },
          x.1.now,
        )) result (front_at bytes.now) }
{
    let rest = after_tag(bytes, LETTER, VERSION)?;
    let (ino, rest) = u64_at(rest)?;
    let (word, rest) = u32_at(rest)?;
    let frag = frag_of(word)?;
    let (exporter, rest) = u8_at(rest)?;
    let (importer, rest) = u8_at(rest)?;
    let (count, rest) = u32_at(rest)?;
    if exporter >= 16 || importer >= 16 || exporter == importer {
        return None;
    }
    let opening = Opening {
        ino,
        frag,
        exporter,
        importer,
        count,
    };
    Some((opening, rest))
}

// So many fragments, and the bytes after them.
fn frags_at(
    alloc: Global,
    bytes: &[u8],
    count: usize,
) -> Result<Option<(SentFrags, &[u8])>, AllocError>
    ensures frags { IfOk result (λ answer. Gives (λ x. (x.0, x.1.now)) answer (items_at sent_frag_at count bytes.now)) }
    ensures memory { OnErr result (StatesHead bytes.now) }
{
    let mut frags = Vec::new(alloc);
    let mut rest = bytes;
    'frags: while frags.len() < count {
        let Some((frag, after)) = sent_frag_at(alloc, rest)? else {
            return Ok(None);
        };
        frags.push(frag)?;
        rest = after;
    }
    Ok(Some((SentFrags::from_vec(frags), rest)))
}

// A fragment with its names, and the bytes after it.
#[tactic(auto, unfolding(crate::specs::Reading::sent_frag_at))]
fn sent_frag_at(alloc: Global, bytes: &[u8]) -> Result<Option<(SentFrag, &[u8])>, AllocError>
    ensures frag { IfOk result (λ answer. Gives (λ x. (x.0, x.1.now)) answer (sent_frag_at bytes.now)) }
    ensures memory { OnErr result (StatesHead bytes.now) }
{
    let Some((start, rest)) = head_at(bytes) else {
        return Ok(None);
    };
    let Some((names, rest)) = names_at(alloc, rest, start.count as usize)? else {
        return Ok(None);
    };
    if !names_rise(names.as_slice()) {
        return Ok(None);
    }
    let frag = SentFrag {
        ino: Ino(start.ino),
        frag: start.frag,
        base: start.base,
        names,
    };
    Ok(Some((frag, rest)))
}

// What stands before the names of a fragment.
#[derive(Clone, Copy)]
pub(crate) struct Start {
    pub(crate) ino: u64,
    pub(crate) frag: Frag,
    base: Base,
    pub(crate) count: u32,
}

// What stands before the names of a fragment, and the bytes of these.
#[tactic(auto, unfolding(crate::specs::Reading::head_at))]
pub(crate) fn head_at(bytes: &[u8]) -> Option<(Start, &[u8])>
    ensures { Gives
        (λ x. (record { ino = x.0.ino; frag = x.0.frag; base = x.0.base; count = x.0.count }, x.1.now)) result
        (head_at bytes.now) }
{
    let (ino, rest) = u64_at(bytes)?;
    let (word, rest) = u32_at(rest)?;
    let frag = frag_of(word)?;
    let (byte, rest) = u8_at(rest)?;
    let (version, rest) = u64_at(rest)?;
    let base = base_of(byte, version)?;
    let (count, rest) = u32_at(rest)?;
    if !base.is_fresh() && count == 0 {
        return None;
    }
    let start = Start {
        ino,
        frag,
        base,
        count,
    };
    Some((start, rest))
}

// The base of a byte and a commit version.
fn base_of(byte: u8, version: u64) -> Option<Base>
    ensures { result ≡ base_of byte version }
{
    if byte == FRESH && version == 0 {
        return Some(Base::Fresh);
    }
    if byte == STORED && version > 0 {
        return Some(Base::Stored(version));
    }
    None
}

// The fragment of a word: the number of bits above the 24 bits of the value.
fn frag_of(word: u32) -> Option<Frag>
    ensures { result ≡ frag_of_word word }
{
    Frag::new(word % (1 << Frag::MAX_BITS), (word >> Frag::MAX_BITS) as u8)
}

// So many names, and the bytes after them.
fn names_at(
    alloc: Global,
    bytes: &[u8],
    count: usize,
) -> Result<Option<(SentNames, &[u8])>, AllocError>
    ensures { IfOk result (λ answer. Gives (λ x. (x.0, x.1.now)) answer (items_at sent_name_at count bytes.now)) }
{
    let mut names = Vec::new(alloc);
    let mut rest = bytes;
    'names: while names.len() < count {
        let Some((name, after)) = sent_name_at(alloc, rest)? else {
            return Ok(None);
        };
        names.push(name)?;
        rest = after;
    }
    Ok(Some((SentNames::from_vec(names), rest)))
}

// A name and what became of it, and the bytes after it.
#[tactic(auto, unfolding(crate::specs::Reading::sent_name_at))]
fn sent_name_at(
    alloc: Global,
    bytes: &[u8],
) -> Result<Option<((Name, Option<Inode>), &[u8])>, AllocError>
    ensures { IfOk result (λ answer. Gives (λ x. (x.0, x.1.now)) answer (sent_name_at bytes.now)) }
{
    let Some((name, rest)) = name_at(alloc, bytes)? else {
        return Ok(None);
    };
    let Some((inode, rest)) = inode_at(alloc, rest)? else {
        return Ok(None);
    };
    Ok(Some(((name, inode), rest)))
}

// A name behind its length, and the bytes after it.
#[tactic(auto, unfolding(crate::specs::Reading::name_at))]
fn name_at(alloc: Global, bytes: &[u8]) -> Result<Option<(Name, &[u8])>, AllocError>
    ensures { IfOk result (λ answer. Gives (λ x. (x.0, x.1.now)) answer (name_at bytes.now)) }
{
    let Some((text, rest)) = short_part_at(bytes) else {
        return Ok(None);
    };
    match Name::from_bytes(alloc, text) {
        Ok(name) => Ok(Some((name, rest))),
        Err(NameFault::NoMemory) => Err(AllocError),
        Err(_) => Ok(None),
    }
}

// Bytes behind their number in one byte, and the bytes after them.
pub(crate) fn short_part_at(bytes: &[u8]) -> Option<(&[u8], &[u8])>
    ensures { Gives (λ x. (x.0.now, x.1.now)) result (short_part_at bytes.now) }
{
    let (len, rest) = u8_at(bytes)?;
    part_at(rest, usize::from(len))
}

// Bytes behind their number in two bytes, and the bytes after them.
pub(crate) fn long_part_at(bytes: &[u8]) -> Option<(&[u8], &[u8])>
    ensures { Gives (λ x. (x.0.now, x.1.now)) result (long_part_at bytes.now) }
{
    let (len, rest) = u16_at(bytes)?;
    part_at(rest, usize::from(len))
}

// So many bytes, and the bytes after them.
fn part_at(bytes: &[u8], len: usize) -> Option<(&[u8], &[u8])>
    ensures { Gives (λ x. (x.0.now, x.1.now)) result (part_at len bytes.now) }
{
    if bytes.len() < len {
        return None;
    }
    Some(bytes.split_at(len))
}

// What became of a name, and the bytes after it.
fn inode_at(alloc: Global, bytes: &[u8]) -> Result<Option<(Option<Inode>, &[u8])>, AllocError>
    ensures { IfOk result (λ answer. Gives (λ x. (x.0, x.1.now)) answer (sent_inode_at bytes.now)) }
{
    match bytes {
        [REMOVED, rest @ ..] => Ok(Some((None, rest))),
        [PRESENT, rest @ ..] => present_at(alloc, rest),
        _ => Ok(None),
    }
}

// The inode of a name that is there, and the bytes after it.
fn present_at(alloc: Global, bytes: &[u8]) -> Result<Option<(Option<Inode>, &[u8])>, AllocError>
    ensures { IfOk result (λ answer. Gives (λ x. (x.0, x.1.now)) answer (present_at bytes.now)) }
{
    match record_at(alloc, bytes)? {
        Some((inode, rest)) => Ok(Some((Some(inode), rest))),
        None => Ok(None),
    }
}

// An inode's record behind its length, and the bytes after it.
#[tactic(auto, unfolding(crate::specs::Reading::record_at))]
fn record_at(alloc: Global, bytes: &[u8]) -> Result<Option<(Inode, &[u8])>, AllocError>
    ensures { IfOk result (λ answer. Gives (λ x. (x.0, x.1.now)) answer (record_at bytes.now)) }
{
    let Some((record, rest)) = long_part_at(bytes) else {
        return Ok(None);
    };
    match decode_written(alloc, record)? {
        Some(inode) => Ok(Some((inode, rest))),
        None => Ok(None),
    }
}
