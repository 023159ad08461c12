//! Whether an export stands there, told also where memory is wanting: what is read is let go at once.
ghost use Rattle.std.specs.Prelude.{◌≡◌, None, is_some, option_map};
ghost use Rattle.std.specs.Option.{option_copied};
ghost use Rattle.dirfrag_codec.specs.Reading.{Gives};
ghost use Rattle.dirfrag_codec.specs.Values.{written_of, is_name};
ghost use Rattle.export_bytes.specs.Export.{is_frag_before, is_name_before};
ghost use Rattle.export_bytes.specs.Checking.{after_rising, follows, named_as, place_of, seen_by, sent_as, sent_name_text};
ghost use Rattle.export_bytes.specs.Reading.{sent_inode_at, parts_at, record_at, sent_frag_at, sent_name_at};

use crate::reading::{front_at, head_at, long_part_at, short_part_at};
use crate::writing::{PRESENT, REMOVED};
use dirfrag_codec::decode_written;
use mds_types::{Frag, Name, NameFault};
use std::alloc::Global;

/// Whether the parts of an export stand there. Nothing of them is kept, and want of memory plays no part in the answer.
#[tactic(auto, unfolding(crate::specs::Reading::parts_at))]
pub(crate) fn are_parts(alloc: Global, bytes: &[u8]) -> bool
    ensures { result ≡ is_some (parts_at bytes.now) }
{
    let Some((front, rest)) = front_at(bytes) else {
        return false;
    };
    match after_frags(alloc, rest, front.count as usize) {
        Some(rest) => rest.is_empty(),
        None => false,
    }
}

// What follows so many fragments that rise.
fn after_frags(alloc: Global, bytes: &[u8], count: usize) -> Option<&[u8]>
    ensures { Gives (λ rest. rest.now) result (after_rising is_frag_before sent_frag_at None count bytes.now) }
{
    let mut last: Option<(u64, Frag)> = None;
    let mut rest = bytes;
    let mut left = count;
    'frags: while left > 0 {
        let Some((place, after)) = place_at(alloc, rest) else {
            return None;
        };
        if !follows_place(&last, &place) {
            return None;
        }
        last = Some(place);
        rest = after;
        left -= 1;
    }
    Some(rest)
}

// Whether a fragment comes after the last one, if there was one.
fn follows_place(last: &Option<(u64, Frag)>, place: &(u64, Frag)) -> bool
    ensures { result ≡ follows is_frag_before (option_map sent_as last.now) (sent_as place.now) }
{
    let Some(last) = last else {
        return true;
    };
    last.0 < place.0 || last.0 == place.0 && last.1.value() < place.1.value()
}

// The directory and the leaf of a fragment whose names rise, and the bytes after it.
#[tactic(auto, unfolding(crate::specs::Reading::sent_frag_at))]
fn place_at(alloc: Global, bytes: &[u8]) -> Option<((u64, Frag), &[u8])>
    ensures { Gives (λ x. (x.0, x.1.now)) result (seen_by place_of (sent_frag_at bytes.now)) }
{
    let Some((start, rest)) = head_at(bytes) else {
        return None;
    };
    let Some(rest) = after_names(alloc, rest, start.count as usize) else {
        return None;
    };
    Some(((start.ino, start.frag), rest))
}

// What follows so many names that rise.
fn after_names(alloc: Global, bytes: &[u8], count: usize) -> Option<&[u8]>
    ensures { Gives (λ rest. rest.now) result (after_rising is_name_before sent_name_at None count bytes.now) }
{
    let mut last: Option<&[u8]> = None;
    let mut rest = bytes;
    let mut left = count;
    'names: while left > 0 {
        let Some((name, after)) = text_at(alloc, rest) else {
            return None;
        };
        if !follows_name(last, name) {
            return None;
        }
        last = Some(name);
        rest = after;
        left -= 1;
    }
    Some(rest)
}

// Whether a name is above the last one, if there was one.
fn follows_name(last: Option<&[u8]>, name: &[u8]) -> bool
    ensures { result ≡ follows is_name_before (option_map named_as (option_copied last.entry)) (named_as name.now) }
{
    match last {
        Some(last) => last.cmp(name).is_lt(),
        None => true,
    }
}

// The bytes of a name, and the bytes after what became of it.
#[tactic(auto, unfolding(crate::specs::Reading::sent_name_at, crate::specs::Reading::name_at))]
fn text_at(alloc: Global, bytes: &[u8]) -> Option<(&[u8], &[u8])>
    ensures { Gives (λ x. (x.0.now, x.1.now)) result (seen_by sent_name_text (sent_name_at bytes.now)) }
{
    let Some((name, rest)) = short_part_at(bytes) else {
        return None;
    };
    if !is_name(alloc, name) {
        return None;
    }
    let Some(rest) = after_inode(alloc, rest) else {
        return None;
    };
    Some((name, rest))
}

// Whether bytes are a name, be there memory for it or not.
fn is_name(alloc: Global, bytes: &[u8]) -> bool
    ensures { result ≡ is_name bytes.now }
{
    match Name::from_bytes(alloc, bytes) {
        Ok(_) | Err(NameFault::NoMemory) => true,
        Err(_) => false,
    }
}

// What follows that which became of a name.
fn after_inode(alloc: Global, bytes: &[u8]) -> Option<&[u8]>
    ensures { Gives (λ rest. rest.now) result (option_map (λ x. x.1) (sent_inode_at bytes.now)) }
{
    match bytes {
        [REMOVED, rest @ ..] => Some(rest),
        [PRESENT, rest @ ..] => after_record(alloc, rest),
        _ => None,
    }
}

// What follows an inode's record, be there memory for it or not.
#[tactic(auto, unfolding(crate::specs::Reading::record_at))]
fn after_record(alloc: Global, bytes: &[u8]) -> Option<&[u8]>
    ensures { Gives (λ rest. rest.now) result (option_map (λ x. x.1) (record_at bytes.now)) }
{
    let Some((record, rest)) = long_part_at(bytes) else {
        return None;
    };
    is_record(alloc, record).then_some(rest)
}

// Whether bytes are an inode's record, be there memory for it or not.
fn is_record(alloc: Global, bytes: &[u8]) -> bool
    ensures { result ≡ is_some (written_of bytes.now) }
{
    match decode_written(alloc, bytes) {
        Ok(inode) => inode.is_some(),
        Err(_) => true,
    }
}
