//! Fields at the front of bytes, and at their end.
ghost use Rattle.std.specs.Prelude.{◌≡◌, ◌++◌, OnOk};
ghost use Rattle.byteorder.specs.Endian.{little_bytes};
ghost use Rattle.dirfrag_codec.specs.Reading.{Gives, after_tag, byte_at, number_at, version_at};

use byteorder::{ByteOrder, LittleEndian};
use std::alloc::AllocError;

/// What follows the letter of a format and its version.
pub fn after_tag(bytes: &[u8], letter: u8, version: u8) -> Option<&[u8]>
    ensures { Gives (λ rest. rest.now) result (after_tag letter version bytes.now) }
{
    match bytes {
        [a, b, rest @ ..] if *a == letter && *b == version => Some(rest),
        _ => None,
    }
}

/// The version behind the letter of a format, and the bytes after it.
pub fn version_at(bytes: &[u8], letter: u8) -> Option<(u8, &[u8])>
    ensures { Gives (λ x. (x.0, x.1.now)) result (version_at letter bytes.now) }
{
    match bytes {
        [a, version, rest @ ..] if *a == letter => Some((*version, rest)),
        _ => None,
    }
}

/// The byte at the front, and the bytes after it.
pub fn u8_at(bytes: &[u8]) -> Option<(u8, &[u8])>
    ensures byte { Gives (λ x. (x.0, x.1.now)) result (byte_at bytes.now) }
    ensures number { Gives (λ x. (x.0, x.1.now)) result (number_at 1 bytes.now) }
{
    match bytes {
        [byte, rest @ ..] => Some((*byte, rest)),
        [] => None,
    }
}

/// The number in the two bytes at the front, and the bytes after it.
pub fn u16_at(bytes: &[u8]) -> Option<(u16, &[u8])>
    ensures { Gives (λ x. (x.0, x.1.now)) result (number_at 2 bytes.now) }
{
    if bytes.len() < 2 {
        return None;
    }
    Some((LittleEndian::read_u16(bytes), bytes.split_at(2).1))
}

/// The number in the four bytes at the front, and the bytes after it.
pub fn u32_at(bytes: &[u8]) -> Option<(u32, &[u8])>
    ensures { Gives (λ x. (x.0, x.1.now)) result (number_at 4 bytes.now) }
{
    if bytes.len() < 4 {
        return None;
    }
    Some((LittleEndian::read_u32(bytes), bytes.split_at(4).1))
}

/// The number in the eight bytes at the front, and the bytes after it.
pub fn u64_at(bytes: &[u8]) -> Option<(u64, &[u8])>
    ensures { Gives (λ x. (x.0, x.1.now)) result (number_at 8 bytes.now) }
{
    if bytes.len() < 8 {
        return None;
    }
    Some((LittleEndian::read_u64(bytes), bytes.split_at(8).1))
}

/// Appends a number in two bytes.
pub fn put_u16(out: &mut Vec<u8>, number: u16) -> Result<(), AllocError>
    ensures { OnOk result (out.new.items ≡ out.old.items ++ little_bytes 2 number) }
{
    let mut bytes = [0; 2];
    LittleEndian::write_u16(&mut bytes, number);
    out.extend_from_slice(&bytes)
}

/// Appends a number in four bytes.
pub fn put_u32(out: &mut Vec<u8>, number: u32) -> Result<(), AllocError>
    ensures { OnOk result (out.new.items ≡ out.old.items ++ little_bytes 4 number) }
{
    let mut bytes = [0; 4];
    LittleEndian::write_u32(&mut bytes, number);
    out.extend_from_slice(&bytes)
}

/// Appends a number in eight bytes.
pub fn put_u64(out: &mut Vec<u8>, number: u64) -> Result<(), AllocError>
    ensures { OnOk result (out.new.items ≡ out.old.items ++ little_bytes 8 number) }
{
    let mut bytes = [0; 8];
    LittleEndian::write_u64(&mut bytes, number);
    out.extend_from_slice(&bytes)
}
