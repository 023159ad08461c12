//! The header of a fragment's object.
ghost use Rattle.std.specs.Prelude.{◌≡◌, ◌≤◌, IfOk};
ghost use Rattle.dirfrag_codec.specs.FragHeader.{SpellsHeader};
ghost use Rattle.dirfrag_codec.specs.Grammar.{Decodes};
ghost use Rattle.dirfrag_codec.specs.Reading.{Gives, header_read_at};
ghost use Rattle.dirfrag_codec.specs.Values.{header_of};

use crate::fields::{after_tag, put_u64, u64_at};
use std::alloc::{AllocError, Global};

// How a header begins: its letter, and the version of the format.
const LETTER: u8 = b'F';

const VERSION: u8 = 1;

// How many bytes a header has.
const LEN: usize = 26;

/// What a fragment's object says of the fragment as a whole.
#[derive(Clone, Copy, Debug, PartialEq, Eq)]
pub struct FragHeader {
    /// How many commits have written the object; 1 after the first.
    pub version: u64,
    /// The number of entries that aren't directories.
    pub files: u64,
    /// The number of entries that are directories.
    pub dirs: u64,
}

/// The bytes of a header. Takes memory for them.
pub fn encode_header(alloc: Global, header: &FragHeader) -> Result<Vec<u8>, AllocError>
    requires { 1 ≤ header.now.version }
    ensures { IfOk result (λ bytes. SpellsHeader bytes.items header.now) }
{
    let mut bytes = Vec::with_capacity(alloc, LEN)?;
    bytes.extend_from_slice(&[LETTER, VERSION])?;
    put_u64(&mut bytes, header.version)?;
    put_u64(&mut bytes, header.files)?;
    put_u64(&mut bytes, header.dirs)?;
    Ok(bytes)
}

/// The header that these bytes are; none, where they are no header. Takes no memory.
pub fn decode_header(bytes: &[u8]) -> Option<FragHeader>
    ensures spelled { Decodes SpellsHeader bytes.now result }
    ensures value { result ≡ header_of bytes.now }
{
    header_of(bytes)
}

// The fields of a header, and nothing after them.
#[tactic(auto, unfolding(crate::specs::Reading::header_read_at))]
fn header_of(bytes: &[u8]) -> Option<FragHeader>
    ensures { Gives (λ header. header) result (header_read_at bytes.now) }
{
    let rest = after_tag(bytes, LETTER, VERSION)?;
    let (version, rest) = u64_at(rest)?;
    let (files, rest) = u64_at(rest)?;
    let (dirs, rest) = u64_at(rest)?;
    if version == 0 || !rest.is_empty() {
        return None;
    }
    Some(FragHeader {
        version,
        files,
        dirs,
    })
}
