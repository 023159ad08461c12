//! The name of a directory entry.
ghost use Rattle.std.specs.Prelude.{◌≡◌, ◌<◌, length, IfErr, OnOk};
ghost use Rattle.std.specs.List.{list_all};
ghost use Rattle.mds_types.specs.Copies.{IsMadeOrLacks};
ghost use Rattle.mds_types.specs.Name.{IsName, is_dots, fits_name};
ghost use Rattle.mds_types.specs.NameFault.{IsFaultOf, NameFromBytes, name_errno};

use crate::bytes::Bytes;
use crate::errno::{EINVAL, ENAMETOOLONG};
use std::alloc::{AllocError, Global};
use std::marker::Model;
use thiserror::Error;

/// A valid name: 1 to 255 bytes, none of them `/` or zero, and neither `.` nor `..`. Names are ordered by bytes.
#[derive(Clone, Debug, Drop, PartialEq, Eq, PartialOrd, Ord)]
pub struct Name {
    text: Bytes,
}

impl Model for Name {
    ghost use Rattle.std.specs.Prelude.{List, ℕ};
    ghost use Rattle.mds_types.specs.Name.{IsName};

    ghost Value = { List ℕ };

    ghost view = { λ n. n.text };

    ghost inverse = { λ bytes. record { text = bytes } };

    ghost invariant = { λ n. IsName n.text };
}

/// Why bytes are no name, or could not be made one.
#[derive(Clone, Copy, Debug, PartialEq, Eq, Error)]
pub enum NameFault {
    /// Empty, `.`, `..`, or with a `/` or a zero byte.
    #[error("a name isn't empty, `.` or `..`, and has no `/` and no zero byte")]
    Invalid,
    /// More than 255 bytes, whatever they are.
    #[error("a name has at most 255 bytes")]
    TooLong,
    /// The bytes are a name, but there was no memory for it.
    #[error("out of memory")]
    NoMemory,
}

impl NameFault {
    /// The error number that an operation on such a name answers; none for want of memory.
    pub fn errno(self) -> Option<u16>
        ensures { result ≡ name_errno self }
    {
        match self {
            NameFault::Invalid => Some(EINVAL),
            NameFault::TooLong => Some(ENAMETOOLONG),
            NameFault::NoMemory => None,
        }
    }
}

impl Name {
    /// The most bytes that a name has.
    pub const MAX_LEN: usize = 255;

    /// The name that these bytes are, or why they are none. More than 22 bytes take memory, and only then may it be
    /// wanting.
    pub fn from_bytes(alloc: Global, bytes: &[u8]) -> Result<Name, NameFault>
        ensures { NameFromBytes bytes.now result }
    {
        check(bytes)?;
        match Bytes::from_slice(alloc, bytes) {
            Ok(text) => Ok(Name { text }),
            Err(AllocError) => Err(NameFault::NoMemory),
        }
    }

    /// The name that these bytes are, or why they are none. Takes no memory.
    pub fn from_text(text: Bytes) -> Result<Name, NameFault>
        ensures made { NameFromBytes text result }
        ensures err { IfErr result (IsFaultOf text) }
    {
        check(text.as_slice())?;
        Ok(Name { text })
    }

    /// The bytes of the name.
    pub fn as_bytes(&self) -> &[u8]
        ensures bytes { result.now ≡ self.now }
        ensures valid { IsName self.now }
    {
        self.text.as_slice()
    }

    /// A copy. More than 22 bytes take memory, and only then may it be wanting.
    pub fn try_clone(&self) -> Result<Name, AllocError>
        ensures { IsMadeOrLacks self.now (22 < length self.now) result }
    {
        Ok(Name {
            text: self.text.try_clone()?,
        })
    }
}

// Whether bytes are a name, or why they are none.
fn check(bytes: &[u8]) -> Result<(), NameFault>
    ensures ok { OnOk result (IsName bytes.now) }
    ensures err { IfErr result (IsFaultOf bytes.now) }
{
    if bytes.len() > Name::MAX_LEN {
        return Err(NameFault::TooLong);
    }
    if bytes.is_empty() || is_dots(bytes) || !is_plain(bytes) {
        return Err(NameFault::Invalid);
    }
    Ok(())
}

// Whether a name is `.` or `..`, which stand for directories of their own.
fn is_dots(bytes: &[u8]) -> bool
    ensures { result ≡ is_dots bytes.now }
{
    match bytes {
        [first] => *first == b'.',
        [first, second] => *first == b'.' && *second == b'.',
        _ => false,
    }
}

// Whether every byte may stand in a name.
fn is_plain(bytes: &[u8]) -> bool
    ensures { result ≡ list_all fits_name bytes.now }
{
    bytes.iter().all(|byte| *byte != 0 && *byte != b'/')
}
