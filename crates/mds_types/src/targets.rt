//! The target of a symbolic link.
ghost use Rattle.std.proofs.Common.{rules};
ghost use Rattle.std.specs.Cmp.Lexicographic.{pointwise};
ghost use Rattle.std.specs.Cmp.Rules.{comparing};
ghost use Rattle.std.specs.List.{list_all};
ghost use Rattle.std.specs.Prelude.{◌≡◌, ◌==◌, IfOk};
ghost use Rattle.mds_types.specs.Name.{IsTarget, fits_target};
ghost use Rattle.mds_types.specs.TargetFault.{TargetFromBytes, target_errno};

use crate::bytes::Bytes;
use crate::errno::{EINVAL, ENAMETOOLONG, ENOENT};
use std::alloc::{AllocError, Global};
use std::marker::Model;
use thiserror::Error;

/// What a symbolic link points to: 1 to 4095 bytes, none of them zero.
#[derive(Debug, Drop)]
pub struct Target {
    // few inodes have one, so it takes little room in them
    text: Box<Bytes>,
}

impl Model for Target {
    ghost use Rattle.std.specs.Prelude.{List, ℕ, box_value};
    ghost use Rattle.mds_types.specs.Name.{IsTarget};

    ghost Value = { List ℕ };

    ghost view = { λ t. box_value t.text };

    ghost invariant = { λ t. IsTarget (box_value t.text) };
}

/// Why bytes are no target, or could not be made one.
#[derive(Clone, Copy, Debug, PartialEq, Eq, Error)]
pub enum TargetFault {
    /// No bytes at all.
    #[error("a link's target isn't empty")]
    Empty,
    /// At most 4095 bytes, with a zero byte among them.
    #[error("a link's target has no zero byte")]
    Invalid,
    /// More than 4095 bytes, whatever they are.
    #[error("a link's target has at most 4095 bytes")]
    TooLong,
    /// The bytes are a target, but there was no memory for it.
    #[error("out of memory")]
    NoMemory,
}

impl TargetFault {
    /// The error number that an operation with such a target answers; none for want of memory.
    pub fn errno(self) -> Option<u16>
        ensures { result ≡ target_errno self }
    {
        match self {
            TargetFault::Empty => Some(ENOENT),
            TargetFault::Invalid => Some(EINVAL),
            TargetFault::TooLong => Some(ENAMETOOLONG),
            TargetFault::NoMemory => None,
        }
    }
}

impl Target {
    /// The most bytes that a target has.
    pub const MAX_LEN: usize = 4095;

    /// The target that these bytes are, or why they are none. Takes memory for the bytes.
    pub fn from_bytes(alloc: Global, bytes: &[u8]) -> Result<Target, TargetFault>
        ensures { TargetFromBytes bytes.now result }
    {
        if bytes.len() > Target::MAX_LEN {
            return Err(TargetFault::TooLong);
        }
        if bytes.is_empty() {
            return Err(TargetFault::Empty);
        }
        if !has_no_zero(bytes) {
            return Err(TargetFault::Invalid);
        }
        let Ok(text) = Bytes::from_slice(alloc, bytes) else {
            return Err(TargetFault::NoMemory);
        };
        match Box::new(alloc, text) {
            Ok(text) => Ok(Target { text }),
            Err(_) => Err(TargetFault::NoMemory),
        }
    }

    /// The bytes of the target.
    pub fn as_bytes(&self) -> &[u8]
        ensures bytes { result.now ≡ self.now }
        ensures valid { IsTarget self.now }
    {
        self.text.as_slice()
    }

    /// A copy. Takes memory for the bytes.
    pub fn try_clone(&self) -> Result<Target, AllocError>
        ensures { IfOk result (λ copy. copy ≡ self.now) }
    {
        Ok(Target {
            text: self.text.clone()?,
        })
    }
}

impl Clone for Target {
    ghost is_clone = { λ target copy. copy ≡ target };

    /// As `try_clone`.
    fn clone(&self) -> Result<Target, AllocError> {
        self.try_clone()
    }
}

impl PartialEq for Target {
    ghost eq = { pointwise ◌==◌ };

    ghost laws = { Prim.search (comparing, rules) };

    fn eq(&self, other: &Target) -> bool {
        self.as_bytes() == other.as_bytes()
    }
}

impl Eq for Target {
    ghost laws = { Prim.search (comparing, rules) };
}

// Whether every byte may stand in a target.
fn has_no_zero(bytes: &[u8]) -> bool
    ensures { result ≡ list_all fits_target bytes.now }
{
    !bytes.contains(&0)
}
