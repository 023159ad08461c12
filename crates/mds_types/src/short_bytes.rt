//! Few bytes, which stand in the value itself.
ghost use Rattle.std.specs.Prelude.{◌≡◌, ◌<◌, length, [], IfSome, IfNone};
ghost use Rattle.std.specs.Cmp.Lexicographic.{slice_cmp};
ghost use Rattle.std.specs.Ordering.{nat_cmp};

use crate::byte_order::words_of_short;
use std::cmp::Ordering;
use std::marker::Model;

/// At most 22 bytes, with zeros behind them, so that they compare as numbers. With their length, and the tag of an enum
/// before it, they take as much room as three words of the machine.
#[derive(Debug, Drop)]
pub(crate) struct Short {
    len: u8,
    bytes: [u8; 22],
}

impl Model for Short {
    ghost use Rattle.std.specs.Prelude.{List, ℕ, take};
    ghost use Rattle.mds_types.specs.ShortBytes.{IsPadded};

    ghost Value = { List ℕ };

    ghost view = { λ s. take s.len s.bytes };

    ghost invariant = { λ s. IsPadded s.len s.bytes };
}

impl Short {
    /// No bytes.
    pub(crate) fn empty() -> Short
        ensures { result ≡ [] }
    {
        Short {
            len: 0,
            bytes: [0; 22],
        }
    }

    /// These bytes, where they are few enough.
    pub(crate) fn of(bytes: &[u8]) -> Option<Short>
        ensures few { IfSome result (λ short. short ≡ bytes.now) }
        ensures many { IfNone result (22 < length bytes.now) }
    {
        let len = bytes.len();
        if len > 22 {
            return None;
        }
        let mut kept = [0; 22];
        kept[..len].copy_from_slice(bytes);
        Some(Short {
            len: len as u8,
            bytes: kept,
        })
    }

    /// A copy.
    #[inline(always)]
    pub(crate) fn copy(&self) -> Short
        ensures { result ≡ self.now }
    {
        Short {
            len: self.len,
            bytes: self.bytes,
        }
    }

    /// The bytes.
    #[inline(always)]
    pub(crate) fn as_slice(&self) -> &[u8]
        ensures { result.now ≡ self.now }
    {
        &self.bytes[..usize::from(self.len)]
    }

    /// How they compare, as memory does.
    #[inline(always)]
    pub(crate) fn compare(&self, other: &Short) -> Ordering
        ensures { result ≡ slice_cmp nat_cmp self.now other.now }
    {
        let (x, y) = words_of_short(&self.bytes, &other.bytes);
        if x != y {
            return x.cmp(&y);
        }
        self.len.cmp(&other.len)
    }
}
