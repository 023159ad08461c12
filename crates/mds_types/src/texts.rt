//! Texts as keys of a map.
ghost use Rattle.std.proofs.Common.{rules};
ghost use Rattle.std.proofs.lemmas.Map.Lookups.{exact_bytes};
ghost use Rattle.std.specs.Cmp.{partial_order_from_own_ties};
ghost use Rattle.std.specs.Cmp.Lexicographic.{pointwise, slice_cmp};
ghost use Rattle.std.specs.Cmp.Rules.{comparing};
ghost use Rattle.std.specs.Ordering.{nat_cmp, as_partial_cmp};
ghost use Rattle.std.specs.Prelude.{◌≡◌, ◌==◌, ◌<◌, length, IsUtf8};
ghost use Rattle.mds_types.specs.Copies.{IsMadeOrLacks};

use crate::byte_order::compare;
use crate::bytes::Bytes;
use sorted_map::{ExactOrd, Probe};
use std::alloc::{AllocError, Global};
use std::cmp::Ordering;
use std::marker::Model;

/// A text, seen as its bytes and ordered by them. Up to 22 bytes take no memory of their own.
#[derive(Debug, Drop)]
pub struct Text {
    bytes: Bytes,
}

impl Model for Text {
    ghost use Rattle.std.specs.Prelude.{List, ℕ, IsUtf8};

    ghost Value = { List ℕ };

    ghost view = { λ t. t.bytes };

    ghost invariant = { λ t. IsUtf8 t.bytes };
}

impl Text {
    /// A copy of this text. More than 22 bytes take memory, and only then may it be wanting.
    pub fn copy_of(alloc: Global, text: &str) -> Result<Text, AllocError>
        ensures { IsMadeOrLacks text.now (22 < length text.now) result }
    {
        Text::of_bytes(alloc, text.as_bytes())
    }

    // The text that these bytes are. More than 22 take memory.
    fn of_bytes(alloc: Global, bytes: &[u8]) -> Result<Text, AllocError>
        requires { IsUtf8 bytes.now }
        ensures { IsMadeOrLacks bytes.now (22 < length bytes.now) result }
    {
        Ok(Text {
            bytes: Bytes::from_slice(alloc, bytes)?,
        })
    }

    /// The bytes of the text.
    pub(crate) fn as_bytes(&self) -> &[u8]
        ensures { result.now ≡ self.now }
    {
        self.bytes.as_slice()
    }

    /// The text. Its bytes are looked at once more.
    pub fn as_str(&self) -> &str
        ensures { result.now ≡ self.now }
    {
        match str::from_utf8(self.bytes.as_slice()) {
            Ok(text) => text,
            Err(_) => unreachable!(),
        }
    }
}

impl Clone for Text {
    ghost is_clone = { λ old new. new ≡ old };

    fn clone(&self) -> Result<Text, AllocError> {
        Ok(Text {
            bytes: self.bytes.try_clone()?,
        })
    }
}

impl PartialEq for Text {
    ghost eq = { pointwise ◌==◌ };

    ghost laws = { Prim.search (comparing, rules) };

    fn eq(&self, other: &Text) -> bool {
        self.bytes == other.bytes
    }
}

impl Eq for Text {
    ghost laws = { Prim.search (comparing, rules) };
}

impl PartialOrd for Text {
    ghost partial_cmp = { as_partial_cmp (slice_cmp nat_cmp) };

    ghost laws = { partial_order_from_own_ties (Prim.search (comparing, rules)) (Prim.search (comparing, rules)) };

    fn partial_cmp(&self, other: &Text) -> Option<Ordering> {
        Some(self.cmp(other))
    }
}

impl Ord for Text {
    ghost cmp = { slice_cmp nat_cmp };

    ghost total = { Prim.search (comparing, rules) };

    ghost matches_partial_cmp = { Prim.search (comparing, rules) };

    ghost matches_eq = { Prim.search (comparing, rules) };

    fn cmp(&self, other: &Text) -> Ordering {
        self.bytes.cmp(&other.bytes)
    }
}

impl ExactOrd for Text {
    ghost exact = { exact_bytes };
}

/// A text that a `Text` is looked up by.
#[derive(Clone, Copy)]
pub struct TextRef<'a> {
    /// The text.
    pub text: &'a str,
}

impl<'a> Probe<Text> for TextRef<'a> {
    ghost key = { λ p. p.text.now };

    fn order(&self, other: &Text) -> Ordering {
        compare(self.text.as_bytes(), other.bytes.as_slice())
    }
}
