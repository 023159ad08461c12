//! Any bytes.
ghost use Rattle.std.proofs.Common.{rules};
ghost use Rattle.std.proofs.lemmas.Map.Lookups.{exact_bytes};
ghost use Rattle.std.specs.Cmp.{partial_order_from_own_ties};
ghost use Rattle.std.specs.Cmp.Lexicographic.{pointwise, slice_cmp};
ghost use Rattle.std.specs.Cmp.Rules.{comparing};
ghost use Rattle.std.specs.Ordering.{nat_cmp, as_partial_cmp};
ghost use Rattle.std.specs.Prelude.{◌≡◌, ◌==◌, ◌<◌, length, [], IfOk, OnErr, box_value};
ghost use Rattle.mds_types.specs.Copies.{IsMadeOrLacks};

use crate::byte_order::compare;
use crate::short_bytes::Short;
use sorted_map::ExactOrd;
use std::alloc::{AllocError, Global};
use std::cmp::Ordering;
use std::marker::Model;

/// Any bytes, in the order in which memory compares: a name, a key, a value, the header of an object. Seen by contents,
/// never by where they stand: up to 22 bytes, as most names have, take no memory of their own.
#[derive(Debug, Drop)]
pub struct Bytes {
    form: Form,
}

// Where bytes stand: few in the value itself, more in memory of their own, boxed, so that few don't take as much room.
#[derive(Debug, Drop)]
enum Form {
    Short(Short),
    Long(Box<Vec<u8>>),
}

impl Model for Bytes {
    ghost use Rattle.std.specs.Prelude.{List, ℕ};
    ghost use Rattle.mds_types.specs.BytesForm.{bytes_in};

    ghost Value = { List ℕ };

    ghost view = { λ b. bytes_in b.form };
}

impl Bytes {
    /// No bytes.
    pub fn empty() -> Bytes
        ensures { result ≡ [] }
    {
        Bytes {
            form: Form::Short(Short::empty()),
        }
    }

    /// These bytes. More than 22 take memory for a box, and only then may it be wanting.
    pub fn from_vec(alloc: Global, bytes: Vec<u8>) -> Result<Bytes, AllocError>
        ensures made { IfOk result (λ made. made ≡ bytes.items) }
        ensures err { OnErr result (22 < length bytes.items) }
    {
        match Short::of(&bytes) {
            Some(short) => {
                drop(bytes);
                Ok(Bytes {
                    form: Form::Short(short),
                })
            }
            None => boxed(alloc, bytes),
        }
    }

    /// A copy of these bytes. More than 22 take memory, and only then may it be wanting.
    pub fn from_slice(alloc: Global, bytes: &[u8]) -> Result<Bytes, AllocError>
        ensures copy { IfOk result (λ copy. copy ≡ bytes.now) }
        ensures err { OnErr result (22 < length bytes.now) }
    {
        match Short::of(bytes) {
            Some(short) => Ok(Bytes {
                form: Form::Short(short),
            }),
            None => boxed(alloc, Vec::from_slice(alloc, bytes)?),
        }
    }

    /// The bytes.
    pub fn as_slice(&self) -> &[u8]
        ensures { result.now ≡ self.now }
    {
        match &self.form {
            Form::Short(short) => short.as_slice(),
            Form::Long(bytes) => bytes.as_slice(),
        }
    }

    /// Forgets the bytes.
    pub fn clear(&mut self)
        ensures { self.new ≡ [] }
    {
        self.form = Form::Short(Short::empty());
    }

    /// A copy. More than 22 bytes take memory, and only then may it be wanting.
    #[inline(always)]
    pub fn try_clone(&self) -> Result<Bytes, AllocError>
        ensures { IsMadeOrLacks self.now (22 < length self.now) result }
    {
        match &self.form {
            Form::Short(short) => Ok(Bytes {
                form: Form::Short(short.copy()),
            }),
            Form::Long(bytes) => copied(bytes),
        }
    }
}

// A copy of what stands in a box.
#[inline(never)]
fn copied(bytes: &Box<Vec<u8>>) -> Result<Bytes, AllocError>
    ensures { IsMadeOrLacks (box_value bytes.now).items (22 < length (box_value bytes.now).items) result }
{
    Bytes::from_slice(*bytes.allocator(), bytes.as_slice())
}

// These bytes in a box.
#[inline(never)]
fn boxed(alloc: Global, bytes: Vec<u8>) -> Result<Bytes, AllocError>
    ensures { IfOk result (λ made. made ≡ bytes.items) }
{
    match Box::new(alloc, bytes) {
        Ok(bytes) => Ok(Bytes {
            form: Form::Long(bytes),
        }),
        Err(_) => Err(AllocError),
    }
}

impl Clone for Bytes {
    ghost is_clone = { λ bytes copy. copy ≡ bytes };

    /// As `try_clone`.
    fn clone(&self) -> Result<Bytes, AllocError> {
        self.try_clone()
    }
}

impl PartialEq for Bytes {
    ghost eq = { pointwise ◌==◌ };

    ghost laws = { Prim.search (comparing, rules) };

    fn eq(&self, other: &Bytes) -> bool {
        self.as_slice() == other.as_slice()
    }
}

impl Eq for Bytes {
    ghost laws = { Prim.search (comparing, rules) };
}

impl PartialOrd for Bytes {
    ghost partial_cmp = { as_partial_cmp (slice_cmp nat_cmp) };

    ghost laws = { partial_order_from_own_ties (Prim.search (comparing, rules)) (Prim.search (comparing, rules)) };

    fn partial_cmp(&self, other: &Bytes) -> Option<Ordering> {
        Some(self.cmp(other))
    }
}

impl Ord for Bytes {
    ghost cmp = { slice_cmp nat_cmp };

    ghost total = { Prim.search (comparing, rules) };

    ghost matches_partial_cmp = { Prim.search (comparing, rules) };

    ghost matches_eq = { Prim.search (comparing, rules) };

    fn cmp(&self, other: &Bytes) -> Ordering {
        match (&self.form, &other.form) {
            (Form::Short(short), Form::Short(with)) => short.compare(with),
            _ => compare(self.as_slice(), other.as_slice()),
        }
    }
}

impl ExactOrd for Bytes {
    ghost exact = { exact_bytes };
}
