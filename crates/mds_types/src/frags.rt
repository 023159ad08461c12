//! Directory fragments.
ghost use Rattle.std.specs.Prelude.{◌≡◌, ℕ, ◌+◌, ◌-◌, ◌*◌, ◌/◌, ◌%◌, ◌^◌, ◌<◌, ◌≤◌, ◌↔◌, IsTrue, SomeIff, MatchOption, Some};
ghost use Rattle.mds_types.specs.OrderLaws.{frag-exact};
ghost use Rattle.mds_types.specs.Frag.{Fragment, IsFragment, root_fragment, word_of, Contains, ContainsFragment, child_of, parent_of, span, fragment_text};

use sorted_map::ExactOrd;
use std::fmt;
use std::marker::Model;

/// A fragment of a directory: the part whose names hash to numbers that begin with certain bits (CephFS's `frag_t`).
/// Hashes have 24 bits; a fragment of `b` bits fixes the top `b` of them. Fragments are ordered by value and then by
/// bits.
#[derive(Clone, Copy, Debug, PartialEq, Eq, PartialOrd, Ord, Hash)]
pub struct Frag {
    value: u32,
    bits: u8,
}

impl Model for Frag {
    ghost use Rattle.mds_types.specs.Frag.{Fragment, IsFragment};

    ghost Value = { Fragment };

    ghost view = { λ f. record { bits = f.bits; value = f.value } };

    ghost invariant = { λ f. IsFragment (record { bits = f.bits; value = f.value }) };

    ghost inverse = { λ f. record { bits = f.bits; value = f.value } };
}

impl ExactOrd for Frag {
    ghost exact = { frag-exact };
}

impl Frag {
    /// The fragment that contains every hash, `*`.
    pub const ROOT: Frag = Frag { value: 0, bits: 0 };

    /// The most bits that a fragment has, and the bits of a hash that play a part.
    pub const MAX_BITS: u8 = 24;

    /// The fragment of this value and number of bits, if it is one: at most 24 bits, and the value left-justified in
    /// 24 bits and zero below them.
    pub fn new(value: u32, bits: u8) -> Option<Frag>
        ensures { SomeIff result (IsFragment (record { bits = bits; value = value }))
            (record { bits = bits; value = value }) }
    {
        if bits > Frag::MAX_BITS || value >= 1 << 24 || value % span(bits) != 0 {
            return None;
        }
        Some(Frag { value, bits })
    }

    /// The word that names the fragment in an object's name: the number of bits above the 24 bits of the value.
    pub fn word(self) -> u32
        ensures { result ≡ word_of self }
    {
        (u32::from(self.bits) << 24) + self.value
    }

    /// The bits that the fragment fixes, left-justified in 24 bits.
    pub fn value(self) -> u32
        ensures value { result ≡ self.value }
        ensures valid { IsFragment self }
    {
        self.value
    }

    /// How many leading bits of a hash the fragment fixes, 0 to 24.
    pub fn bits(self) -> u8
        ensures bits { result ≡ self.bits }
        ensures valid { IsFragment self }
    {
        self.bits
    }

    /// Whether a name of this hash belongs to the fragment. The top 8 bits of the hash play no part.
    pub fn contains(self, hash: u32) -> bool
        ensures { IsTrue result ↔ Contains self hash }
    {
        let size = span(self.bits);
        hash % (1 << 24) / size == self.value / size
    }

    /// Whether the other fragment lies within this one; each lies within itself.
    pub fn contains_frag(self, other: Frag) -> bool
        ensures { IsTrue result ↔ ContainsFragment self other }
    {
        let size = span(self.bits);
        self.bits <= other.bits && other.value / size == self.value / size
    }

    /// The `i`-th of the `2^nb` fragments of `nb` more bits within this one, by value; none for an `i` from `2^nb` on
    /// or more than 24 bits.
    pub fn child(self, i: u32, nb: u8) -> Option<Frag>
        ensures { SomeIff result ((self.bits + nb ≤ 24) × (i < 2 ^ nb)) (child_of self i nb) }
    {
        if nb > Frag::MAX_BITS - self.bits || i >= 1 << nb {
            return None;
        }
        let bits = self.bits + nb;
        Some(Frag {
            value: self.value + i * span(bits),
            bits,
        })
    }

    /// The fragment of one bit less around this one; the root fragment has none.
    pub fn parent(self) -> Option<Frag>
        ensures { SomeIff result (0 < self.bits) (parent_of self) }
    {
        if self.bits == 0 {
            return None;
        }
        let bits = self.bits - 1;
        Some(Frag {
            value: self.value - self.value % span(bits),
            bits,
        })
    }
}

// How many hashes a fragment of so many bits contains.
fn span(bits: u8) -> u32
    requires { bits ≤ 24 }
    ensures value { result ≡ span bits }
    ensures some { 0 < result }
{
    1 << (24 - bits)
}

/// The bits of the fragment and a star, as CephFS prints it: `*` for the root fragment, `01*` for one of two bits.
impl fmt::Display for Frag {
    ghost output = { λ f. Some (fragment_text f) };

    fn fmt<W: fmt::Write>(&self, f: &mut fmt::Formatter<W>) -> fmt::Result {
        for k in 0..self.bits {
            let digit = self.value / span(k + 1) % 2;
            write!(f, "{digit}")?;
        }
        write!(f, "*")
    }
}
