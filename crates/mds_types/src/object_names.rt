//! The names of objects in the store.
ghost use Rattle.std.specs.Prelude.{◌≡◌, ◌≤◌, ◌-◌, IsUtf8, Some, drop, take};
ghost use Rattle.mds_types.specs.ObjectText.{TextsDiffer, object_text};
ghost use Rattle.mds_types.specs.declared.object_names.ObjName.TheVariants as name;

use crate::digits::write_digits_in;
use crate::frags::Frag;
use crate::ids::Ino;
use std::fmt;
use std::marker::Model;

// Where the number of an inode ends at the latest, which has sixteen digits at most,
const DOT: usize = 16;

// and the text, with the dot and eight digits or letters.
const END: usize = 25;

/// The object of a directory's fragment, or that of its fragment tree.
#[derive(Clone, Copy, Debug, PartialEq, Eq)]
pub enum ObjName {
    Frag(Ino, Frag),
    Tree(Ino),
}

/// The name as text: the inode in lower hexadecimal without leading zeros, a dot, and the fragment's word in 8
/// hexadecimal digits, as `1.01800000`; or `fragtree` for the fragment tree, as `1.fragtree`.
impl fmt::Display for ObjName {
    ghost output = { λ n. Some (object_text n) };

    fn fmt<W: fmt::Write>(&self, f: &mut fmt::Formatter<W>) -> fmt::Result {
        match self {
            ObjName::Frag(ino, frag) => {
                let (ino, word) = (ino.0, frag.word());
                write!(f, "{ino:x}.{word:08x}")
            }
            ObjName::Tree(ino) => {
                let ino = ino.0;
                write!(f, "{ino:x}.fragtree")
            }
        }
    }
}

impl ObjName {
    /// No two objects have one text: a law, the contract of a function that does nothing.
    pub fn texts_differ()
        ensures { TextsDiffer }
    {}
}

/// The text of an object's name, spelt where it is asked for, in no memory of its own.
#[derive(Drop)]
pub struct Spelt {
    ending: Ending,
}

// A text at the end of as many bytes as the longest has.
#[derive(Drop)]
struct Ending {
    bytes: [u8; END],
    start: usize,
}

impl Model for Spelt {
    ghost use Rattle.std.specs.Prelude.{◌≤◌, ◌-◌, IsUtf8, List, drop, take, ℕ};

    ghost Value = { List ℕ };

    ghost view = { λ s. take (25 - s.ending.start) (drop s.ending.start s.ending.bytes) };

    ghost invariant = { λ s. (s.ending.start ≤ 16)
        × IsUtf8 (take (25 - s.ending.start) (drop s.ending.start s.ending.bytes)) };
}

impl Spelt {
    /// The text of this name.
    pub fn of(object: ObjName) -> Spelt
        ensures { result ≡ object_text object }
    {
        Spelt {
            ending: spell(object),
        }
    }

    /// Its bytes.
    pub(crate) fn as_bytes(&self) -> &[u8]
        ensures { result.now ≡ self.now }
    {
        let ending = &self.ending;
        &ending.bytes[ending.start..]
    }

    /// The text.
    pub fn as_str(&self) -> &str
        ensures { result.now ≡ self.now }
    {
        let ending = &self.ending;
        match str::from_utf8(&ending.bytes[ending.start..]) {
            Ok(text) => text,
            Err(_) => unreachable!(),
        }
    }
}

// The text of an object's name.
fn spell(object: ObjName) -> Ending
    ensures text { take (25 - result.start) (drop result.start result.bytes) ≡ object_text object }
    ensures utf8 { IsUtf8 (take (25 - result.start) (drop result.start result.bytes)) }
    ensures start { result.start ≤ 16 }
{
    match object {
        ObjName::Frag(ino, frag) => frag_spelt(ino.0, frag),
        ObjName::Tree(ino) => tree_spelt(ino.0),
    }
}

// That of a fragment's object.
fn frag_spelt(ino: u64, frag: Frag) -> Ending
    ensures text { take (25 - result.start) (drop result.start result.bytes)
        ≡ object_text (name.Frag (record { 0 = ino }) frag) }
    ensures utf8 { IsUtf8 (take (25 - result.start) (drop result.start result.bytes)) }
    ensures start { result.start ≤ 16 }
{
    let mut bytes = [b'0'; END];
    let _ = write_digits_in(16, u64::from(frag.word()), &mut bytes, END);
    bytes[DOT] = b'.';
    let start = write_digits_in(16, ino, &mut bytes, DOT);
    Ending { bytes, start }
}

// That of the object of a fragment tree.
fn tree_spelt(ino: u64) -> Ending
    ensures text { take (25 - result.start) (drop result.start result.bytes)
        ≡ object_text (name.Tree (record { 0 = ino })) }
    ensures utf8 { IsUtf8 (take (25 - result.start) (drop result.start result.bytes)) }
    ensures start { result.start ≤ 16 }
{
    let mut bytes = *b"0000000000000000.fragtree";
    let start = write_digits_in(16, ino, &mut bytes, DOT);
    Ending { bytes, start }
}
