//! `ObjText`: the text of an object's name, in as little room as its numbers take.
ghost use Rattle.std.proofs.Common.{rules};
ghost use Rattle.std.proofs.lemmas.Map.Lookups.{exact_bytes};
ghost use Rattle.std.specs.Cmp.{partial_order_from_own_ties};
ghost use Rattle.std.specs.Cmp.Lexicographic.{pointwise, slice_cmp};
ghost use Rattle.std.specs.Cmp.Rules.{comparing};
ghost use Rattle.std.specs.Ordering.{nat_cmp, as_partial_cmp};
ghost use Rattle.std.specs.Prelude.{◌≡◌, ◌==◌, ◌≤◌, ◌<◌, true};
ghost use Rattle.mds_types.specs.ObjectForm.{text_lent};
ghost use Rattle.mds_types.specs.ObjectText.{is_tree, is_whole, dir_number, object_text};

use crate::byte_order::compare;
use crate::object_names::{ObjName, Spelt};
use crate::texts::{Text, TextRef};
use sorted_map::{ExactOrd, Probe};
use std::alloc::{AllocError, Global};
use std::cmp::Ordering;
use std::marker::Model;

/// A text that names an object of a store, seen as its bytes and ordered by them. Of the name of an object of this
/// project's the numbers are kept that it is made of, and the text is made where it is asked for; a store may have other
/// objects too.
#[derive(Debug, Drop)]
pub struct ObjText {
    form: Form,
}

// What is kept of a text.
#[derive(Debug, Drop)]
enum Form {
    Object(ObjName),
    Other(Text),
}

/// The text that an `ObjText` is: kept there, or spelt where it is asked for.
#[derive(Drop)]
pub enum LentText<'a> {
    Kept(&'a Text),
    Spelt(Spelt),
}

impl Model for ObjText {
    ghost use Rattle.std.specs.Prelude.{List, ℕ};
    ghost use Rattle.mds_types.specs.ObjectForm.{text_in};

    ghost Value = { List ℕ };

    ghost view = { λ t. text_in t.form };
}

impl<'a> LentText<'a> {
    /// The text.
    pub fn as_str(&self) -> &str
        ensures { result.now ≡ text_lent self.now }
    {
        match self {
            LentText::Kept(text) => text.as_str(),
            LentText::Spelt(text) => text.as_str(),
        }
    }
}

impl ObjText {
    /// The text of an object's name. Takes no memory.
    pub fn of(object: ObjName) -> ObjText
        ensures { result ≡ object_text object }
    {
        ObjText {
            form: Form::Object(object),
        }
    }

    /// Any text.
    pub fn other(text: Text) -> ObjText
        ensures { result ≡ text }
    {
        ObjText {
            form: Form::Other(text),
        }
    }

    /// The text itself. Takes no memory.
    pub fn text(&self) -> LentText<'_>
        ensures { text_lent result ≡ self.now }
    {
        match &self.form {
            Form::Object(object) => LentText::Spelt(Spelt::of(*object)),
            Form::Other(text) => LentText::Kept(text),
        }
    }
}

impl Clone for ObjText {
    ghost is_clone = { λ old new. new ≡ old };

    fn clone(&self) -> Result<ObjText, AllocError> {
        match &self.form {
            Form::Object(object) => Ok(ObjText::of(*object)),
            Form::Other(text) => Ok(ObjText::other(text.clone()?)),
        }
    }
}

impl PartialEq for ObjText {
    ghost eq = { pointwise ◌==◌ };

    ghost laws = { Prim.search (comparing, rules) };

    fn eq(&self, other: &ObjText) -> bool {
        self.cmp(other).is_eq()
    }
}

impl Eq for ObjText {
    ghost laws = { Prim.search (comparing, rules) };
}

impl PartialOrd for ObjText {
    ghost partial_cmp = { as_partial_cmp (slice_cmp nat_cmp) };

    ghost laws = { partial_order_from_own_ties (Prim.search (comparing, rules)) (Prim.search (comparing, rules)) };

    fn partial_cmp(&self, other: &ObjText) -> Option<Ordering> {
        Some(self.cmp(other))
    }
}

impl Ord for ObjText {
    ghost cmp = { slice_cmp nat_cmp };

    ghost total = { Prim.search (comparing, rules) };

    ghost matches_partial_cmp = { Prim.search (comparing, rules) };

    ghost matches_eq = { Prim.search (comparing, rules) };

    fn cmp(&self, other: &ObjText) -> Ordering {
        match (&self.form, &other.form) {
            (Form::Object(x), Form::Object(y)) => order(x, y),
            (Form::Object(x), Form::Other(y)) => order_to(x, y),
            (Form::Other(x), Form::Object(y)) => order_of(x.as_bytes(), y),
            (Form::Other(x), Form::Other(y)) => x.cmp(y),
        }
    }
}

impl ExactOrd for ObjText {
    ghost exact = { exact_bytes };
}

// How the texts of two objects' names compare: mostly as the numbers of their directories.
#[tactic(auto, using(crate::proofs::ObjectOrder::by_numbers_of))]
fn order(x: &ObjName, y: &ObjName) -> Ordering
    ensures { result ≡ slice_cmp nat_cmp (object_text x.now) (object_text y.now) }
{
    let (a, b) = (number(x), number(y));
    if a == b {
        return order_in_directory(x, y);
    }
    if has_eleven_digits(a) && has_eleven_digits(b) {
        return a.cmp(&b);
    }
    order_of_bytes(x, y)
}

// Those of one directory: its whole fragment's stands before its tree's.
#[tactic(auto, using(crate::proofs::ObjectOrder::same_trees, crate::proofs::ObjectOrder::whole_before_tree, crate::proofs::ObjectOrder::tree_behind_whole))]
fn order_in_directory(x: &ObjName, y: &ObjName) -> Ordering
    requires { dir_number x.now ≡ dir_number y.now }
    ensures { result ≡ slice_cmp nat_cmp (object_text x.now) (object_text y.now) }
{
    if is_tree(x) && is_tree(y) {
        return Ordering::Equal;
    }
    if is_whole(x) && is_tree(y) {
        return Ordering::Less;
    }
    if is_tree(x) && is_whole(y) {
        return Ordering::Greater;
    }
    order_of_bytes(x, y)
}

// How the text of an object's name compares with another text.
#[inline(never)]
fn order_to(x: &ObjName, y: &Text) -> Ordering
    ensures { result ≡ slice_cmp nat_cmp (object_text x.now) y.now }
{
    let one = Spelt::of(*x);
    compare(one.as_bytes(), y.as_bytes())
}

// How another text compares with that of an object's name.
#[inline(never)]
fn order_of(x: &[u8], y: &ObjName) -> Ordering
    ensures { result ≡ slice_cmp nat_cmp x.now (object_text y.now) }
{
    let two = Spelt::of(*y);
    compare(x, two.as_bytes())
}

// How they compare, byte by byte.
#[inline(never)]
fn order_of_bytes(x: &ObjName, y: &ObjName) -> Ordering
    ensures { result ≡ slice_cmp nat_cmp (object_text x.now) (object_text y.now) }
{
    let one = Spelt::of(*x);
    let two = Spelt::of(*y);
    compare(one.as_bytes(), two.as_bytes())
}

// The number of an object's directory.
fn number(object: &ObjName) -> u64
    ensures { result ≡ dir_number object.now }
{
    match object {
        ObjName::Frag(ino, _) => ino.0,
        ObjName::Tree(ino) => ino.0,
    }
}

// Whether it is that of a fragment tree,
fn is_tree(object: &ObjName) -> bool
    ensures { result ≡ is_tree object.now }
{
    matches!(object, ObjName::Tree(_))
}

// or that of a directory's whole fragment.
fn is_whole(object: &ObjName) -> bool
    ensures { result ≡ is_whole object.now }
{
    match object {
        ObjName::Frag(_, frag) => frag.word() == 0,
        ObjName::Tree(_) => false,
    }
}

// Whether a number has eleven digits in hexadecimal, as those of the first fifteen ranks have.
fn has_eleven_digits(number: u64) -> bool
    ensures { result ≡ true → (1099511627776 ≤ number) × (number < 17592186044416) }
{
    1_099_511_627_776 <= number && number < 17_592_186_044_416
}

impl<'a> Probe<ObjText> for TextRef<'a> {
    ghost key = { λ p. p.text.now };

    fn order(&self, other: &ObjText) -> Ordering {
        match &other.form {
            Form::Object(object) => order_of(self.text.as_bytes(), object),
            Form::Other(text) => compare(self.text.as_bytes(), text.as_bytes()),
        }
    }
}
