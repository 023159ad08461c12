//! Words in a row: keys of an object, or names of objects.
ghost use Rattle.std.proofs.lemmas.Slice.Eq.{bytes_eq-Decides, slice_eq-Decides};
ghost use Rattle.std.specs.Cmp.{decided, partial_equiv_from_equiv};
ghost use Rattle.std.specs.Cmp.Lexicographic.{lists_equiv, pointwise};
ghost use Rattle.std.specs.List.{flat_map};
ghost use Rattle.std.specs.Prelude.{◌≡◌, ◌==◌, IfOk, Some, map, string_bytes};
ghost use Rattle.script_output.specs.Texts.{objects_text, spaced_word};

use crate::escapes::Escaped;
use mds_types::Bytes;
use std::alloc::{AllocError, Global};
use std::fmt;
use std::marker::Model;

/// Strings of bytes that print as words, in the order in which they were put. Seen by its contents, never by its
/// capacity.
#[derive(Debug, Drop)]
pub struct WordList {
    words: Vec<Bytes>,
}

impl Model for WordList {
    ghost use Rattle.std.specs.Prelude.{List, ℕ};

    ghost Value = { List (List ℕ) };

    ghost view = { λ l. l.words.items };
}

impl WordList {
    /// The list of these strings. Takes no memory.
    pub fn from_vec(words: Vec<Bytes>) -> WordList
        ensures { result ≡ words.items }
    {
        WordList { words }
    }

    /// The list of these texts' bytes. Takes memory for the places of the list alone.
    pub fn from_texts(alloc: Global, texts: Vec<String>) -> Result<WordList, AllocError>
        ensures { IfOk result (λ words. words ≡ map string_bytes texts.items) }
    {
        let mut words = Vec::with_capacity(alloc, texts.len())?;
        for text in texts {
            words.push(Bytes::from_vec(alloc, text.into_bytes())?)?;
        }
        Ok(WordList { words })
    }

    // The strings.
    pub(crate) fn as_slice(&self) -> &[Bytes]
        ensures { result.now ≡ self.now }
    {
        self.words.as_slice()
    }
}

impl PartialEq for WordList {
    ghost eq = { pointwise (pointwise ◌==◌) };

    ghost laws = { partial_equiv_from_equiv (lists_equiv (decided (pointwise ◌==◌) bytes_eq-Decides)) };

    fn eq(&self, other: &WordList) -> bool {
        self.words == other.words
    }
}

impl Eq for WordList {
    ghost laws = { lists_equiv (decided (pointwise ◌==◌) bytes_eq-Decides) };
}

/// Each word, behind a space.
#[derive(Clone, Copy)]
pub struct WordTexts<'a>(pub &'a WordList);

impl fmt::Display for WordTexts<'_> {
    ghost output = { λ text. Some (flat_map spaced_word text.0.now) };

    fn fmt<W: fmt::Write>(&self, f: &mut fmt::Formatter<W>) -> fmt::Result {
        for word in self.0.as_slice() {
            let word = Escaped(word.as_slice());
            write!(f, " {word}")?;
        }
        Ok(())
    }
}

/// `objects K NAME ..`: how many names, and then each of them.
#[derive(Clone, Copy)]
pub struct ObjectsText<'a>(pub &'a WordList);

impl fmt::Display for ObjectsText<'_> {
    ghost output = { λ text. Some (objects_text text.0.now) };

    fn fmt<W: fmt::Write>(&self, f: &mut fmt::Formatter<W>) -> fmt::Result {
        let count = self.0.as_slice().len();
        let names = WordTexts(self.0);
        write!(f, "objects {count}{names}")
    }
}
