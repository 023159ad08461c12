//! A word of a line, as a sentence has it.

use std::fmt;

// The most bytes of a word that are shown.
const SHOWN: usize = 40;

/// A word in backquotes, of a long one its beginning.
#[derive(Clone, Copy)]
pub(crate) struct Quoted<'a>(pub(crate) &'a [u8]);

impl fmt::Display for Quoted<'_> {
    fn fmt<W: fmt::Write>(&self, f: &mut fmt::Formatter<W>) -> fmt::Result {
        let Ok(text) = str::from_utf8(beginning(self.0)) else {
            return write!(f, "a word");
        };
        if self.0.len() > SHOWN {
            return write!(f, "`{text}..`");
        }
        write!(f, "`{text}`")
    }
}

// So many of the first bytes as are shown.
fn beginning(word: &[u8]) -> &[u8] {
    if word.len() > SHOWN {
        return word.split_at(SHOWN).0;
    }
    word
}
