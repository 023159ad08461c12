//! `Misread`, and its sentence.

use crate::kinds::Kind;
use crate::quoted::Quoted;
use std::fmt;
use std::marker::Model;

/// Why a line is no command: which word, and what was expected there. It is shown as a sentence. A contract sees whether
/// there is such a word, or a byte.
#[derive(Drop)]
pub struct Misread<'a> {
    pub(crate) wrong: Wrong<'a>,
}

impl<'a> Model for Misread<'a> {
    ghost use Rattle.std.specs.Prelude.{Bool};
    ghost use Rattle.reasons.specs.Misread.{tells_one};

    ghost Value = { Bool };

    ghost view = { λ m. tells_one m.wrong };
}

/// The first thing in a line that keeps it from being a command.
#[derive(Clone, Copy)]
pub(crate) enum Wrong<'a> {
    /// There is none: the line is a command, or says nothing.
    Nothing,
    /// A byte outside of what a line may have, and its column from 1.
    Byte(u8, usize),
    /// A word that isn't of the kind that is expected there.
    Word(&'a [u8], Kind),
    /// Behind this word there is no other, and one of this kind is expected.
    Missing(&'a [u8], Kind),
    /// A word behind the last of the command.
    Extra(&'a [u8]),
}

/// The sentence, with no full stop.
impl fmt::Display for Misread<'_> {
    fn fmt<W: fmt::Write>(&self, f: &mut fmt::Formatter<W>) -> fmt::Result {
        match self.wrong {
            Wrong::Nothing => write!(f, "each word fits"),
            Wrong::Byte(byte, column) => {
                write!(
                    f,
                    "byte {byte} in column {column} is no visible character of ASCII"
                )?;
                write!(f, ": a name has it as %{byte:02x}")
            }
            Wrong::Word(word, kind) => {
                let word = Quoted(word);
                write!(f, "{word} isn't {kind}")
            }
            Wrong::Missing(word, kind) => {
                let word = Quoted(word);
                write!(f, "a word is missing after {word}: {kind}")
            }
            Wrong::Extra(word) => {
                let word = Quoted(word);
                write!(f, "{word} is a word too many")
            }
        }
    }
}
