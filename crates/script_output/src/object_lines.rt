//! The line of an object.
ghost use Rattle.std.specs.Prelude.{Some};
ghost use Rattle.script_output.specs.ObjectLines.{object_line_text};

use crate::frag_lists::{FragList, TreeText};
use crate::word_lists::{WordList, WordTexts};
use std::fmt;

/// What is printed of an object of the store.
#[derive(Debug, Drop, PartialEq, Eq)]
pub enum ObjectLine {
    /// `frag VERSION FILES DIRS KEY ..`: it is a fragment's, at this commit version.
    Frag {
        version: u64,
        /// The number of entries that aren't directories.
        files: u64,
        /// The number of entries that are directories.
        dirs: u64,
        /// The keys of the entries.
        keys: WordList,
    },
    /// `tree K F ..`: it is a fragment tree's, which has these leaves.
    Tree(FragList),
    /// `absent`: there is no such object.
    Absent,
    /// `damaged`: it is neither.
    Damaged,
}

impl fmt::Display for ObjectLine {
    ghost output = { λ line. Some (object_line_text line) };

    fn fmt<W: fmt::Write>(&self, f: &mut fmt::Formatter<W>) -> fmt::Result {
        match self {
            ObjectLine::Frag {
                version,
                files,
                dirs,
                keys,
            } => {
                let keys = WordTexts(keys);
                write!(f, "frag {version} {files} {dirs}{keys}")
            }
            ObjectLine::Tree(leaves) => {
                let tree = TreeText(leaves);
                write!(f, "{tree}")
            }
            ObjectLine::Absent => write!(f, "absent"),
            ObjectLine::Damaged => write!(f, "damaged"),
        }
    }
}
