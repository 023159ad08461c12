//! What a word of a line stands for, and whether a word does.

use script_words::{client, decimal, frag, id, ino, mode, page_size, pin, rank, split_bits};
use std::fmt;

/// What a word of a line has to be.
#[derive(Clone, Copy)]
pub(crate) enum Kind {
    /// There is no such word.
    None,
    Ino,
    Name,
    After,
    Target,
    Max,
    Mode,
    /// The N of a size or a time.
    Number,
    /// The N of an owner or a group.
    Id,
    Rank,
    /// A rank, or `-1`.
    Pin,
    /// A client that sends requests.
    Client,
    /// A client, or 0 for that of operations alone.
    AnyClient,
    Tid,
    Oldest,
    Frag,
    Bits,
    Job,
    Object,
    /// The first word of a line,
    Command,
    /// that of an operation,
    Operation,
    /// the word after `dirfrag`,
    DirfragStep,
    /// after `export`,
    ExportStep,
    /// and after `get`.
    Subtrees,
    /// What follows a new inode: who owns it.
    Birth,
    /// What a setattr gives.
    Attributes,
}

/// Whether a word is of this kind. A first word is looked up by what it begins (`forms`), and none is of no kind.
pub(crate) fn fits(kind: Kind, word: &[u8]) -> bool {
    match kind {
        Kind::Ino => ino(word).is_ok(),
        Kind::Name | Kind::After | Kind::Target => is_spelled(word),
        Kind::Max => page_size(word).is_ok(),
        Kind::Mode => mode(word).is_ok(),
        Kind::Number | Kind::AnyClient | Kind::Tid | Kind::Oldest | Kind::Job => {
            decimal(word).is_ok()
        }
        Kind::Id => id(word).is_ok(),
        Kind::Rank => rank(word).is_ok(),
        Kind::Pin => pin(word).is_ok(),
        Kind::Client => client(word).is_ok(),
        Kind::Frag => frag(word).is_ok(),
        Kind::Bits => split_bits(word).is_ok(),
        Kind::Object => true,
        Kind::None
        | Kind::Command
        | Kind::Operation
        | Kind::DirfragStep
        | Kind::ExportStep
        | Kind::Subtrees
        | Kind::Birth
        | Kind::Attributes => false,
    }
}

// Whether two hexadecimal digits follow each `%` of a word.
fn is_spelled(word: &[u8]) -> bool {
    let mut lacks = 0_u8;
    for byte in word {
        if lacks > 0 {
            if !is_hexadecimal(*byte) {
                return false;
            }
            lacks -= 1;
        } else if *byte == b'%' {
            lacks = 2;
        }
    }
    lacks == 0
}

// Whether a byte is a hexadecimal digit of either case.
fn is_hexadecimal(byte: u8) -> bool {
    match byte {
        b'0'..=b'9' | b'a'..=b'f' | b'A'..=b'F' => true,
        _ => false,
    }
}

/// What was expected, as a sentence has it.
impl fmt::Display for Kind {
    fn fmt<W: fmt::Write>(&self, f: &mut fmt::Formatter<W>) -> fmt::Result {
        let text = text_of(*self);
        write!(f, "{text}")
    }
}

// The words for a kind.
fn text_of(kind: Kind) -> &'static str {
    match kind {
        Kind::None => "no word",
        Kind::Ino => "an INO (lower hexadecimal, no leading zeros)",
        Kind::Name => "a NAME (two hexadecimal digits follow each %)",
        Kind::After => "an AFTER (a name or -; two hexadecimal digits follow each %)",
        Kind::Target => "a TARGET (two hexadecimal digits follow each %)",
        Kind::Max => "a MAX (decimal, 1 to 1024)",
        Kind::Mode => "a MODE (one to four octal digits)",
        Kind::Number => "a number (decimal, 64 bits, no leading zeros)",
        Kind::Id => "a number (decimal, 32 bits, no leading zeros)",
        Kind::Rank => "a RANK (decimal, 0 to 255)",
        Kind::Pin => "a RANK (decimal, 0 to 255) or -1",
        Kind::Client => "a CLIENT (decimal, at least 1)",
        Kind::AnyClient => "a CLIENT (decimal, 64 bits, no leading zeros)",
        Kind::Tid => "a TID (decimal, 64 bits, no leading zeros)",
        Kind::Oldest => "an OLDEST (decimal, 64 bits, no leading zeros)",
        Kind::Frag => "a FRAG (up to 24 binary digits, then a star)",
        Kind::Bits => "an NB (a number of bits, 1 to 8)",
        Kind::Job => "a job's number (decimal, no leading zeros)",
        other => text_of_first(other),
    }
}

// The words for a kind that names what a word begins.
fn text_of_first(kind: Kind) -> &'static str {
    match kind {
        Kind::Object => "an object's name",
        Kind::Command => "a command's first word",
        Kind::Operation => "an operation's first word",
        Kind::DirfragStep => "split, merge or ls",
        Kind::ExportStep => "dir, freeze, prep, send, import, finish or cancel",
        Kind::Subtrees => "subtrees",
        Kind::Birth => "uid N or gid N, each at most once and in this order",
        Kind::Attributes => {
            "mode MODE, size N, mtime N, uid N or gid N, each at most once and in this order"
        }
        _ => "a word",
    }
}
