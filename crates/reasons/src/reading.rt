//! A line is read word by word, until one doesn't fit.
ghost use Rattle.std.specs.Prelude.{◌≡◌, [], true, false};
ghost use Rattle.std.specs.List.{list_all};
ghost use Rattle.script_words.specs.Words.{is_comment, is_printable, words_of};
ghost use Rattle.reasons.specs.Misread.{tells_one};

use crate::forms::{Form, Tail, command_form, dirfrag_form, export_form, get_form, operation_form};
use crate::kinds::{Kind, fits};
use crate::misreadings::{Misread, Wrong};
use script_words::{is_comment, is_printable, is_text, next_word};

/// Why a line is no command: which word, and what was expected there. The line is that of a reader without its LF. The
/// first word that doesn't fit is told. Takes no memory.
pub fn misread(line: &[u8]) -> Misread<'_>
    ensures comment { is_comment line.now ≡ true → result ≡ false }
    ensures empty { is_comment line.now ≡ false → list_all is_printable line.now ≡ true → words_of line.now ≡ []
        → result ≡ false }
    ensures stray { is_comment line.now ≡ false → list_all is_printable line.now ≡ false → result ≡ true }
{
    Misread {
        wrong: first_wrong(line),
    }
}

// What is left of a line behind a word.
#[derive(Clone, Copy)]
struct Read<'a> {
    last: &'a [u8],
    rest: &'a [u8],
}

// The first thing in a line that is wrong.
fn first_wrong(line: &[u8]) -> Wrong<'_>
    ensures comment { is_comment line.now ≡ true → tells_one result ≡ false }
    ensures empty { is_comment line.now ≡ false → list_all is_printable line.now ≡ true → words_of line.now ≡ []
        → tells_one result ≡ false }
    ensures stray { is_comment line.now ≡ false → list_all is_printable line.now ≡ false → tells_one result ≡ true }
{
    if is_comment(line) {
        return Wrong::Nothing;
    }
    if !is_printable(line) {
        return stray_byte(line);
    }
    match next_word(line) {
        Some((verb, rest)) => wrong_in_command(verb, rest),
        None => Wrong::Nothing,
    }
}

// The first byte that is no visible character of ASCII and no space, with its column from 1.
fn stray_byte(line: &[u8]) -> Wrong<'_>
    ensures { tells_one result ≡ true }
{
    for i in 0..line.len() {
        if line[i] < 0x20 || line[i] > 0x7e {
            return Wrong::Byte(line[i], i + 1);
        }
    }
    Wrong::Extra(line)
}

// What is wrong in the words after a first one, or with that.
fn wrong_in_command<'a>(verb: &'a [u8], rest: &'a [u8]) -> Wrong<'a> {
    let Some(form) = command_form(verb) else {
        return Wrong::Word(verb, Kind::Command);
    };
    match read_words(Read { last: verb, rest }, form.words) {
        Ok(read) => wrong_in_tail(read, form.tail),
        Err(wrong) => wrong,
    }
}

// Reads words of these kinds.
fn read_words(read: Read<'_>, kinds: [Kind; 4]) -> Result<Read<'_>, Wrong<'_>> {
    let mut read = read;
    for kind in kinds {
        match kind {
            Kind::None => return Ok(read),
            other => read = read_word(read, other)?,
        }
    }
    Ok(read)
}

// Reads a word of this kind.
fn read_word(read: Read<'_>, kind: Kind) -> Result<Read<'_>, Wrong<'_>> {
    let Some((word, rest)) = next_word(read.rest) else {
        return Err(Wrong::Missing(read.last, kind));
    };
    if !fits(kind, word) {
        return Err(Wrong::Word(word, kind));
    }
    Ok(Read { last: word, rest })
}

// What is wrong in what may follow the words of a command.
fn wrong_in_tail(read: Read<'_>, tail: Tail) -> Wrong<'_> {
    match tail {
        Tail::Operation => wrong_in_step(read, Kind::Operation),
        Tail::Dirfrag => wrong_in_step(read, Kind::DirfragStep),
        Tail::Export => wrong_in_step(read, Kind::ExportStep),
        Tail::Get => wrong_in_step(read, Kind::Subtrees),
        other => wrong_at_end(read, other),
    }
}

// What is wrong in a word that names one of several steps, and in what follows it.
fn wrong_in_step(read: Read<'_>, kind: Kind) -> Wrong<'_> {
    let Some((step, rest)) = next_word(read.rest) else {
        return Wrong::Missing(read.last, kind);
    };
    let Some(form) = step_form(kind, step) else {
        return Wrong::Word(step, kind);
    };
    match read_words(Read { last: step, rest }, form.words) {
        Ok(read) => wrong_at_end(read, form.tail),
        Err(wrong) => wrong,
    }
}

// The form of what follows a word that names one of several steps, if it names one.
fn step_form(kind: Kind, step: &[u8]) -> Option<Form> {
    match kind {
        Kind::Operation => operation_form(step),
        Kind::DirfragStep => dirfrag_form(step),
        Kind::ExportStep => export_form(step),
        Kind::Subtrees => get_form(step),
        _ => None,
    }
}

// What is wrong where a line ends, but for attributes that may be given.
fn wrong_at_end(read: Read<'_>, tail: Tail) -> Wrong<'_> {
    match tail {
        Tail::Birth => wrong_in_birth(read),
        Tail::Attributes => wrong_in_attributes(read),
        _ => match next_word(read.rest) {
            Some((word, _)) => Wrong::Extra(word),
            None => Wrong::Nothing,
        },
    }
}

// What is wrong in `[uid N] [gid N]`.
fn wrong_in_birth(read: Read<'_>) -> Wrong<'_> {
    match read_owner(read) {
        Ok(read) => wrong_behind(read, Kind::Birth),
        Err(wrong) => wrong,
    }
}

// What is wrong in `[mode MODE] [size N] [mtime N] [uid N] [gid N]`.
fn wrong_in_attributes(read: Read<'_>) -> Wrong<'_> {
    if next_word(read.rest).is_none() {
        return Wrong::Missing(read.last, Kind::Attributes);
    }
    match read_attributes(read) {
        Ok(read) => wrong_behind(read, Kind::Attributes),
        Err(wrong) => wrong,
    }
}

// Reads what is given of the attributes.
fn read_attributes(read: Read<'_>) -> Result<Read<'_>, Wrong<'_>> {
    let read = read_keyed(read, b"mode", Kind::Mode)?;
    let read = read_keyed(read, b"size", Kind::Number)?;
    let read = read_keyed(read, b"mtime", Kind::Number)?;
    read_owner(read)
}

// Reads owner and group, where they are given.
fn read_owner(read: Read<'_>) -> Result<Read<'_>, Wrong<'_>> {
    let read = read_keyed(read, b"uid", Kind::Id)?;
    read_keyed(read, b"gid", Kind::Id)
}

// Reads a key and the word behind it, where this key is next.
fn read_keyed<'a>(read: Read<'a>, key: &[u8], kind: Kind) -> Result<Read<'a>, Wrong<'a>> {
    let Some((word, rest)) = next_word(read.rest) else {
        return Ok(read);
    };
    if !is_text(word, key) {
        return Ok(read);
    }
    read_word(Read { last: word, rest }, kind)
}

// What is wrong where no further word may follow.
fn wrong_behind(read: Read<'_>, kind: Kind) -> Wrong<'_> {
    match next_word(read.rest) {
        Some((word, _)) => Wrong::Word(word, kind),
        None => Wrong::Nothing,
    }
}
