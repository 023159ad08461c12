//! The forms of commands: which words follow which, as docs/SCRIPT.md has them.

use crate::kinds::Kind;
use script_words::is_text;

/// What may follow the words of a form.
#[derive(Clone, Copy)]
pub(crate) enum Tail {
    /// Nothing.
    End,
    /// `[uid N] [gid N]`
    Birth,
    /// `[mode MODE] [size N] [mtime N] [uid N] [gid N]`, at least one of them.
    Attributes,
    /// An operation with its words.
    Operation,
    /// A word that names one of several steps, with its words.
    Dirfrag,
    Export,
    Get,
}

/// The words that follow a first word: of fewer than four the rest are none.
#[derive(Clone, Copy)]
pub(crate) struct Form {
    pub(crate) words: [Kind; 4],
    pub(crate) tail: Tail,
}

const NOT: Kind = Kind::None;

// A form of these words, and nothing else.
fn whole(words: [Kind; 4]) -> Option<Form> {
    Some(Form {
        words,
        tail: Tail::End,
    })
}

// A form of these words with what may follow.
fn with_tail(words: [Kind; 4], tail: Tail) -> Option<Form> {
    Some(Form { words, tail })
}

/// The form of the operation of this first word, if it is one.
pub(crate) fn operation_form(verb: &[u8]) -> Option<Form> {
    if is_text(verb, b"readdir") {
        return whole([Kind::Ino, Kind::After, Kind::Max, NOT]);
    }
    if is_text(verb, b"create") || is_text(verb, b"mkdir") {
        return with_tail([Kind::Ino, Kind::Name, Kind::Mode, NOT], Tail::Birth);
    }
    if is_text(verb, b"symlink") {
        return with_tail([Kind::Ino, Kind::Name, Kind::Target, NOT], Tail::Birth);
    }
    if is_text(verb, b"setattr") {
        return with_tail([Kind::Ino, Kind::Name, NOT, NOT], Tail::Attributes);
    }
    if is_text(verb, b"setpin") {
        return whole([Kind::Ino, Kind::Name, Kind::Pin, NOT]);
    }
    if is_text(verb, b"rename") {
        return whole([Kind::Ino, Kind::Name, Kind::Ino, Kind::Name]);
    }
    if is_of_dentry(verb) {
        return whole([Kind::Ino, Kind::Name, NOT, NOT]);
    }
    None
}

// Whether a name alone follows the operation's first word.
fn is_of_dentry(verb: &[u8]) -> bool {
    is_text(verb, b"lookup")
        || is_text(verb, b"readlink")
        || is_text(verb, b"unlink")
        || is_text(verb, b"rmdir")
}

/// The form of the line of this first word, if it is one of a command.
pub(crate) fn command_form(verb: &[u8]) -> Option<Form> {
    let operation = operation_form(verb);
    if operation.is_some() {
        return operation;
    }
    if is_text(verb, b"req") {
        return with_tail(
            [Kind::Rank, Kind::Client, Kind::Tid, Kind::Oldest],
            Tail::Operation,
        );
    }
    if is_text(verb, b"grant") {
        return whole([Kind::Rank, Kind::AnyClient, Kind::Tid, NOT]);
    }
    if is_text(verb, b"authority") {
        return whole([Kind::Ino, Kind::Frag, NOT, NOT]);
    }
    if is_text(verb, b"dirfrag") {
        return with_tail([NOT, NOT, NOT, NOT], Tail::Dirfrag);
    }
    if is_text(verb, b"export") {
        return with_tail([NOT, NOT, NOT, NOT], Tail::Export);
    }
    if is_text(verb, b"get") {
        return with_tail([NOT, NOT, NOT, NOT], Tail::Get);
    }
    other_form(verb)
}

// The form of a line on a rank or on the store.
fn other_form(verb: &[u8]) -> Option<Form> {
    if is_text(verb, b"serve") || is_text(verb, b"own") || is_text(verb, b"evict") {
        return whole([Kind::Rank, NOT, NOT, NOT]);
    }
    if is_text(verb, b"begin") || is_text(verb, b"commit") {
        return whole([Kind::Rank, Kind::Ino, Kind::Frag, NOT]);
    }
    if is_text(verb, b"end") || is_text(verb, b"drop") {
        return whole([Kind::Job, NOT, NOT, NOT]);
    }
    if is_text(verb, b"tree") {
        return whole([Kind::Ino, NOT, NOT, NOT]);
    }
    if is_text(verb, b"object") {
        return whole([Kind::Object, NOT, NOT, NOT]);
    }
    if is_alone(verb) {
        return whole([NOT, NOT, NOT, NOT]);
    }
    None
}

// Whether the line has no further word.
fn is_alone(verb: &[u8]) -> bool {
    is_text(verb, b"history")
        || is_text(verb, b"purge")
        || is_text(verb, b"flush")
        || is_text(verb, b"objects")
}

/// The form of what follows this word after `dirfrag`, if it is a step.
pub(crate) fn dirfrag_form(step: &[u8]) -> Option<Form> {
    if is_text(step, b"split") {
        return whole([Kind::Rank, Kind::Ino, Kind::Frag, Kind::Bits]);
    }
    if is_text(step, b"merge") {
        return whole([Kind::Rank, Kind::Ino, Kind::Frag, NOT]);
    }
    if is_text(step, b"ls") {
        return whole([Kind::Ino, NOT, NOT, NOT]);
    }
    None
}

/// The form of what follows this word after `export`, if it is a step.
pub(crate) fn export_form(step: &[u8]) -> Option<Form> {
    if is_text(step, b"dir") {
        return whole([Kind::Rank, Kind::Ino, Kind::Frag, Kind::Rank]);
    }
    if is_export_step(step) {
        return whole([Kind::Ino, Kind::Frag, NOT, NOT]);
    }
    None
}

// Whether the word names a step of an export under way.
fn is_export_step(step: &[u8]) -> bool {
    is_text(step, b"freeze")
        || is_text(step, b"prep")
        || is_text(step, b"send")
        || is_text(step, b"import")
        || is_text(step, b"finish")
        || is_text(step, b"cancel")
}

/// The form of what follows this word after `get`, if it is one.
pub(crate) fn get_form(what: &[u8]) -> Option<Form> {
    if is_text(what, b"subtrees") {
        return whole([NOT, NOT, NOT, NOT]);
    }
    None
}
