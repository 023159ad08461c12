//! Commands on the exports of subtrees, by the word after `export`.
ghost use Rattle.script_words.specs.Words.{words_of};
ghost use Rattle.script_words.specs.Reading.{ReadsWord};
ghost use Rattle.script_text.specs.Exports.{dir_of, export_of_words, export_step_of, exported_of};

use mds_types::{Frag, Ino, Rank};
use script_words::{NOT_COMMAND, ReadError, first, four, frag, ino, is_text, rank, two};

/// What a line on an export asks for. But for the first, an export is named by its root: a fragment of a directory.
#[derive(Debug, Drop, PartialEq, Eq)]
pub enum ExportCommand {
    /// An export begins: what is below a fragment is to go from one rank to another.
    Dir {
        from: Rank,
        ino: Ino,
        frag: Frag,
        to: Rank,
    },
    /// No request changes what is exported any more.
    Freeze {
        ino: Ino,
        frag: Frag,
    },
    /// The importer gets the bounds of what is exported.
    Prep {
        ino: Ino,
        frag: Frag,
    },
    /// The exporter gives the bytes of what is exported, and they are kept.
    Send {
        ino: Ino,
        frag: Frag,
    },
    /// The importer takes the kept bytes.
    Import {
        ino: Ino,
        frag: Frag,
    },
    /// The importer becomes the authority, and the export ends.
    Finish {
        ino: Ino,
        frag: Frag,
    },
    /// The export is given up.
    Cancel {
        ino: Ino,
        frag: Frag,
    },
}

/// What follows `export`.
#[tactic(auto, unfolding(crate::specs::Exports::export_of_words))]
pub fn read_export(args: &[u8]) -> Result<ExportCommand, ReadError>
    ensures { ReadsWord (λ command. command) result (export_of_words (words_of args.now)) }
{
    let (verb, rest) = first(args)?;
    export_step(verb, rest)
}

// The command of this word after `export`, with the arguments in these words.
#[tactic(auto, unfolding(crate::specs::Exports::export_step_of))]
fn export_step(verb: &[u8], args: &[u8]) -> Result<ExportCommand, ReadError>
    ensures { ReadsWord (λ command. command) result (export_step_of verb.now (words_of args.now)) }
{
    if is_text(verb, b"dir") {
        return dir(args);
    }
    if is_text(verb, b"freeze") {
        let (ino, frag) = exported(args)?;
        return Ok(ExportCommand::Freeze { ino, frag });
    }
    if is_text(verb, b"prep") {
        let (ino, frag) = exported(args)?;
        return Ok(ExportCommand::Prep { ino, frag });
    }
    if is_text(verb, b"send") {
        let (ino, frag) = exported(args)?;
        return Ok(ExportCommand::Send { ino, frag });
    }
    if is_text(verb, b"import") {
        let (ino, frag) = exported(args)?;
        return Ok(ExportCommand::Import { ino, frag });
    }
    if is_text(verb, b"finish") {
        let (ino, frag) = exported(args)?;
        return Ok(ExportCommand::Finish { ino, frag });
    }
    if is_text(verb, b"cancel") {
        let (ino, frag) = exported(args)?;
        return Ok(ExportCommand::Cancel { ino, frag });
    }
    Err(NOT_COMMAND)
}

// `export dir FROM INO FRAG TO`
#[tactic(auto, unfolding(crate::specs::Exports::dir_of))]
fn dir(args: &[u8]) -> Result<ExportCommand, ReadError>
    ensures { ReadsWord (λ command. command) result (dir_of (words_of args.now)) }
{
    let (exporter, dir, leaf, importer) = four(args)?;
    let from = rank(exporter)?;
    let ino = ino(dir)?;
    let frag = frag(leaf)?;
    let to = rank(importer)?;
    Ok(ExportCommand::Dir {
        from,
        ino,
        frag,
        to,
    })
}

// `INO FRAG`: the root of an export.
#[tactic(auto, unfolding(crate::specs::Exports::exported_of))]
fn exported(args: &[u8]) -> Result<(Ino, Frag), ReadError>
    ensures { ReadsWord (λ root. root) result (exported_of (words_of args.now)) }
{
    let (dir, root) = two(args)?;
    let ino = ino(dir)?;
    let frag = frag(root)?;
    Ok((ino, frag))
}
