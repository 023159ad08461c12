//! Commands, by their first word.
ghost use Rattle.script_words.specs.Words.{words_of};
ghost use Rattle.script_words.specs.Reading.{ReadsWord};
ghost use Rattle.script_text.specs.Script.{at_rank_of, command_of, other_of, req_of};
ghost use Rattle.script_text.specs.declared.commands.Command.TheVariants.{Own, Serve};
ghost use Rattle.script_text.specs.Texts.{GivesText, HoldsText};

use crate::authorities::{authority, get, grant};
use crate::dirfrags::dirfrag;
use crate::exports::{ExportCommand, read_export};
use crate::operations::read_operation;
use crate::store_commands::{StoreCommand, is_store_verb, read_store_command};
use mds_types::{Frag, Ino, Op, Rank, Request};
use script_words::{
    Fault, NOT_COMMAND, ReadError, client, decimal, first, is_text, none, one, rank,
};
use std::alloc::Global;

/// What a line of the script asks for.
#[derive(Debug, Drop)]
pub enum Command {
    /// An operation alone: it arrives at rank 0 as client 0, and is served there.
    Operation(Op),
    /// A request comes in at a rank.
    Request(Rank, Request),
    /// The front of a rank's inbox is served.
    Serve(Rank),
    /// A rank takes a turn of its own: it makes the step that it proposes.
    Own(Rank),
    /// How long is the history?
    History,
    /// A leaf of a directory is split by so many bits.
    Split {
        rank: Rank,
        ino: Ino,
        frag: Frag,
        bits: u8,
    },
    /// The leaves of a directory inside a fragment are merged into it.
    Merge {
        rank: Rank,
        ino: Ino,
        frag: Frag,
    },
    /// Which leaves has the directory?
    Leaves(Ino),
    /// A rank lets a waiting request, of this client and transaction number, change fragments that are the rank's.
    Grant {
        rank: Rank,
        client: u64,
        tid: u64,
    },
    /// Which leaves have a rank of their own?
    Subtrees,
    /// Which rank is the authority of a leaf?
    Authority {
        ino: Ino,
        frag: Frag,
    },
    /// What is asked of the export of a subtree.
    Export(ExportCommand),
    /// What is asked of commits and of the store.
    Store(StoreCommand),
}

/// The command of this first word, with the arguments in these words.
#[tactic(auto, unfolding(crate::specs::Script::command_of))]
pub fn read_command(alloc: Global, verb: &[u8], args: &[u8]) -> Result<Command, ReadError>
    ensures { GivesText HoldsText result (command_of verb.now (words_of args.now)) }
{
    match read_operation(alloc, verb, args) {
        Ok(op) => Ok(Command::Operation(op)),
        Err(ReadError::Fault(Fault::NotCommand)) => read_other(alloc, verb, args),
        Err(ReadError::Fault(Fault::BadWord(errno))) => {
            Err(ReadError::Fault(Fault::BadWord(errno)))
        }
        Err(ReadError::NoMemory) => Err(ReadError::NoMemory),
    }
}

// The command of this first word, which is no operation.
#[inline(never)]
#[tactic(auto, unfolding(crate::specs::Script::other_of))]
fn read_other(alloc: Global, verb: &[u8], args: &[u8]) -> Result<Command, ReadError>
    ensures { GivesText HoldsText result (other_of verb.now (words_of args.now)) }
{
    if is_text(verb, b"serve") {
        return serve(args);
    }
    if is_text(verb, b"own") {
        return own(args);
    }
    if is_text(verb, b"req") {
        return req(alloc, args);
    }
    if is_text(verb, b"history") {
        none(args)?;
        return Ok(Command::History);
    }
    if is_text(verb, b"dirfrag") {
        return dirfrag(args);
    }
    if is_text(verb, b"grant") {
        return grant(args);
    }
    if is_text(verb, b"get") {
        return get(args);
    }
    if is_text(verb, b"authority") {
        return authority(args);
    }
    if is_text(verb, b"export") {
        return Ok(Command::Export(read_export(args)?));
    }
    if is_store_verb(verb) {
        return Ok(Command::Store(read_store_command(alloc, verb, args)?));
    }
    Err(NOT_COMMAND)
}

// `serve RANK`
#[tactic(auto, unfolding(crate::specs::Script::at_rank_of))]
fn serve(args: &[u8]) -> Result<Command, ReadError>
    ensures { ReadsWord (λ command. command) result (at_rank_of Serve (words_of args.now)) }
{
    let word = one(args)?;
    Ok(Command::Serve(rank(word)?))
}

// `own RANK`
#[tactic(auto, unfolding(crate::specs::Script::at_rank_of))]
fn own(args: &[u8]) -> Result<Command, ReadError>
    ensures { ReadsWord (λ command. command) result (at_rank_of Own (words_of args.now)) }
{
    let word = one(args)?;
    Ok(Command::Own(rank(word)?))
}

// `req RANK CLIENT TID OLDEST OP`
#[tactic(auto, unfolding(crate::specs::Script::req_of))]
fn req(alloc: Global, args: &[u8]) -> Result<Command, ReadError>
    ensures { GivesText HoldsText result (req_of (words_of args.now)) }
{
    let (at, rest) = first(args)?;
    let (from, rest) = first(rest)?;
    let (number, rest) = first(rest)?;
    let (least, rest) = first(rest)?;
    let (verb, rest) = first(rest)?;
    let rank = rank(at)?;
    let client = client(from)?;
    let tid = decimal(number)?;
    let oldest = decimal(least)?;
    let op = read_operation(alloc, verb, rest)?;
    Ok(Command::Request(
        rank,
        Request {
            client,
            tid,
            oldest,
            op,
        },
    ))
}
