//! Commands on the leaves of a directory, by the word after `dirfrag`.
ghost use Rattle.script_words.specs.Words.{words_of};
ghost use Rattle.script_words.specs.Reading.{ReadsWord};
ghost use Rattle.script_text.specs.Dirfrags.{dirfrag_of, dirfrag_step_of, leaves_of_words, merge_of, split_of};

use crate::commands::Command;
use script_words::{
    NOT_COMMAND, ReadError, first, four, frag, ino, is_text, one, rank, split_bits, three,
};

/// `dirfrag` and what follows it.
#[tactic(auto, unfolding(crate::specs::Dirfrags::dirfrag_of))]
pub fn dirfrag(args: &[u8]) -> Result<Command, ReadError>
    ensures { ReadsWord (λ command. command) result (dirfrag_of (words_of args.now)) }
{
    let (verb, rest) = first(args)?;
    dirfrag_step(verb, rest)
}

// The command of this word after `dirfrag`, with the arguments in these words.
#[tactic(auto, unfolding(crate::specs::Dirfrags::dirfrag_step_of))]
fn dirfrag_step(verb: &[u8], args: &[u8]) -> Result<Command, ReadError>
    ensures { ReadsWord (λ command. command) result (dirfrag_step_of verb.now (words_of args.now)) }
{
    if is_text(verb, b"split") {
        return split(args);
    }
    if is_text(verb, b"merge") {
        return merge(args);
    }
    if is_text(verb, b"ls") {
        return leaves(args);
    }
    Err(NOT_COMMAND)
}

// `dirfrag split RANK INO FRAG NB`
#[tactic(auto, unfolding(crate::specs::Dirfrags::split_of))]
fn split(args: &[u8]) -> Result<Command, ReadError>
    ensures { ReadsWord (λ command. command) result (split_of (words_of args.now)) }
{
    let (at, dir, leaf, number) = four(args)?;
    let rank = rank(at)?;
    let ino = ino(dir)?;
    let frag = frag(leaf)?;
    let bits = split_bits(number)?;
    Ok(Command::Split {
        rank,
        ino,
        frag,
        bits,
    })
}

// `dirfrag merge RANK INO FRAG`
#[tactic(auto, unfolding(crate::specs::Dirfrags::merge_of))]
fn merge(args: &[u8]) -> Result<Command, ReadError>
    ensures { ReadsWord (λ command. command) result (merge_of (words_of args.now)) }
{
    let (at, dir, around) = three(args)?;
    let rank = rank(at)?;
    let ino = ino(dir)?;
    let frag = frag(around)?;
    Ok(Command::Merge { rank, ino, frag })
}

// `dirfrag ls INO`
#[tactic(auto, unfolding(crate::specs::Dirfrags::leaves_of_words))]
fn leaves(args: &[u8]) -> Result<Command, ReadError>
    ensures { ReadsWord (λ command. command) result (leaves_of_words (words_of args.now)) }
{
    let dir = one(args)?;
    Ok(Command::Leaves(ino(dir)?))
}
