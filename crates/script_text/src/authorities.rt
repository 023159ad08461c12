//! Commands on authorities: grants, the subtree map, and whose a leaf is.
ghost use Rattle.script_words.specs.Words.{words_of};
ghost use Rattle.script_words.specs.Reading.{ReadsWord};
ghost use Rattle.script_text.specs.Authorities.{authority_of, get_of, grant_of_words};

use crate::commands::Command;
use script_words::{NOT_COMMAND, ReadError, decimal, frag, ino, is_text, one, rank, three, two};

/// `grant RANK CLIENT TID`, where CLIENT may be 0, that of operations alone.
#[tactic(auto, unfolding(crate::specs::Authorities::grant_of_words))]
pub fn grant(args: &[u8]) -> Result<Command, ReadError>
    ensures { ReadsWord (λ command. command) result (grant_of_words (words_of args.now)) }
{
    let (at, from, number) = three(args)?;
    let rank = rank(at)?;
    let client = decimal(from)?;
    let tid = decimal(number)?;
    Ok(Command::Grant { rank, client, tid })
}

/// `get subtrees`
#[tactic(auto, unfolding(crate::specs::Authorities::get_of))]
pub fn get(args: &[u8]) -> Result<Command, ReadError>
    ensures { ReadsWord (λ command. command) result (get_of (words_of args.now)) }
{
    let word = one(args)?;
    if is_text(word, b"subtrees") {
        return Ok(Command::Subtrees);
    }
    Err(NOT_COMMAND)
}

/// `authority INO FRAG`
#[tactic(auto, unfolding(crate::specs::Authorities::authority_of))]
pub fn authority(args: &[u8]) -> Result<Command, ReadError>
    ensures { ReadsWord (λ command. command) result (authority_of (words_of args.now)) }
{
    let (dir, leaf) = two(args)?;
    let ino = ino(dir)?;
    let frag = frag(leaf)?;
    Ok(Command::Authority { ino, frag })
}
