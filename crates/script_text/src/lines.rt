//! Lines of the script.
ghost use Rattle.std.specs.Prelude.{◌≡◌, IfErr, IfOk, OnErr};
ghost use Rattle.script_text.specs.declared.commands.Command.TheVariants.{Operation};
ghost use Rattle.script_text.specs.declared.lines.Line.TheVariants as line;
ghost use Rattle.script_text.specs.Script.{TakesMemory, line_of, operation_line_of};
ghost use Rattle.script_text.specs.Texts.{GivesText, HoldsName};

use crate::commands::{Command, read_command};
use crate::operations::read_operation;
use mds_types::Op;
use script_words::{Fault, NOT_COMMAND, ReadError, is_comment, is_printable, next_word};
use std::alloc::{AllocError, Global};

/// What a line of the script is.
#[derive(Debug, Drop)]
pub enum Line {
    /// Empty, spaces or a comment: it prints nothing.
    Nothing,
    Command(Command),
    /// A command with a name or a target outside its rules: the error number of the first such word. No request is made
    /// of it.
    BadWord(u16),
    NotCommand,
}

/// What the line asks for. Its bytes are those without the LF. Takes memory for names, targets and names of
/// objects: an error comes only of a line that has a command's form and holds one of them.
#[tactic(auto, unfolding(crate::specs::Script::line_of))]
pub fn read_line(alloc: Global, bytes: &[u8]) -> Result<Line, AllocError>
    ensures line { IfOk result (λ line. line ≡ line_of bytes.now) }
    ensures memory { OnErr result (TakesMemory bytes.now) }
{
    if is_comment(bytes) {
        return Ok(Line::Nothing);
    }
    if !is_printable(bytes) {
        return Ok(Line::NotCommand);
    }
    let Some((verb, args)) = next_word(bytes) else {
        return Ok(Line::Nothing);
    };
    match read_command(alloc, verb, args) {
        Ok(command) => Ok(Line::Command(command)),
        Err(ReadError::Fault(Fault::NotCommand)) => Ok(Line::NotCommand),
        Err(ReadError::Fault(Fault::BadWord(errno))) => Ok(Line::BadWord(errno)),
        Err(ReadError::NoMemory) => Err(AllocError),
    }
}

/// The operation alone that a line asks for, if it asks for one; of any other line `read_line` tells what it is. Takes
/// memory for names and targets: that is wanting only for a line that has an operation's form and holds one of them.
#[inline(always)]
#[tactic(auto, unfolding(crate::specs::Script::line_of, crate::specs::Script::command_of, crate::specs::Script::operation_line_of))]
pub fn read_operation_line(alloc: Global, bytes: &[u8]) -> Result<Op, ReadError>
    ensures read { GivesText HoldsName result (operation_line_of bytes.now) }
    ensures found { IfOk result (λ op. line_of bytes.now ≡ line.Command (Operation op)) }
    ensures memory { IfErr result (λ error. error ≡ ReadError.NoMemory → TakesMemory bytes.now) }
{
    if is_comment(bytes) || !is_printable(bytes) {
        return Err(NOT_COMMAND);
    }
    match next_word(bytes) {
        Some((verb, args)) => read_operation(alloc, verb, args),
        None => Err(NOT_COMMAND),
    }
}
