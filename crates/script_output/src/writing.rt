//! Texts and lines to a writer.
ghost use Rattle.std.specs.Prelude.{◌≡◌, ◌≤◌, OnOk, OnErr, IfErr, ◌++◌, codes, length, take};
ghost use Rattle.std.specs.Io.KnownBytes.{Appends};
ghost use Rattle.script_output.specs.Lines.{output_line};
ghost use Rattle.script_output.specs.Writing.{AppendsBeginning, TakesText, WritesLine};

use crate::fixed_texts::fixed_text;
use crate::lines::OutputLine;
use std::alloc::Global;
use std::io::Write;

/// The writer failed, or took no byte.
#[derive(Clone, Copy, Debug, PartialEq, Eq)]
pub struct WriteFault;

/// Writes all of the bytes. After a fault a beginning of them is written, and nothing else.
pub fn write_all_of<W: Write>(writer: &mut W, bytes: &[u8]) -> Result<(), WriteFault>
    ensures ok { OnOk result (Appends (W.contents writer.old) (W.contents writer.new) bytes.now) }
    ensures err { OnErr result (AppendsBeginning (W.contents writer.old) (W.contents writer.new) bytes.now) }
{
    if write_most_of(writer, bytes) == bytes.len() {
        Ok(())
    } else {
        Err(WriteFault)
    }
}

/// Writes the bytes until the writer fails or takes no byte, and answers how many of them are written.
pub fn write_most_of<W: Write>(writer: &mut W, bytes: &[u8]) -> usize
    ensures bound { result ≤ length bytes.now }
    ensures written { Appends (W.contents writer.old) (W.contents writer.new) (take result bytes.now) }
{
    let mut done = 0;
    while done < bytes.len() {
        let (_, rest) = bytes.split_at(done);
        let Ok(taken) = writer.write(rest) else {
            return done;
        };
        if taken == 0 {
            return done;
        }
        done += taken;
    }
    done
}

// Room for the text of a usual reply, so that it is not moved as it grows.
const USUAL_LEN: usize = 80;

/// Why a line was not written.
#[derive(Clone, Copy, Debug, PartialEq, Eq)]
pub enum OutputFault {
    /// There was no memory for the line's text, which isn't always the same. Nothing of it is written.
    NoMemory,
    /// The writer failed or took no byte. A beginning of the line is written.
    Write,
}

/// Writes the line and its LF. Takes memory for its text, unless the text is always the same, as that of `nothing` and
/// of a refusal.
pub fn write_line<W: Write>(
    alloc: Global,
    writer: &mut W,
    line: &OutputLine,
) -> Result<(), OutputFault>
    ensures written { WritesLine (W.contents writer.old) (W.contents writer.new)
        (output_line line.now ++ codes "\n") result }
    ensures memory { IfErr result (λ fault. fault ≡ OutputFault.NoMemory → TakesText line.now) }
{
    if let Some(text) = fixed_text(line) {
        return write_text(writer, text.as_bytes());
    }
    let Ok(mut text) = Vec::with_capacity(alloc, USUAL_LEN) else {
        return Err(OutputFault::NoMemory);
    };
    if line.push_to(alloc, &mut text).is_err() {
        return Err(OutputFault::NoMemory);
    }
    write_text(writer, text.as_slice())
}

// Writes a line's text.
fn write_text<W: Write>(writer: &mut W, text: &[u8]) -> Result<(), OutputFault>
    ensures written { WritesLine (W.contents writer.old) (W.contents writer.new) text.now result }
    ensures fault { IfErr result (λ fault. fault ≡ OutputFault.Write) }
{
    match write_all_of(writer, text) {
        Ok(()) => Ok(()),
        Err(WriteFault) => Err(OutputFault::Write),
    }
}
