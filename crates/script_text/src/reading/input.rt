//! The next line of a reader.
ghost use Rattle.std.specs.Prelude.{◌≡◌, ◌≤◌, length, nat_lt, true, IfOk, OnOk, IfSome, IfErr};
ghost use Rattle.std.specs.List.{prefix_len};
ghost use Rattle.script_text.specs.Input.{GivesLine};
ghost use Rattle.script_text.specs.Looks.{is_not_lf, Moves, Overflows};

use crate::reading::buffer::{LineBuffer, MAX_LINE_LEN};
use memchr::memchr;
use std::io::BufRead;

/// What a call for the next line found.
#[derive(Clone, Copy, Debug, PartialEq, Eq)]
pub enum NextLine {
    /// A line, now in the buffer.
    Read,
    /// The end of the input.
    End,
}

/// Why there is no next line.
#[derive(Clone, Copy, Debug, PartialEq, Eq)]
pub enum LineFault {
    /// The line has more than `MAX_LINE_LEN` bytes.
    TooLong,
    /// The reader failed, and the buffer has noted it.
    Fault,
}

/// What the bytes were that a reader showed.
#[derive(Clone, Copy)]
pub enum Shown {
    /// Bytes of the line, and more may follow.
    More,
    /// The rest of the line, if any, and its LF.
    LineEnd,
    /// None: the input ends here.
    InputEnd,
}

/// Reads the next line into the buffer, without its LF; the last line may have none. Takes no memory. A failure of the
/// reader is noted in the buffer where it is answered, and not otherwise. After a fault the buffer holds a part of a
/// line.
pub fn next_line<R: BufRead>(reader: &mut R, line: &mut LineBuffer) -> Result<NextLine, LineFault>
    ensures line { IfSome (R.remaining reader.old)
        (λ bytes. GivesLine bytes line.new.line (R.remaining reader.new) result) }
    ensures failed { IfErr result (λ fault. fault ≡ LineFault.Fault → line.new.failed ≡ true) }
    ensures kept { OnOk result (line.new.failed ≡ line.old.failed) }
    ensures too_long { IfErr result (λ fault. fault ≡ LineFault.TooLong → line.new.failed ≡ line.old.failed) }
{
    line.clear();
    'looks: loop {
        match take_shown(reader, line) {
            Ok(Shown::More) => {}
            Ok(Shown::LineEnd) => return Ok(NextLine::Read),
            Ok(Shown::InputEnd) => break 'looks,
            Err(fault) => return Err(fault),
        }
    }
    if line.as_bytes().is_empty() {
        Ok(NextLine::End)
    } else {
        Ok(NextLine::Read)
    }
}

// Moves the bytes that the reader shows to the end of the line, up to an LF, which is taken off too and not kept.
fn take_shown<R: BufRead>(reader: &mut R, line: &mut LineBuffer) -> Result<Shown, LineFault>
    ensures moves { IfOk result
        (λ shown. Moves (R.remaining reader.old) (R.remaining reader.new) line.old.line line.new.line shown) }
    ensures short { OnOk result (length line.new.line ≤ 16384) }
    ensures long { IfErr result (λ fault. fault ≡ LineFault.TooLong
        → IfSome (R.remaining reader.old) (λ bytes. Overflows bytes line.old.line)) }
    ensures failed { IfErr result (λ fault. fault ≡ LineFault.Fault → line.new.failed ≡ true) }
    ensures kept { OnOk result (line.new.failed ≡ line.old.failed) }
    ensures too_long { IfErr result (λ fault. fault ≡ LineFault.TooLong → line.new.failed ≡ line.old.failed) }
{
    let shown = match reader.fill_buf() {
        Ok(shown) => shown,
        Err(error) => {
            line.fail(error);
            return Err(LineFault::Fault);
        }
    };
    let len = len_before_lf(shown);
    let (part, rest) = shown.split_at(len);
    if len > MAX_LINE_LEN - line.as_bytes().len() {
        return Err(LineFault::TooLong);
    }
    line.append(part);
    if !rest.is_empty() {
        reader.consume(len + 1);
        return Ok(Shown::LineEnd);
    }
    reader.consume(len);
    if len == 0 {
        Ok(Shown::InputEnd)
    } else {
        Ok(Shown::More)
    }
}

/// Whether a whole line is among bytes that a reader shows, with its LF.
pub fn has_line(bytes: &[u8]) -> bool
    ensures { result ≡ nat_lt (prefix_len is_not_lf bytes.now) (length bytes.now) }
{
    len_before_lf(bytes) < bytes.len()
}

// How many bytes stand before the first LF.
fn len_before_lf(bytes: &[u8]) -> usize
    ensures value { result ≡ prefix_len is_not_lf bytes.now }
    ensures bound { result ≤ length bytes.now }
{
    match memchr(b'\n', bytes) {
        Some(place) => place,
        None => bytes.len(),
    }
}
