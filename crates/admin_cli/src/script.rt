//! Running a script.
ghost use Rattle.std.specs.Prelude.{◌≡◌, ◌+◌, ◌-◌, ◌++◌, ◌<◌, ◌≤◌, ◌^◌, [], List, false, length, true, IfSome};
ghost use Rattle.std.specs.FinMap as map;
ghost use Rattle.cluster_core.specs.Opening.{Opening, fresh};
ghost use Rattle.sessions.specs.Table.{mark_in};
ghost use Rattle.mds_types.specs.declared.entries.Entry.{Entry as Applied};
ghost use Rattle.cluster_core.specs.Sound.{StandsBehind};
ghost use Rattle.script_text.specs.declared.commands.Command.TheVariants.{Operation};
ghost use Rattle.script_text.specs.declared.lines.Line.TheVariants as asked;
ghost use Rattle.cluster_core.specs.OneThread.{waiting_in};
ghost use Rattle.admin_cli.specs.Execute.{Executes};
ghost use Rattle.admin_cli.specs.Left.{LeavesAdmin, LeavesBook, LeavesOneThread};
ghost use Rattle.admin_cli.specs.Modes.{DoesUnder};
ghost use Rattle.admin_cli.specs.Printed.{PrintsOneThread};
ghost use Rattle.admin_cli.specs.Scripts.{IsFormatted, RunsInput, RunsNew};
ghost use Rattle.admin_cli.specs.OneLine.{AnswersLine, DoesBytes, HasReaderFailed, Prints, RunsOrNot};
ghost use Rattle.admin_cli.specs.Waiting.{IsEmpty, LeavesWaiting, PrintsApart, PrintsCame, PrintsOf, PrintsOutput, RunsWaiting};
ghost use Rattle.admin_cli.specs.Admin.{begun, seen};

use crate::commands::{Admin, shown_line};
use crate::faults::{FaultKind, ScriptFault};
use crate::modes::Mode;
use crate::telling::{Tell, Untold, tell_misread, tell_reason};
use crate::waiting::Waiting;
use cluster_core::{Book, format};
use keeping::Keep;
use mds_types::{Limit, Op};
use objstore::MemStore;
use script_output::{OutputFault, OutputLine, write_line};
use script_text::{
    Line, LineBuffer, LineFault, NextLine, ReadError, has_line, next_line, read_line,
    read_operation_line,
};
use std::alloc::{AllocError, Global};
use std::io::{BufRead, BufReader, Read, Write};
use std::thread::Threads;

/// Runs a script over a new cluster with an empty tree, where a directory may have `limit` entries. For each line that
/// is a command, one line with its result is written. A fault ends the script: all that the earlier lines printed is
/// written, and at a write fault a beginning of the next line, nothing else. It returns wherever the reader ends. The
/// written lines that begin with `reply ` are the replies of one thread that serves one plain tree the script's
/// requests one after the other.
pub fn run_script<H: AllocGlobal + Threads + Sync, R: Read + Drop, W: Write>(
    rt: &H,
    reader: R,
    writer: &mut W,
    ranks: u8,
    cache: u32,
    limit: Limit,
) -> Result<(), ScriptFault>
    requires one { 1 ≤ ranks }
    requires few { ranks ≤ 16 }
    requires least { 512 ≤ cache }
    requires most { cache ≤ 65536 }
    ensures one_thread { PrintsOneThread limit (fresh map.empty) [] [] 0 (R.remaining reader) (W.contents writer.old)
        (W.contents writer.new) result }
    ensures ran { RunsNew Executes ranks cache limit (R.remaining reader) (W.contents writer.old) (W.contents writer.new)
        result }
{
    run_new(rt, reader, writer, ranks, cache, limit, PLAIN, &Untold)
}

/// Runs a script as `run_script` does, under these options, and explains each refused line if the teller listens.
pub fn run_new<H: AllocGlobal + Threads + Sync, R: Read + Drop, W: Write, T: Tell>(
    rt: &H,
    reader: R,
    writer: &mut W,
    ranks: u8,
    cache: u32,
    limit: Limit,
    mode: Mode,
    teller: &T,
) -> Result<(), ScriptFault>
    requires one { 1 ≤ ranks }
    requires few { ranks ≤ 16 }
    requires least { 512 ≤ cache }
    requires most { cache ≤ 65536 }
    ensures one_thread { PrintsOneThread limit (fresh map.empty) [] [] 0 (R.remaining reader) (W.contents writer.old)
        (W.contents writer.new) result }
    ensures ran { RunsNew (DoesUnder mode) ranks cache limit (R.remaining reader) (W.contents writer.old)
        (W.contents writer.new) result }
{
    match new_book(rt.alloc(), ranks, cache, limit) {
        Some(book) => {
            let Ran { book, ended } = run_over(rt, reader, writer, book, mode, teller);
            drop(book);
            ended
        }
        // (dropped by name, as a value with many parts is: docs/PROVING.md)
        none => {
            drop(none);
            Err(NO_MEMORY_AT_START)
        }
    }
}

/// A script that has ended, and the book after it.
#[derive(Drop)]
pub struct Ran<S: Keep + Drop> {
    pub book: Book<S>,
    pub ended: Result<(), ScriptFault>,
}

/// Runs a script over a book under these options, as `run_script` does over a new one. The lines that begin with `reply
/// ` are the replies of one thread to the requests that waited in the book and those that the lines make. The returned
/// book has the history of that thread, with the entries that it has forgotten: all that was done, printed or not.
pub fn run_over<H, R, W, S, T>(
    rt: &H,
    reader: R,
    writer: &mut W,
    book: Book<S>,
    mode: Mode,
    teller: &T,
) -> Ran<S>
where
    H: AllocGlobal + Threads + Sync,
    R: Read + Drop,
    W: Write,
    S: Keep + Drop,
    T: Tell,
    ensures one_thread { (opening : Opening) (past : List Applied) → StandsBehind opening past book
        → PrintsOneThread book.core.state.tree.limit opening (past ++ book.history)
        (waiting_in book.core.state.inboxes) (mark_in book.core.state.sessions 0) (R.remaining reader)
        (W.contents writer.old) (W.contents writer.new) result.ended }
    ensures left { (opening : Opening) (past : List Applied) → StandsBehind opening past book
        → LeavesOneThread opening past book result.book (R.remaining reader) (W.contents writer.old)
        (W.contents writer.new) result.ended }
    ensures ran { RunsOrNot (DoesUnder mode) (begun book) (R.remaining reader) (W.contents writer.old) (W.contents writer.new) result.ended }
    ensures leaves { LeavesBook (DoesUnder mode) book result.book (R.remaining reader) (W.contents writer.old)
        (W.contents writer.new) result.ended }
{
    book.is_sound();
    let mut admin = Admin::new(rt.alloc(), book);
    let ended = run_input(rt, reader, writer, &mut admin, &mode, teller);
    Ran {
        book: admin.into_book(),
        ended,
    }
}

// A script that is run as it is written.
const PLAIN: Mode = Mode {
    asks: false,
    keeps: false,
    history: None,
};

// A book over a new store; nothing where memory for it is refused.
fn new_book(alloc: Global, ranks: u8, cache: u32, limit: Limit) -> Option<Book<MemStore>>
    requires one { 1 ≤ ranks }
    requires few { ranks ≤ 16 }
    requires least { 512 ≤ cache }
    requires most { cache ≤ 65536 }
    ensures { IfSome result (IsFormatted ranks cache limit) }
{
    match format(alloc, MemStore::new(alloc), ranks, cache, limit) {
        Ok(book) => Some(book),
        Err(_) => None,
    }
}

// Takes the memory that reading needs, and runs the lines of a reader.
#[tactic(auto, using(crate::proofs::LeavesLaws::leaves_none))]
fn run_input<R: Read + Drop, W: Write, S: Keep + Drop, T: Tell>(
    rt: &(impl AllocGlobal + Threads + Sync),
    reader: R,
    writer: &mut W,
    admin: &mut Admin<S>,
    mode: &Mode,
    teller: &T,
) -> Result<(), ScriptFault>
    ensures runs { RunsOrNot (DoesUnder mode.now) (seen admin.old) (R.remaining reader) (W.contents writer.old)
        (W.contents writer.new) result }
    ensures leaves { LeavesAdmin (DoesUnder mode.now) (seen admin.old) (seen admin.new) (R.remaining reader) (W.contents writer.old)
        (W.contents writer.new) result }
{
    let alloc = rt.alloc();
    let Ok(mut buffer) = LineBuffer::new(alloc) else {
        return Err(NO_MEMORY_AT_START);
    };
    let Ok(mut waiting) = Waiting::new(alloc) else {
        return Err(NO_MEMORY_AT_START);
    };
    let Ok(mut reader) = BufReader::new(alloc, reader) else {
        return Err(NO_MEMORY_AT_START);
    };
    let lines_ended = run_lines(
        rt,
        &mut reader,
        &mut buffer,
        &mut waiting,
        writer,
        admin,
        mode,
        teller,
    );
    waiting.flush(writer)?;
    lines_ended
}

// The memory for a book or for reading was refused before the first line.
const NO_MEMORY_AT_START: ScriptFault = ScriptFault {
    line: 1,
    kind: FaultKind::OutOfMemory,
};

/// A reader that tells whether it has read ahead.
trait ReadAhead: BufRead {
    /// Whether the next line is already read, so that getting it never waits for more bytes.
    fn has_line(&self) -> bool;
}

impl<R: Read> ReadAhead for BufReader<R> {
    fn has_line(&self) -> bool {
        has_line(self.buffer())
    }
}

// Runs the lines of a reader one after the other. Printed lines are gathered and written together, and always before
// the reader waits for more. If there are more lines than 64 bits have numbers for, that is a read fault.
fn run_lines<R: ReadAhead, W: Write, S: Keep + Drop, T: Tell>(
    rt: &(impl AllocGlobal + Threads + Sync),
    reader: &mut R,
    buffer: &mut LineBuffer,
    waiting: &mut Waiting,
    writer: &mut W,
    admin: &mut Admin<S>,
    mode: &Mode,
    teller: &T,
) -> Result<(), ScriptFault>
    requires empty { IsEmpty waiting.old }
    ensures runs { RunsWaiting (DoesUnder mode.now) (seen admin.old) waiting.new (R.remaining reader.old)
        (W.contents writer.old) (W.contents writer.new) result }
    ensures leaves { LeavesWaiting (DoesUnder mode.now) (seen admin.old) (seen admin.new) waiting.new (R.remaining reader.old)
        (W.contents writer.old) (W.contents writer.new) result }
    ensures failed { HasReaderFailed admin.old.operations buffer.new.failed result }
{
    let last = last_line(admin.operations);
    for line in 1..last {
        if let Err(fault) = waiting.settle(reader.has_line(), writer) {
            return Err(fault);
        }
        match next_line(reader, buffer) {
            Ok(NextLine::Read) => {}
            Ok(NextLine::End) => return Ok(()),
            Err(LineFault::TooLong) => return Err(ScriptFault {
                line,
                kind: FaultKind::TooLong,
            }),
            Err(LineFault::Fault) => return Err(ScriptFault {
                line,
                kind: FaultKind::ReadFault,
            }),
        }
        if let Err(fault) = run_line(
            rt,
            line,
            buffer.as_bytes(),
            admin,
            mode,
            waiting,
            writer,
            teller,
        ) {
            return Err(fault);
        }
    }
    Err(ScriptFault {
        line: last,
        kind: FaultKind::ReadFault,
    })
}

// The number of the line that is never read: after so many operations alone, there are 64-bit numbers for operations
// alone on all lines before it.
fn last_line(operations: u64) -> u64
    ensures least { 1 ≤ result }
    ensures room { 1 < result → operations + result < 2 ^ 64 }
    ensures full { 2 ^ 64 - 1 ≤ operations + result }
{
    (u64::MAX - operations).max(1)
}

// Runs the line of this number, and puts the line that it prints behind the waiting text.
fn run_line<W: Write, S: Keep + Drop, T: Tell>(
    rt: &(impl AllocGlobal + Threads + Sync),
    line: u64,
    bytes: &[u8],
    admin: &mut Admin<S>,
    mode: &Mode,
    waiting: &mut Waiting,
    writer: &mut W,
    teller: &T,
) -> Result<(), ScriptFault>
    requires room { admin.old.operations + 1 < 2 ^ 64 }
    requires short { length bytes.now ≤ 16384 }
    ensures count { admin.new.operations ≤ admin.old.operations + 1 }
    ensures runs { PrintsOf (DoesBytes (DoesUnder mode.now) (seen admin.old) (seen admin.new) bytes.now) waiting.old waiting.new line
        (W.contents writer.old) (W.contents writer.new) result }
{
    // an explanation needs the command of the line, so no shorter way is taken
    if teller.listens() {
        return run_other(rt, line, bytes, admin, mode, waiting, writer, teller);
    }
    match read_operation_line(rt.alloc(), bytes) {
        Ok(op) => {
            if mode.asks {
                return ask_operation(rt.alloc(), line, op, admin, mode, waiting, writer);
            }
            do_operation(rt.alloc(), line, op, admin, mode, waiting, writer)
        }
        Err(ReadError::Fault(_)) => run_other(
            rt, line, bytes, admin, mode, waiting, writer, teller,
        ),
        Err(ReadError::NoMemory) => Err(at(line, FaultKind::OutOfMemory)),
    }
}

// Does an operation alone, as most lines ask for, and puts the line that it prints behind the waiting text.
#[inline(always)]
fn do_operation<W: Write, S: Keep + Drop>(
    alloc: Global,
    line: u64,
    op: Op,
    admin: &mut Admin<S>,
    mode: &Mode,
    waiting: &mut Waiting,
    writer: &mut W,
) -> Result<(), ScriptFault>
    requires count { admin.old.operations + 1 < 2 ^ 64 }
    requires plain { mode.now.asks ≡ false }
    ensures count { admin.new.operations ≤ admin.old.operations + 1 }
    ensures prints { PrintsOf (AnswersLine (DoesUnder mode.now) (seen admin.old) (seen admin.new) (asked.Command (Operation op))) waiting.old waiting.new line
        (W.contents writer.old) (W.contents writer.new) result }
{
    let came = admin.operate(alloc, op);
    admin.forget(mode);
    if waiting.put_step(alloc, line, &came).is_ok() {
        drop(came);
        return Ok(());
    }
    let shown = shown_line(came);
    let printed = print_apart(alloc, line, &shown, waiting, writer);
    drop(shown);
    printed
}

// Asks an operation alone until it is answered, and puts the line that it prints behind the waiting text.
#[inline(never)]
fn ask_operation<W: Write, S: Keep + Drop>(
    alloc: Global,
    line: u64,
    op: Op,
    admin: &mut Admin<S>,
    mode: &Mode,
    waiting: &mut Waiting,
    writer: &mut W,
) -> Result<(), ScriptFault>
    requires count { admin.old.operations + 1 < 2 ^ 64 }
    requires asks { mode.now.asks ≡ true }
    ensures count { admin.new.operations ≤ admin.old.operations + 1 }
    ensures prints { PrintsOf (AnswersLine (DoesUnder mode.now) (seen admin.old) (seen admin.new) (asked.Command (Operation op))) waiting.old
        waiting.new line (W.contents writer.old) (W.contents writer.new) result }
{
    let shown = admin.ask_operation(alloc, op);
    admin.forget(mode);
    let printed = print(alloc, line, &shown, waiting, writer);
    drop(shown);
    printed
}

// Runs a line that isn't an operation alone.
#[inline(never)]
fn run_other<W: Write, S: Keep + Drop, T: Tell>(
    rt: &(impl AllocGlobal + Threads + Sync),
    line: u64,
    bytes: &[u8],
    admin: &mut Admin<S>,
    mode: &Mode,
    waiting: &mut Waiting,
    writer: &mut W,
    teller: &T,
) -> Result<(), ScriptFault>
    requires room { admin.old.operations + 1 < 2 ^ 64 }
    requires short { length bytes.now ≤ 16384 }
    ensures count { admin.new.operations ≤ admin.old.operations + 1 }
    ensures runs { PrintsOf (DoesBytes (DoesUnder mode.now) (seen admin.old) (seen admin.new) bytes.now) waiting.old waiting.new line
        (W.contents writer.old) (W.contents writer.new) result }
{
    let Ok(found) = read_line(rt.alloc(), bytes) else {
        return Err(at(line, FaultKind::OutOfMemory));
    };
    do_line(rt, line, bytes, found, admin, mode, waiting, writer, teller)
}

// Does what a line asks for, and puts the line that it prints behind the waiting text. Its bytes serve explanations.
fn do_line<W: Write, S: Keep + Drop, T: Tell>(
    rt: &(impl AllocGlobal + Threads + Sync),
    line: u64,
    bytes: &[u8],
    found: Line,
    admin: &mut Admin<S>,
    mode: &Mode,
    waiting: &mut Waiting,
    writer: &mut W,
    teller: &T,
) -> Result<(), ScriptFault>
    requires room { admin.old.operations + 1 < 2 ^ 64 }
    requires short { length bytes.now ≤ 16384 }
    ensures count { admin.new.operations ≤ admin.old.operations + 1 }
    ensures prints { PrintsOf (AnswersLine (DoesUnder mode.now) (seen admin.old) (seen admin.new) found) waiting.old waiting.new line
        (W.contents writer.old) (W.contents writer.new) result }
{
    match found {
        Line::Nothing => Ok(()),
        Line::NotCommand => {
            tell_misread(line, bytes, teller);
            Err(at(line, FaultKind::NotCommand))
        }
        Line::BadWord(errno) => {
            let shown = OutputLine::Errno(errno);
            let printed = print(rt.alloc(), line, &shown, waiting, writer);
            drop(shown);
            printed
        }
        Line::Command(command) => {
            let came = admin.carry(rt, mode, command);
            admin.forget_behind(mode, &came);
            tell_reason(rt.alloc(), line, bytes, &came, admin.book(), teller);
            let printed = print_came(rt.alloc(), line, &came, waiting, writer);
            drop(came);
            printed
        }
    }
}

// Puts the line that shows the result of a command behind the waiting text.
#[inline(always)]
fn print_came<W: Write>(
    alloc: Global,
    line: u64,
    came: &Result<OutputLine, AllocError>,
    waiting: &mut Waiting,
    writer: &mut W,
) -> Result<(), ScriptFault>
    ensures { PrintsCame came.now waiting.old waiting.new line (W.contents writer.old) (W.contents writer.new) result }
{
    match came {
        Ok(printed) => print(alloc, line, printed, waiting, writer),
        Err(_) => Err(at(line, FaultKind::OutOfMemory)),
    }
}

// A fault of the script's line of this number.
fn at(line: u64, kind: FaultKind) -> ScriptFault
    ensures { result ≡ record { line = line; kind = kind } }
{
    ScriptFault { line, kind }
}

// Puts the line that is printed behind the waiting text. If there is no memory for that, writes the waiting text and
// then the line, whose text may take none.
fn print<W: Write>(
    alloc: Global,
    line: u64,
    printed: &OutputLine,
    waiting: &mut Waiting,
    writer: &mut W,
) -> Result<(), ScriptFault>
    ensures { PrintsOutput waiting.old waiting.new line printed.now
        (W.contents writer.old) (W.contents writer.new) result }
{
    if waiting.put(alloc, line, printed).is_ok() {
        return Ok(());
    }
    print_apart(alloc, line, printed, waiting, writer)
}

// Writes the waiting text, and then the line that is printed.
#[inline(never)]
fn print_apart<W: Write>(
    alloc: Global,
    line: u64,
    printed: &OutputLine,
    waiting: &mut Waiting,
    writer: &mut W,
) -> Result<(), ScriptFault>
    ensures { PrintsApart waiting.old waiting.new line printed.now
        (W.contents writer.old) (W.contents writer.new) result }
{
    waiting.flush(writer)?;
    match write_own(alloc, writer, printed) {
        Ok(()) => Ok(()),
        Err(kind) => Err(ScriptFault { line, kind }),
    }
}

// Writes a line with its LF.
fn write_own<W: Write>(alloc: Global, writer: &mut W, line: &OutputLine) -> Result<(), FaultKind>
    ensures { Prints (W.contents writer.old) (W.contents writer.new) line.now result }
{
    match write_line(alloc, writer, line) {
        Ok(()) => Ok(()),
        Err(OutputFault::NoMemory) => Err(FaultKind::OutOfMemory),
        Err(OutputFault::Write) => Err(FaultKind::WriteFault),
    }
}
