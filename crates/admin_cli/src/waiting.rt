//! Printed lines of a script, before they are written.
ghost use Rattle.std.specs.Prelude.{◌≡◌, ◌<◌, ◌++◌, ◌∷◌, OnOk, OnErr, IfOk, [], length, vec_len, vec_capacity};
ghost use Rattle.script_output.specs.Lines.{line_of_reply};
ghost use Rattle.admin_cli.specs.StepLines.{shown_line};
ghost use Rattle.admin_cli.specs.Waiting.{WritesOut, IsEmpty, MayFlush, PutsLine, line_at};

use crate::faults::{FaultKind, ScriptFault};
use cluster_core::Answer;
use mds_types::{Refusal, Reply};
use script_output::{Heading, OutputLine, push_reply_line, write_most_of};
use std::alloc::{AllocError, Global};
use std::io::Write;

/// Where the text of a line of the script ends in the waiting text.
#[derive(Clone, Copy)]
pub struct Mark {
    line: u64,
    end: usize,
}

/// Printed lines that wait to be written together, with the line of the script that printed each.
#[derive(Drop)]
pub struct Waiting {
    bytes: Vec<u8>,
    marks: Vec<Mark>,
}

// So many waiting bytes are written, even if further lines are at hand.
const ENOUGH: usize = 8192;

// Room for one more line when there are nearly that many bytes, so that the text never moves.
const ROOM: usize = ENOUGH + 512;

// So many waiting lines are written, too.
const MANY: usize = 512;

impl Waiting {
    /// Nothing waits. Takes the memory that usual lines need.
    pub fn new(alloc: Global) -> Result<Waiting, AllocError>
        ensures { IfOk result (λ waiting. IsEmpty waiting) }
    {
        Ok(Waiting {
            bytes: Vec::with_capacity(alloc, ROOM)?,
            marks: Vec::with_capacity(alloc, MANY)?,
        })
    }

    /// Puts the line that the script's line of this number prints behind the waiting text, if there is memory for it.
    pub fn put(&mut self, alloc: Global, line: u64, printed: &OutputLine) -> Result<(), AllocError>
        ensures ok { OnOk result (PutsLine self.old self.new line printed.now) }
        ensures err { OnErr result ((self.new.bytes.items ≡ self.old.bytes.items)
            × (self.new.marks.items ≡ self.old.marks.items)) }
    {
        self.marks.reserve(1)?;
        printed.push_to(alloc, &mut self.bytes)?;
        self.mark(line);
        Ok(())
    }

    /// Puts the line that shows the result of a step behind the waiting text, if there is memory for it. Most results
    /// are replies. A reply is printed from where it is, since each call that it is moved through copies it.
    pub fn put_step(
        &mut self,
        alloc: Global,
        line: u64,
        came: &Result<Answer, Refusal>,
    ) -> Result<(), AllocError>
        ensures ok { OnOk result (PutsLine self.old self.new line (shown_line came.now)) }
        ensures err { OnErr result ((self.new.bytes.items ≡ self.old.bytes.items)
            × (self.new.marks.items ≡ self.old.marks.items)) }
    {
        match came {
            Ok(
                Answer::Reply {
                    client,
                    tid,
                    place,
                    first,
                    reply,
                },
            ) => self.put_reply(line, &heading(*client, *tid, *place, *first), reply),
            _ => self.put_any_step(alloc, line, came),
        }
    }

    // The same, with room for any result of a step. It is a function of its own, or each line would clear that room.
    #[inline(never)]
    fn put_any_step(
        &mut self,
        alloc: Global,
        line: u64,
        came: &Result<Answer, Refusal>,
    ) -> Result<(), AllocError>
        ensures ok { OnOk result (PutsLine self.old self.new line (shown_line came.now)) }
        ensures err { OnErr result ((self.new.bytes.items ≡ self.old.bytes.items)
            × (self.new.marks.items ≡ self.old.marks.items)) }
    {
        match came {
            Ok(
                Answer::Reply {
                    client,
                    tid,
                    place,
                    first,
                    reply,
                },
            ) => self.put_reply(line, &heading(*client, *tid, *place, *first), reply),
            Ok(Answer::Nothing) => self.put_own(alloc, line, OutputLine::Nothing),
            Ok(Answer::Job(job)) => self.put_own(alloc, line, OutputLine::Job(job.number)),
            Ok(Answer::Sent(bytes)) => {
                self.put_own(alloc, line, OutputLine::Sent(bytes.as_slice().len() as u64))
            }
            Ok(Answer::Forwarded(rank)) => {
                self.put_own(alloc, line, OutputLine::Forwarded(*rank))
            }
            Ok(Answer::Deferred) => self.put_own(alloc, line, OutputLine::Deferred),
            Err(refusal) => self.put_own(alloc, line, OutputLine::Refused(*refusal)),
        }
    }

    // Puts the line of a reply behind the waiting text.
    #[inline(always)]
    fn put_reply(&mut self, line: u64, heading: &Heading, reply: &Reply) -> Result<(), AllocError>
        ensures ok { OnOk result (PutsLine self.old self.new line (line_of_reply heading.now reply.now)) }
        ensures err { OnErr result ((self.new.bytes.items ≡ self.old.bytes.items)
            × (self.new.marks.items ≡ self.old.marks.items)) }
    {
        self.marks.reserve(1)?;
        push_reply_line(&mut self.bytes, heading, reply)?;
        self.mark(line);
        Ok(())
    }

    // Marks that the text of this line ends here. There is room for one more mark.
    #[inline(always)]
    fn mark(&mut self, line: u64)
        requires { vec_len self.old.marks < vec_capacity self.old.marks }
        ensures bytes { self.new.bytes.items ≡ self.old.bytes.items }
        ensures marks { self.new.marks.items ≡ self.old.marks.items
            ++ record { line = line; end = length self.old.bytes.items } ∷ [] }
    {
        let end = self.bytes.len();
        self.marks.push_reserved(Mark { line, end });
    }

    // Puts a line behind the waiting text, and drops the line.
    #[inline(never)]
    fn put_own(&mut self, alloc: Global, line: u64, printed: OutputLine) -> Result<(), AllocError>
        ensures ok { OnOk result (PutsLine self.old self.new line printed) }
        ensures err { OnErr result ((self.new.bytes.items ≡ self.old.bytes.items)
            × (self.new.marks.items ≡ self.old.marks.items)) }
    {
        let put = self.put(alloc, line, &printed);
        drop(printed);
        put
    }

    /// Writes the waiting text, unless further lines are at hand and there is still too little of it.
    pub fn settle<W: Write>(
        &mut self,
        is_more_at_hand: bool,
        writer: &mut W,
    ) -> Result<(), ScriptFault>
        ensures { MayFlush self.old self.new (W.contents writer.old) (W.contents writer.new) result }
    {
        if is_more_at_hand && self.bytes.len() < ENOUGH && self.marks.len() < MANY {
            return Ok(());
        }
        self.flush(writer)
    }

    /// Writes the waiting text. A fault names the script's line whose text wasn't written to its end. Nothing waits
    /// afterwards.
    pub fn flush<W: Write>(&mut self, writer: &mut W) -> Result<(), ScriptFault>
        ensures { WritesOut self.old self.new (W.contents writer.old) (W.contents writer.new) result }
    {
        let written = write_most_of(writer, self.bytes.as_slice());
        let is_whole = written == self.bytes.len();
        let line = line_at(self.marks.as_slice(), written);
        self.bytes.clear();
        self.marks.clear();
        if is_whole {
            Ok(())
        } else {
            Err(ScriptFault {
                line,
                kind: FaultKind::WriteFault,
            })
        }
    }
}

// The line whose text has the byte at a place; 0 if no line has it.
fn line_at(marks: &[Mark], place: usize) -> u64
    ensures { result ≡ line_at marks.now place }
{
    for mark in marks {
        if place < mark.end {
            return mark.line;
        }
    }
    0
}

// The beginning of a reply's line, before the reply itself.
fn heading(client: u64, tid: u64, place: usize, is_first: bool) -> Heading
    ensures { result ≡ record { client = client; tid = tid; place = place; first = is_first } }
{
    Heading {
        client,
        tid,
        place: place as u64,
        first: is_first,
    }
}
