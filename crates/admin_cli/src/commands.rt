//! Commands over a book.

ghost use Rattle.std.specs.Prelude.{◌≡◌, ◌+◌, ◌<◌, ◌≤◌, ◌^◌, IfOk, OnErr};
ghost use Rattle.admin_cli.specs.StepLines.{shown_line as line_of};
ghost use Rattle.admin_cli.specs.Admin.{begun, seen};

use crate::kept_jobs::KeptJobs;
use crate::modes::Mode;
use cluster_core::{Answer, Book, Event, KeptBytes};
use keeping::Keep;
use mds_types::{Frag, Ino, Op, Rank, Refusal, Request};
use script_output::{FragList, OutputLine};
use script_text::Command;
use std::alloc::{AllocError, Global};
use std::thread::Threads;

/// A book with all that a script knows beside it: the number of the last line with an operation alone, or client 0's
/// mark before the first such line, the jobs that were begun, and the bytes that exports sent.
#[derive(Drop)]
pub struct Admin<S: Keep + Drop> {
    pub(crate) book: Book<S>,
    pub(crate) operations: u64,
    pub(crate) jobs: KeptJobs,
    pub(crate) sent: KeptBytes,
}

impl<S: Keep + Drop> Admin<S> {
    ghost use Rattle.cluster_core.specs.declared.events.Event.TheVariants.{Arrive, Merge, Serve, Split};
    ghost use Rattle.admin_cli.specs.Execute.{Executes, LacksForCommand, ListsLine, OperatesLine};
    ghost use Rattle.admin_cli.specs.Forgetting.{ForgetsBehind};
    ghost use Rattle.admin_cli.specs.StepLines.{DoesEvent, IsStep, StepsLine, arrived_line};

    /// An administrator of this book, who has read no line yet.
    pub fn new(alloc: Global, book: Book<S>) -> Admin<S>
        ensures { seen result ≡ begun book }
    {
        let operations = book.mark(0);
        Admin {
            book,
            operations,
            jobs: KeptJobs::new(alloc),
            sent: KeptBytes::new(alloc),
        }
    }

    /// The book.
    pub fn book(&self) -> &Book<S>
        ensures { result.now ≡ self.now.book }
    {
        &self.book
    }

    /// Returns the book.
    pub fn into_book(self) -> Book<S>
        ensures { result ≡ self.book }
    {
        let Admin {
            book,
            operations: _,
            jobs,
            sent,
        } = self;
        drop(jobs);
        drop(sent);
        book
    }

    /// Forgets, after a line, what the options of the script say. It takes memory for kept replies alone, and forgets
    /// less if that memory is refused.
    #[inline(always)]
    pub(crate) fn forget(&mut self, mode: &Mode)
        ensures count { self.new.operations ≡ self.old.operations }
        ensures forgot { ForgetsBehind mode.now.history (seen self.old) (seen self.new) }
    {
        if let Some(keep) = mode.history {
            let _ = self.book.forget(keep as usize);
        }
    }

    /// Forgets so after a line that was done.
    #[inline(always)]
    pub(crate) fn forget_behind(&mut self, mode: &Mode, came: &Result<OutputLine, AllocError>)
        ensures count { self.new.operations ≡ self.old.operations }
        ensures done { IfOk came.now (λ _. ForgetsBehind mode.now.history (seen self.old) (seen self.new)) }
        ensures left { OnErr came.now (seen self.new ≡ seen self.old) }
    {
        if came.is_ok() {
            self.forget(mode);
        }
    }

    /// Does what a command asks for, and returns the line to print. One more number of such a line still fits 64 bits.
    /// An error tells that memory of the script's own was refused: for a job that a step gave, for the bytes of an
    /// export or a copy of them before its step, or for the list of the subtree map. No answer of a step is lost but a
    /// job that was to be kept. The function isn't inlined: most lines are operations, and its caller would clear room
    /// for all other commands. `operate` does an operation alone.
    #[inline(never)]
    pub fn execute(
        &mut self,
        rt: &(impl AllocGlobal + Threads + Sync),
        command: Command,
    ) -> Result<OutputLine, AllocError>
        requires { self.old.operations + 1 < 2 ^ 64 }
        ensures line { IfOk result (Executes (seen self.old) (seen self.new) command) }
        ensures err { OnErr result (LacksForCommand (seen self.old) (seen self.new) command) }
        ensures count { self.new.operations ≤ self.old.operations + 1 }
    {
        let alloc = rt.alloc();
        match command {
            Command::Store(command) => self.execute_store(rt, alloc, command),
            Command::Export(command) => self.execute_export(alloc, command),
            Command::Operation(op) => Ok(shown_line(self.operate(alloc, op))),
            Command::Request(rank, request) => Ok(self.arrive(alloc, rank, request)),
            Command::Serve(rank) => Ok(self.serve(alloc, rank)),
            Command::Own(rank) => self.own_turn(alloc, rank),
            Command::History => Ok(OutputLine::History(self.book.places() as u64)),
            Command::Split {
                rank,
                ino,
                frag,
                bits,
            } => Ok(self.split(alloc, rank, ino, frag, bits)),
            Command::Merge { rank, ino, frag } => Ok(self.merge(alloc, rank, ino, frag)),
            Command::Leaves(ino) => Ok(self.leaves(alloc, ino)),
            Command::Grant { rank, client, tid } => Ok(self.grant(alloc, rank, client, tid)),
            Command::Subtrees => self.subtrees(alloc),
            Command::Authority { ino, frag } => Ok(self.authority(ino, frag)),
        }
    }

    /// An operation alone arrives at rank 0 as client 0. Its transaction number, which is also its oldest, is the next
    /// after that of the last such line. It is served there, unless its arrival was refused. This and the next four are
    /// functions of their own, or each line would clear the room that any of them needs.
    #[inline(never)]
    pub fn operate(&mut self, alloc: Global, op: Op) -> Result<Answer, Refusal>
        requires { self.old.operations + 1 < 2 ^ 64 }
        ensures count { self.new.operations ≡ self.old.operations + 1 }
        ensures jobs { self.new.jobs ≡ self.old.jobs }
        ensures sent { self.new.sent ≡ self.old.sent }
        ensures operated { OperatesLine self.old.book self.new.book self.new.operations op (line_of result) }
    {
        self.operations += 1;
        let tid = self.operations;
        let request = Request {
            client: 0,
            tid,
            oldest: tid,
            op,
        };
        let arrive = Event::Arrive {
            rank: Rank(0),
            request,
        };
        match self.step_book(alloc, arrive) {
            Ok(waits) => {
                drop(waits);
                self.step_book(alloc, Event::Serve { rank: Rank(0) })
            }
            Err(refusal) => Err(refusal),
        }
    }

    // A request arrives at a rank.
    #[inline(never)]
    fn arrive(&mut self, alloc: Global, rank: Rank, request: Request) -> OutputLine
        ensures count { self.new.operations ≡ self.old.operations }
        ensures jobs { self.new.jobs ≡ self.old.jobs }
        ensures sent { self.new.sent ≡ self.old.sent }
        ensures arrived { StepsLine self.old.book self.new.book (Arrive rank request) arrived_line result }
    {
        let arrived = self.step_book(alloc, Event::Arrive { rank, request });
        if let Err(refusal) = arrived {
            return OutputLine::Refused(refusal);
        }
        OutputLine::Queued
    }

    // A rank serves.
    #[inline(never)]
    fn serve(&mut self, alloc: Global, rank: Rank) -> OutputLine
        ensures { DoesEvent (seen self.old) (seen self.new) (Serve rank) result }
    {
        self.step(alloc, Event::Serve { rank })
    }

    // Splits a leaf of a directory.
    #[inline(never)]
    pub(crate) fn split(
        &mut self,
        alloc: Global,
        rank: Rank,
        ino: Ino,
        frag: Frag,
        bits: u8,
    ) -> OutputLine
        ensures { DoesEvent (seen self.old) (seen self.new) (Split rank ino frag bits) result }
    {
        self.step(
            alloc,
            Event::Split {
                rank,
                ino,
                frag,
                bits,
            },
        )
    }

    // Merges leaves of a directory.
    #[inline(never)]
    pub(crate) fn merge(&mut self, alloc: Global, rank: Rank, ino: Ino, frag: Frag) -> OutputLine
        ensures { DoesEvent (seen self.old) (seen self.new) (Merge rank ino frag) result }
    {
        self.step(alloc, Event::Merge { rank, ino, frag })
    }

    // Makes a step of one event. It is inlined, as the step of a book is, since an event is large and would be moved.
    #[inline(always)]
    pub(crate) fn step(&mut self, alloc: Global, event: Event) -> OutputLine
        ensures { DoesEvent (seen self.old) (seen self.new) event result }
    {
        shown_line(self.step_book(alloc, event))
    }

    // Makes a step of one event, and returns its result.
    #[inline(always)]
    pub(crate) fn step_book(&mut self, alloc: Global, event: Event) -> Result<Answer, Refusal>
        ensures count { self.new.operations ≡ self.old.operations }
        ensures jobs { self.new.jobs ≡ self.old.jobs }
        ensures sent { self.new.sent ≡ self.old.sent }
        ensures stepped { IsStep self.old.book self.new.book result event }
    {
        let came = self.book.step(alloc, event);
        // The contract of `store` says here that a store with all its objects in memory reports no fault.
        let _ = self.book.cluster().store();
        came
    }

    // Lists the leaves of a directory.
    #[inline(never)]
    fn leaves(&self, alloc: Global, ino: Ino) -> OutputLine
        ensures { ListsLine self.now.book ino result }
    {
        match self.book.cluster().leaves(alloc, ino) {
            Ok(leaves) => OutputLine::Frags(FragList::from_vec(leaves)),
            Err(refusal) => OutputLine::Refused(refusal),
        }
    }
}

// The line that shows the result of a step.
#[inline(always)]
pub(crate) fn shown_line(came: Result<Answer, Refusal>) -> OutputLine
    ensures { result ≡ line_of came }
{
    match came {
        Ok(Answer::Nothing) => OutputLine::Nothing,
        Ok(Answer::Job(job)) => OutputLine::Job(job.number),
        Ok(Answer::Sent(bytes)) => OutputLine::Sent(bytes.as_slice().len() as u64),
        Ok(
            Answer::Reply {
                client,
                tid,
                place,
                first,
                reply,
            },
        ) => OutputLine::Reply {
            client,
            tid,
            place: place as u64,
            first,
            reply,
        },
        Ok(Answer::Forwarded(rank)) => OutputLine::Forwarded(rank),
        Ok(Answer::Deferred) => OutputLine::Deferred,
        Err(refusal) => OutputLine::Refused(refusal),
    }
}
