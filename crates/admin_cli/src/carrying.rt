//! What the options of a script change: the line of a request also gets its answer, a flush is kept in a file, and
//! after each line old entries of the history are forgotten.
ghost use Rattle.std.specs.Prelude.{◌≡◌, ◌+◌, ◌<◌, ◌≤◌, ◌^◌, IfOk, OnErr};
ghost use Rattle.admin_cli.specs.Execute.{LacksForCommand};
ghost use Rattle.admin_cli.specs.Modes.{AsksOperation, AsksRequest, CarriesOut, DoesStoreUnder, AsksNow, asked_line as line_of};
ghost use Rattle.admin_cli.specs.Admin.{seen};

use crate::commands::Admin;
use crate::modes::Mode;
use asking::ask_once;
use cluster_core::Receipt;
use keeping::Keep;
use mds_types::{Op, Rank, Refusal, Request};
use script_output::OutputLine;
use script_text::{Command, StoreCommand};
use std::alloc::{AllocError, Global};
use std::thread::Threads;

impl<S: Keep + Drop> Admin<S> {
    /// Does what a command asks for under the options of the script, otherwise as `execute` does, and returns the line
    /// to print. Forgets nothing.
    #[inline(never)]
    pub fn carry(
        &mut self,
        rt: &(impl AllocGlobal + Threads + Sync),
        mode: &Mode,
        command: Command,
    ) -> Result<OutputLine, AllocError>
        requires { self.old.operations + 1 < 2 ^ 64 }
        ensures line { IfOk result (CarriesOut mode.now (seen self.old) (seen self.new) command) }
        ensures err { OnErr result (LacksForCommand (seen self.old) (seen self.new) command) }
        ensures count { self.new.operations ≤ self.old.operations + 1 }
    {
        match command {
            Command::Operation(op) => {
                if mode.asks {
                    return Ok(self.ask_operation(rt.alloc(), op));
                }
                self.execute(rt, Command::Operation(op))
            }
            Command::Request(rank, request) => {
                if mode.asks {
                    return Ok(self.ask_request(rt.alloc(), rank, request));
                }
                self.execute(rt, Command::Request(rank, request))
            }
            Command::Store(command) => self.carry_store(rt, mode, command),
            other => self.execute(rt, other),
        }
    }

    // Does a command on the store.
    fn carry_store(
        &mut self,
        rt: &(impl AllocGlobal + Threads + Sync),
        mode: &Mode,
        command: StoreCommand,
    ) -> Result<OutputLine, AllocError>
        requires { self.old.operations + 1 < 2 ^ 64 }
        ensures line { IfOk result (DoesStoreUnder mode.now (seen self.old) (seen self.new) command) }
        ensures err { OnErr result (LacksForCommand (seen self.old) (seen self.new) (Command.Store command)) }
        ensures count { self.new.operations ≤ self.old.operations + 1 }
    {
        match command {
            StoreCommand::Flush => {
                if mode.keeps {
                    return Ok(self.save(rt, rt.alloc()));
                }
                self.execute(rt, Command::Store(StoreCommand::Flush))
            }
            other => self.execute(rt, Command::Store(other)),
        }
    }

    /// Asks an operation alone at rank 0, as client 0. Its transaction number, which is also its oldest, is the next
    /// after that of the last such line.
    #[inline(never)]
    pub(crate) fn ask_operation(&mut self, alloc: Global, op: Op) -> OutputLine
        requires { self.old.operations + 1 < 2 ^ 64 }
        ensures { AsksOperation (seen self.old) (seen self.new) op result }
    {
        self.operations += 1;
        let tid = self.operations;
        let request = Request {
            client: 0,
            tid,
            oldest: tid,
            op,
        };
        asked_line(self.ask(alloc, Rank(0), request))
    }

    // Asks a request at a rank.
    #[inline(never)]
    fn ask_request(&mut self, alloc: Global, rank: Rank, request: Request) -> OutputLine
        ensures { AsksRequest (seen self.old) (seen self.new) rank request result }
    {
        asked_line(self.ask(alloc, rank, request))
    }

    // Asks a request at a rank. Nothing waits in the book, since each line of such a script leaves none. If something
    // waits all the same, the request is refused.
    #[tactic(auto, using(crate::proofs::WaitLaws::none_from_all))]
    fn ask(&mut self, alloc: Global, rank: Rank, request: Request) -> Result<Receipt, Refusal>
        ensures count { self.new.operations ≡ self.old.operations }
        ensures jobs { self.new.jobs ≡ self.old.jobs }
        ensures sent { self.new.sent ≡ self.old.sent }
        ensures asked { AsksNow self.old.book self.new.book rank request result }
    {
        let waiting = self.book.cluster().waiting();
        if waiting > 0 {
            drop(request);
            return Err(Refusal::InboxFull);
        }
        ask_once(alloc, &mut self.book, rank, request)
    }
}

// The line of a request that was asked.
fn asked_line(asked: Result<Receipt, Refusal>) -> OutputLine
    ensures { result ≡ line_of asked }
{
    match asked {
        Ok(receipt) => OutputLine::Reply {
            client: receipt.client,
            tid: receipt.tid,
            place: receipt.place as u64,
            first: receipt.first,
            reply: receipt.reply,
        },
        Err(refusal) => OutputLine::Refused(refusal),
    }
}
