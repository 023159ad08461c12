//! The line `own RANK`: a rank makes a step that it proposes.
ghost use Rattle.std.specs.Prelude.{◌≡◌, IfOk, OnErr};
ghost use Rattle.cluster_core.specs.Proposal.{IsOwnStep};
ghost use Rattle.admin_cli.specs.OwnLines.{IsCalled, LacksForStep, LacksForTurn, MakesStep, TakesTurn, came_of, own_line_of};
ghost use Rattle.admin_cli.specs.Admin.{seen};

use crate::commands::Admin;
use cluster_core::Event;
use keeping::Keep;
use mds_types::{Frag, Ino, Rank};
use script_output::{OutputLine, OwnResult, OwnStep, OwnTurn};
use std::alloc::{AllocError, Global};

impl<S: Keep + Drop> Admin<S> {
    /// A rank makes the step that it proposes, if there is one. The bytes that a Send gives are kept, and an Import
    /// gets a copy of them, as by the commands on exports. An error tells that there was no memory for the bytes, and
    /// no step was made.
    #[inline(never)]
    pub(crate) fn own_turn(&mut self, alloc: Global, rank: Rank) -> Result<OutputLine, AllocError>
        ensures line { IfOk result (TakesTurn (seen self.old) (seen self.new) rank) }
        ensures err { OnErr result (LacksForTurn (seen self.old) (seen self.new) rank) }
        ensures count { self.new.operations ≡ self.old.operations }
    {
        match self.book.propose(rank) {
            Ok(Some(event)) => {
                let name = named(&event);
                self.own_step(alloc, &name, event)
            }
            Ok(None) => Ok(OutputLine::Idle),
            Err(refusal) => Ok(OutputLine::Refused(refusal)),
        }
    }

    // Makes the step that a rank proposed.
    fn own_step(
        &mut self,
        alloc: Global,
        name: &StepName,
        event: Event,
    ) -> Result<OutputLine, AllocError>
        requires { IsCalled event name.now.step name.now.ino name.now.frag }
        ensures line { IfOk result (MakesStep (seen self.old) (seen self.new) event) }
        ensures err { OnErr result (LacksForStep (seen self.old) (seen self.new) event) }
        ensures count { self.new.operations ≡ self.old.operations }
    {
        match event {
            Event::Send { ino, frag } => {
                let shown = self.send(alloc, ino, frag)?;
                Ok(told(name, shown))
            }
            Event::Import { ino, frag, bytes } => {
                drop(bytes);
                let shown = self.import(alloc, ino, frag)?;
                Ok(told(name, shown))
            }
            other => {
                let shown = self.step(alloc, other);
                Ok(told(name, shown))
            }
        }
    }
}

// The name of a rank's own step, and the root or the leaf that it concerns.
#[derive(Clone, Copy)]
struct StepName {
    step: OwnStep,
    ino: Ino,
    frag: Frag,
}

impl StepName {
    fn of(step: OwnStep, ino: Ino, frag: Frag) -> StepName
        ensures { result ≡ record { step = step; ino = ino; frag = frag } }
    {
        StepName { step, ino, frag }
    }
}

// The name of each step that a rank may propose.
fn named(event: &Event) -> StepName
    requires { IsOwnStep event.now }
    ensures { IsCalled event.now result.step result.ino result.frag }
{
    match event {
        Event::Split { ino, frag, .. } => StepName::of(OwnStep::Split, *ino, *frag),
        Event::Merge { ino, frag, .. } => StepName::of(OwnStep::Merge, *ino, *frag),
        Event::Start { ino, frag, .. } => StepName::of(OwnStep::Start, *ino, *frag),
        Event::Freeze { ino, frag } => StepName::of(OwnStep::Freeze, *ino, *frag),
        Event::Prep { ino, frag } => StepName::of(OwnStep::Prep, *ino, *frag),
        Event::Send { ino, frag } => StepName::of(OwnStep::Send, *ino, *frag),
        Event::Import { ino, frag, .. } => StepName::of(OwnStep::Import, *ino, *frag),
        Event::Finish { ino, frag } => StepName::of(OwnStep::Finish, *ino, *frag),
        Event::Cancel { ino, frag } => StepName::of(OwnStep::Cancel, *ino, *frag),
        // no rank proposes any other step
        _ => unreachable!(),
    }
}

// The line of a rank's own step, from the line that the command for that step prints.
fn told(name: &StepName, shown: OutputLine) -> OutputLine
    ensures { result ≡ own_line_of name.now.step name.now.ino name.now.frag shown }
{
    let result = came_of(&shown);
    OutputLine::Own(OwnTurn {
        step: name.step,
        ino: name.ino,
        frag: name.frag,
        result,
    })
}

// The result of a step, from the line that its command prints.
fn came_of(shown: &OutputLine) -> OwnResult
    ensures { result ≡ came_of shown.now }
{
    match shown {
        OutputLine::Sent(length) => OwnResult::Sent(*length),
        OutputLine::Refused(refusal) => OwnResult::Refused(*refusal),
        _ => OwnResult::Nothing,
    }
}
