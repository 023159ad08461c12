//! The steps that ranks make of their own, and their line.
ghost use Rattle.std.specs.Prelude.{Some};
ghost use Rattle.script_output.specs.OwnTurns.{own_text, result_text, step_text};

use crate::lines::DamagedText;
use mds_types::{Frag, Ino, Refusal};
use std::fmt;

/// What a rank does of its own.
#[derive(Clone, Copy, Debug, PartialEq, Eq)]
pub enum OwnStep {
    Split,
    Merge,
    Start,
    Freeze,
    Prep,
    Send,
    Import,
    Finish,
    Cancel,
}

/// What came of it.
#[derive(Clone, Copy, Debug, PartialEq, Eq)]
pub enum OwnResult {
    Nothing,
    /// So many bytes were sent, and are kept.
    Sent(u64),
    Refused(Refusal),
}

/// The step that a rank made of its own, at a leaf or in place of the leaves inside a fragment, and what came of it.
#[derive(Clone, Copy, Debug, PartialEq, Eq)]
pub struct OwnTurn {
    pub step: OwnStep,
    pub ino: Ino,
    pub frag: Frag,
    pub result: OwnResult,
}

impl fmt::Display for OwnStep {
    ghost output = { λ step. Some (step_text step) };

    fn fmt<W: fmt::Write>(&self, f: &mut fmt::Formatter<W>) -> fmt::Result {
        match self {
            OwnStep::Split => write!(f, "split"),
            OwnStep::Merge => write!(f, "merge"),
            OwnStep::Start => write!(f, "start"),
            OwnStep::Freeze => write!(f, "freeze"),
            OwnStep::Prep => write!(f, "prep"),
            OwnStep::Send => write!(f, "send"),
            OwnStep::Import => write!(f, "import"),
            OwnStep::Finish => write!(f, "finish"),
            OwnStep::Cancel => write!(f, "cancel"),
        }
    }
}

/// `nothing`, `sent N` or `refused N`.
impl fmt::Display for OwnResult {
    ghost output = { λ result. Some (result_text result) };

    fn fmt<W: fmt::Write>(&self, f: &mut fmt::Formatter<W>) -> fmt::Result {
        match self {
            OwnResult::Nothing => write!(f, "nothing"),
            OwnResult::Sent(length) => write!(f, "sent {length}"),
            OwnResult::Refused(refusal) => {
                let number = refusal.number();
                let object = DamagedText(*refusal);
                write!(f, "refused {number}{object}")
            }
        }
    }
}

/// `own WHAT INO FRAG RESULT`.
impl fmt::Display for OwnTurn {
    ghost output = { λ turn. Some (own_text turn) };

    fn fmt<W: fmt::Write>(&self, f: &mut fmt::Formatter<W>) -> fmt::Result {
        let step = self.step;
        let ino = self.ino.0;
        let frag = self.frag;
        let result = self.result;
        write!(f, "own {step} {ino:x} {frag} {result}")
    }
}
