//! Why a script ends before its input does.
ghost use Rattle.std.specs.Prelude.{Some};
ghost use Rattle.admin_cli.specs.FaultText.{fault_text};

use std::fmt;
use thiserror::Error;

/// What ended a script.
#[derive(Clone, Copy, Debug, PartialEq, Eq)]
pub enum FaultKind {
    NotCommand,
    TooLong,
    ReadFault,
    WriteFault,
    OutOfMemory,
}

impl fmt::Display for FaultKind {
    ghost output = { λ kind. Some (fault_text kind) };

    fn fmt<W: fmt::Write>(&self, f: &mut fmt::Formatter<W>) -> fmt::Result {
        match self {
            FaultKind::NotCommand => write!(f, "not a command"),
            FaultKind::TooLong => write!(f, "too long"),
            FaultKind::ReadFault => write!(f, "read fault"),
            FaultKind::WriteFault => write!(f, "write fault"),
            FaultKind::OutOfMemory => write!(f, "out of memory"),
        }
    }
}

/// Why a script ended before its input: the line that was being read or done, counted from 1 over all lines, and the
/// kind of fault.
#[derive(Clone, Copy, Debug, PartialEq, Eq, Error)]
#[error("line {line}: {kind}")]
pub struct ScriptFault {
    pub line: u64,
    pub kind: FaultKind,
}
