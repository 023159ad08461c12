//! Explanations of a script's lines, beside their output.
ghost use Rattle.std.specs.Prelude.{◌≤◌, length};

use cluster_core::Book;
use keeping::Keep;
use reasons::{misread, reason};
use script_output::OutputLine;
use script_text::{Line, read_line};
use std::alloc::{AllocError, Global};
use std::fmt::Display;

/// Who is told, in words, why a line was refused, deferred or forwarded, or isn't a command.
pub trait Tell {
    /// Whether anybody listens. If nobody does, no explanations are made.
    fn listens(&self) -> bool;

    /// Tells this explanation of the line of this number.
    fn tell<D: Display>(&self, line: u64, words: &D);
}

/// Nobody is told.
#[derive(Clone, Copy, Debug)]
pub struct Untold;

impl Tell for Untold {
    #[inline(always)]
    fn listens(&self) -> bool {
        false
    }

    fn tell<D: Display>(&self, _line: u64, _words: &D) {}
}

/// Explanations are written to standard error, each as a line.
#[derive(Drop)]
pub struct Aloud<'a, R: Eprint> {
    rt: &'a R,
}

impl<'a, R: Eprint> Aloud<'a, R> {
    /// Explains on the standard error of this runtime.
    pub fn new(rt: &'a R) -> Aloud<'a, R> {
        Aloud { rt }
    }
}

impl<'a, R: Eprint> Tell for Aloud<'a, R> {
    fn listens(&self) -> bool {
        true
    }

    fn tell<D: Display>(&self, line: u64, words: &D) {
        let _ = eprintln!(self.rt; "line {line}: {words}");
    }
}

/// Tells whoever listens why a command printed its line, if that needs a reason. The book is as the line left it.
#[inline(never)]
pub(crate) fn tell_reason<S: Keep + Drop, T: Tell>(
    alloc: Global,
    line: u64,
    bytes: &[u8],
    came: &Result<OutputLine, AllocError>,
    book: &Book<S>,
    teller: &T,
)
    requires { length bytes.now ≤ 16384 }
{
    if !teller.listens() {
        return;
    }
    let Ok(printed) = came else {
        return;
    };
    // doing the command consumed it, so it is read again
    match read_line(alloc, bytes) {
        Ok(Line::Command(command)) => {
            if let Some(why) = reason(book, &command, printed) {
                teller.tell(line, &why);
            }
            drop(command);
        }
        other => drop(other),
    }
}

/// Tells whoever listens why a line isn't a command.
#[inline(never)]
pub(crate) fn tell_misread<T: Tell>(line: u64, bytes: &[u8], teller: &T) {
    if teller.listens() {
        teller.tell(line, &misread(bytes));
    }
}
