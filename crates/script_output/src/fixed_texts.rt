//! Lines whose text is always the same. They are printed where there is no memory for a text, so that a refusal is
//! always told.
ghost use Rattle.std.specs.Prelude.{◌≡◌, ◌++◌, codes, IfNone, IfSome};
ghost use Rattle.keeping.specs.Unkept.{unkept_word};
ghost use Rattle.script_output.specs.Lines.{output_line};
ghost use Rattle.script_output.specs.Texts.{refused_line};
ghost use Rattle.script_output.specs.Writing.{NamesObject, TakesText};

use crate::lines::OutputLine;
use keeping::Unkept;
use mds_types::Refusal;

/// The line with its LF, if it is always the same.
#[tactic(auto, unfolding(crate::specs::Lines::output_line))]
pub fn fixed_text(line: &OutputLine) -> Option<&'static str>
    ensures text { IfSome result (λ text. text.now ≡ output_line line.now ++ codes "\n") }
    ensures none { IfNone result (TakesText line.now) }
{
    match line {
        OutputLine::Deferred => Some("deferred\n"),
        OutputLine::Queued => Some("queued\n"),
        OutputLine::Nothing => Some("nothing\n"),
        OutputLine::Flushed => Some("flushed\n"),
        OutputLine::Unsaved(why) => Some(unsaved_text(*why)),
        OutputLine::Idle => Some("none\n"),
        OutputLine::Refused(refusal) => refused_text(*refusal),
        OutputLine::Reply { .. } => None,
        OutputLine::Forwarded(_) => None,
        OutputLine::Frags(_) => None,
        OutputLine::Subtrees(_) => None,
        OutputLine::Authority(_) => None,
        OutputLine::Job(_) => None,
        OutputLine::Sent(_) => None,
        OutputLine::Object(_) => None,
        OutputLine::Objects(_) => None,
        OutputLine::Own(_) => None,
        OutputLine::History(_) => None,
        OutputLine::Errno(_) => None,
    }
}

// The line of a flush that a file doesn't have, with its LF.
fn unsaved_text(why: Unkept) -> &'static str
    ensures { result.now ≡ codes "unsaved " ++ unkept_word why ++ codes "\n" }
{
    match why {
        Unkept::NoMemory => "unsaved memory\n",
        Unkept::Full => "unsaved full\n",
        Unkept::Io => "unsaved io\n",
        Unkept::Corrupt => "unsaved corrupt\n",
        Unkept::Shut => "unsaved shut\n",
    }
}

// The line of a refusal with its LF, if it names no object.
fn refused_text(refusal: Refusal) -> Option<&'static str>
    ensures text { IfSome result (λ text. text.now ≡ refused_line refusal ++ codes "\n") }
    ensures none { IfNone result (NamesObject refusal) }
{
    match refusal {
        Refusal::NoMemory => Some("refused 1\n"),
        Refusal::StoreFault => Some("refused 2\n"),
        Refusal::NoInodes => Some("refused 3\n"),
        Refusal::Trimmed => Some("refused 4\n"),
        Refusal::NotAuthority => Some("refused 5\n"),
        Refusal::Frozen => Some("refused 6\n"),
        Refusal::Pinned => Some("refused 7\n"),
        Refusal::NoSuchFrag => Some("refused 8\n"),
        Refusal::BadSplit => Some("refused 9\n"),
        Refusal::TooManyFrags => Some("refused 10\n"),
        Refusal::StaleJob => Some("refused 11\n"),
        Refusal::JobOutstanding => Some("refused 12\n"),
        Refusal::WrongExportState => Some("refused 13\n"),
        Refusal::InboxEmpty => Some("refused 14\n"),
        Refusal::InboxFull => Some("refused 15\n"),
        Refusal::NothingToEvict => Some("refused 16\n"),
        Refusal::Damaged(_) => None,
        Refusal::NotClean => Some("refused 18\n"),
    }
}
