//! The lines that are printed.
ghost use Rattle.std.specs.Prelude.{◌≡◌, ◌++◌, codes, Some, OnErr, OnOk, string_bytes};
ghost use Rattle.script_output.specs.Texts.{damaged_text};
ghost use Rattle.script_output.specs.Lines.{output_line};
ghost use Rattle.script_output.specs.Writing.{Pushes, PushesMade};

use crate::fixed_texts::fixed_text;
use crate::frag_lists::FragList;
use crate::object_lines::ObjectLine;
use crate::own_turns::OwnTurn;
use crate::replies::{Heading, push_reply};
use crate::root_lists::RootList;
use crate::word_lists::{ObjectsText, WordList};
use keeping::Unkept;
use mds_types::{Rank, Refusal, Reply};
use std::alloc::{AllocError, Global};
use std::fmt;

/// A line that is printed for a command.
#[derive(Debug, Drop, PartialEq, Eq)]
pub enum OutputLine {
    /// `reply CLIENT TID PLACE new R`, or `again` for a reply that was kept.
    Reply {
        client: u64,
        tid: u64,
        /// The place of the request in the history, from 0.
        place: u64,
        /// Whether the request was applied now.
        first: bool,
        reply: Reply,
    },
    /// `forwarded R`: a request went to the inbox of the rank that has to serve it.
    Forwarded(Rank),
    /// `deferred`: a request can't be served yet, and went to the back of its inbox.
    Deferred,
    /// `queued`: a request came in, and waits.
    Queued,
    /// `nothing`: a step was made that answers nothing.
    Nothing,
    /// `flushed`: all that wasn't in the store is written.
    Flushed,
    /// `unsaved WHY`: all that wasn't in the store is written, but the file didn't take what changed.
    Unsaved(Unkept),
    /// `frags K F ..`: the leaves of a directory.
    Frags(FragList),
    /// `subtrees K INO:FRAG:RANK ..`: the subtree map.
    Subtrees(RootList),
    /// `rank R`: the authority of a leaf.
    Authority(Rank),
    /// `job J`: a commit was begun, with a job of this number.
    Job(u64),
    /// `sent LENGTH`: how many bytes an export handed over.
    Sent(u64),
    /// `frag ..`, `tree ..`, `absent` or `damaged`: what an object is.
    Object(ObjectLine),
    /// `objects K NAME ..`: the names of objects.
    Objects(WordList),
    /// `none`: a rank had no step of its own to make.
    Idle,
    /// `own WHAT INO FRAG RESULT`: the step that a rank made of its own, and what came of it.
    Own(OwnTurn),
    /// `history LENGTH`: how many entries the history has.
    History(u64),
    /// `refused N`: a step was refused; `refused 17 OBJECT`, where an object is damaged.
    Refused(Refusal),
    /// `errno N`: a name or a target outside its rules, of which no request was made.
    Errno(u16),
}

impl OutputLine {
    /// Puts the line with its LF at the end of a text. Where there is no memory for it, the text stays as it was.
    pub fn push_to(&self, alloc: Global, out: &mut Vec<u8>) -> Result<(), AllocError>
        ensures ok { OnOk result (out.new.items ≡ out.old.items ++ (output_line self.now ++ codes "\n")) }
        ensures err { OnErr result (out.new.items ≡ out.old.items) }
    {
        let len = out.len();
        let pushed = self.push_some(alloc, out);
        if pushed.is_err() {
            out.truncate(len);
        }
        pushed
    }

    // Puts the line with its LF at the end of a text, or some of it where there is no memory for all.
    #[tactic(auto, using(crate::proofs::PushLemmas::made), unfolding(crate::specs::Lines::output_line))]
    fn push_some(&self, alloc: Global, out: &mut Vec<u8>) -> Result<(), AllocError>
        ensures { Pushes out.old.items out.new.items (output_line self.now ++ codes "\n") result }
    {
        if let Some(text) = fixed_text(self) {
            return out.extend_from_slice(text.as_bytes());
        }
        match self {
            OutputLine::Reply {
                client,
                tid,
                place,
                first,
                reply,
            } => {
                let heading = Heading {
                    client: *client,
                    tid: *tid,
                    place: *place,
                    first: *first,
                };
                push_reply(out, &heading, reply)
            }
            OutputLine::Forwarded(Rank(rank)) => push_text(
                out,
                format!(in alloc; "forwarded {rank}\n"),
            ),
            OutputLine::Deferred
            | OutputLine::Queued
            | OutputLine::Nothing
            | OutputLine::Flushed
            | OutputLine::Unsaved(_)
            | OutputLine::Idle => unreachable!(),
            OutputLine::Frags(leaves) => push_text(out, format!(in alloc; "{leaves}\n")),
            OutputLine::Subtrees(roots) => push_text(out, format!(in alloc; "{roots}\n")),
            OutputLine::Authority(Rank(rank)) => push_text(out, format!(in alloc; "rank {rank}\n")),
            OutputLine::Job(number) => push_text(out, format!(in alloc; "job {number}\n")),
            OutputLine::Sent(length) => push_text(out, format!(in alloc; "sent {length}\n")),
            OutputLine::Object(object) => push_text(out, format!(in alloc; "{object}\n")),
            OutputLine::Objects(names) => {
                let names = ObjectsText(names);
                push_text(out, format!(in alloc; "{names}\n"))
            }
            OutputLine::Own(turn) => push_text(out, format!(in alloc; "{turn}\n")),
            OutputLine::History(length) => push_text(out, format!(in alloc; "history {length}\n")),
            OutputLine::Refused(refusal) => {
                let number = refusal.number();
                let object = DamagedText(*refusal);
                push_text(out, format!(in alloc; "refused {number}{object}\n"))
            }
            OutputLine::Errno(errno) => push_text(out, format!(in alloc; "errno {errno}\n")),
        }
    }
}

// Puts a text at the end of another, if there was memory to make it.
fn push_text(out: &mut Vec<u8>, text: Result<String, AllocError>) -> Result<(), AllocError>
    ensures { PushesMade string_bytes out.old.items out.new.items text result }
{
    out.extend_from_slice(text?.as_bytes())
}

/// A space and the name of the object that is damaged; of another refusal nothing.
#[derive(Clone, Copy)]
pub struct DamagedText(pub Refusal);

impl fmt::Display for DamagedText {
    ghost output = { λ text. Some (damaged_text text.0) };

    fn fmt<W: fmt::Write>(&self, f: &mut fmt::Formatter<W>) -> fmt::Result {
        match self.0 {
            Refusal::Damaged(object) => write!(f, " {object}"),
            _ => Ok(()),
        }
    }
}
