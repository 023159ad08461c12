//! Exporting a directory to another rank, before the threads start.
ghost use Rattle.admin_cli.specs.Left.{BookGrows};

use crate::workload::steps::step;
use cluster_core::{Answer, Book, Event};
use keeping::Keep;
use mds_types::{Bytes, Frag, Ino, Rank, Refusal};
use std::alloc::Global;

/// The rank that has all subtrees of a new book.
const FIRST: Rank = Rank(0);

/// Exports a directory of one leaf from rank 0 to another rank, one step after the other. Returns none if a step is
/// refused.
#[tactic(auto, using(crate::proofs::GoesOnLaws::goes_on_past))]
pub(crate) fn hand<S: Keep + Drop>(
    alloc: Global,
    book: &mut Book<S>,
    ino: Ino,
    to: Rank,
) -> Option<()>
    ensures { BookGrows book.old book.new }
{
    prepare(alloc, book, ino, to)?;
    take_over(alloc, book, ino)
}

// The first three steps of the export: Start, Freeze, Prep.
#[tactic(auto, using(crate::proofs::GoesOnLaws::goes_on_past))]
fn prepare<S: Keep + Drop>(alloc: Global, book: &mut Book<S>, ino: Ino, to: Rank) -> Option<()>
    ensures { BookGrows book.old book.new }
{
    let frag = Frag::ROOT;
    let from = FIRST;
    step(
        alloc,
        book,
        Event::Start {
            from,
            ino,
            frag,
            to,
        },
    )
    .ok()?;
    step(alloc, book, Event::Freeze { ino, frag }).ok()?;
    step(alloc, book, Event::Prep { ino, frag }).ok()?;
    Some(())
}

// The last three steps of the export: Send, Import, Finish.
#[tactic(auto, using(crate::proofs::GoesOnLaws::goes_on_past))]
fn take_over<S: Keep + Drop>(alloc: Global, book: &mut Book<S>, ino: Ino) -> Option<()>
    ensures { BookGrows book.old book.new }
{
    let frag = Frag::ROOT;
    let bytes = sent(step(alloc, book, Event::Send { ino, frag }))?;
    step(alloc, book, Event::Import { ino, frag, bytes }).ok()?;
    step(alloc, book, Event::Finish { ino, frag }).ok()?;
    Some(())
}

// The bytes that a Send gave.
fn sent(answer: Result<Answer, Refusal>) -> Option<Bytes> {
    match answer {
        Ok(Answer::Sent(bytes)) => Some(bytes),
        other => {
            drop(other);
            None
        }
    }
}
