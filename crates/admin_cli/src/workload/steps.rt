//! A step of a load's book, and its forgetting.
ghost use Rattle.admin_cli.specs.Left.{BookGrows};

use cluster_core::{Answer, Book, Event};
use keeping::Keep;
use mds_types::Refusal;
use std::alloc::Global;

/// Makes one step of the book.
#[inline(always)]
pub(crate) fn step<S: Keep + Drop>(
    alloc: Global,
    book: &mut Book<S>,
    event: Event,
) -> Result<Answer, Refusal>
    ensures { BookGrows book.old book.new }
{
    book.step(alloc, event)
}

/// The book forgets the entries that no client may repeat, and whose reply is therefore never handed out again.
#[tactic(auto, using(crate::proofs::GoesOnLaws::goes_on_forgot))]
pub(crate) fn forget_passed<S: Keep + Drop>(book: &mut Book<S>)
    ensures { BookGrows book.old book.new }
{
    let _ = book.forget_passed();
}
