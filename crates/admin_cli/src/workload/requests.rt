//! A request that one thread makes and serves.
ghost use Rattle.admin_cli.specs.Left.{BookGrows};

use crate::workload::steps::step;
use cluster_core::{Answer, Book, Event};
use keeping::Keep;
use mds_types::{Rank, Refusal, Reply, Request};
use std::alloc::Global;

/// Sends a request to rank 0, and serves it there or at the rank to which it is forwarded. Returns its reply, or none
/// if it gets none.
#[tactic(auto, using(crate::proofs::GoesOnLaws::goes_on_here, crate::proofs::GoesOnLaws::goes_on_past))]
pub(crate) fn ask<S: Keep + Drop>(
    alloc: Global,
    book: &mut Book<S>,
    request: Request,
) -> Option<Reply>
    ensures { BookGrows book.old book.new }
{
    let client = request.client;
    let tid = request.tid;
    let rank = Rank(0);
    if step(alloc, book, Event::Arrive { rank, request }).is_err() {
        return None;
    }
    let answer = step(alloc, book, Event::Serve { rank });
    let answer = serve_on(alloc, book, answer);
    reply_to(client, tid, answer)
}

// Serves a forwarded request at the rank to which it was forwarded.
#[tactic(auto, using(crate::proofs::GoesOnLaws::goes_on_here))]
fn serve_on<S: Keep + Drop>(
    alloc: Global,
    book: &mut Book<S>,
    answer: Result<Answer, Refusal>,
) -> Result<Answer, Refusal>
    ensures { BookGrows book.old book.new }
{
    match answer {
        Ok(Answer::Forwarded(master)) => step(alloc, book, Event::Serve { rank: master }),
        other => other,
    }
}

// The reply to this client's request, if the answer is one.
fn reply_to(client: u64, tid: u64, answer: Result<Answer, Refusal>) -> Option<Reply> {
    match answer {
        Ok(
            Answer::Reply {
                client: told,
                tid: number,
                reply,
                ..
            },
        ) if told == client && number == tid => Some(reply),
        other => {
            drop(other);
            None
        }
    }
}
