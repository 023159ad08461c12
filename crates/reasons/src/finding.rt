//! Why a line was refused, deferred or forwarded.
ghost use Rattle.std.specs.Prelude.{◌≡◌, is_some};
ghost use Rattle.reasons.specs.Explained.{is_explained, own_was_refused};

use crate::asked::{Asked, asked_of, asked_of_own};
use crate::authorities::not_its;
use crate::exports::{Freezes, frozen, frozen_inside, unflushed, wrong_state};
use crate::grants::grant_met;
use crate::jobs::{begun, stale};
use crate::lacking::{Lacks, damaged, numbers, what_stays};
use crate::leaves::{bad_split, no_leaf, too_many};
use crate::requests::{Deferral, frozen_for, waiting_request, why_deferred, why_forwarded};
use crate::room::too_little_room;
use crate::sentences::{Reason, Told, Why};
use crate::waiting::{empty, full, old};
use cluster_core::{Book, Cluster};
use mds_types::{Rank, Refusal};
use objstore::Store;
use script_output::{OutputLine, OwnResult, OwnTurn};
use script_text::Command;

/// Why a line was refused, deferred or forwarded, which asked for this command and printed this line: a sentence on the book as
/// the line left it. None where it was none of these. A step of a rank's own that was refused has one, too. Takes no memory.
pub fn reason<S: Store + Drop>(
    book: &Book<S>,
    command: &Command,
    printed: &OutputLine,
) -> Option<Reason>
    ensures { is_some result ≡ is_explained printed.now }
{
    match printed {
        OutputLine::Refused(refusal) => Some(refused(book, &asked_of(command), *refusal)),
        OutputLine::Deferred => Some(Reason {
            told: Told::Deferred,
            why: Why::Deferral(why_deferred(book.cluster(), &asked_of(command))),
        }),
        OutputLine::Forwarded(rank) => Some(forwarded(book.cluster(), *rank)),
        OutputLine::Own(turn) => refused_own(book, &asked_of(command), turn),
        OutputLine::Reply { .. }
        | OutputLine::Queued
        | OutputLine::Nothing
        | OutputLine::Flushed
        | OutputLine::Unsaved(_)
        | OutputLine::Frags(_)
        | OutputLine::Subtrees(_)
        | OutputLine::Authority(_)
        | OutputLine::Job(_)
        | OutputLine::Sent(_)
        | OutputLine::Object(_)
        | OutputLine::Objects(_)
        | OutputLine::Idle
        | OutputLine::History(_)
        | OutputLine::Errno(_) => None,
    }
}

// The reason of a request that went to this rank.
fn forwarded<S: Store + Drop>(cluster: &Cluster<S>, rank: Rank) -> Reason {
    let why = match why_forwarded(cluster, rank) {
        Some(forwarding) => Why::Forwarding(forwarding),
        None => Why::Deferral(Deferral::Gone),
    };
    Reason {
        told: Told::Forwarded(rank),
        why,
    }
}

// The reason of a rank's own step, if it was refused.
fn refused_own<S: Store + Drop>(
    book: &Book<S>,
    command: &Asked<'_>,
    turn: &OwnTurn,
) -> Option<Reason>
    ensures { is_some result ≡ own_was_refused turn.now.result }
{
    let rank = match command {
        Asked::Own(rank) => *rank,
        _ => Rank(0),
    };
    match turn.result {
        OwnResult::Refused(refusal) => Some(refused(book, &asked_of_own(rank, turn), refusal)),
        OwnResult::Sent(_) => None,
        OwnResult::Nothing => None,
    }
}

// The reason of a refusal.
fn refused<S: Store + Drop>(book: &Book<S>, asked: &Asked<'_>, refusal: Refusal) -> Reason {
    let why = match why_refused(book, asked, &refusal) {
        Some(why) => why,
        None => Why::Plain(refusal),
    };
    Reason {
        told: Told::Refused(refusal),
        why,
    }
}

// Which check it was, as far as the book tells.
fn why_refused<S: Store + Drop>(
    book: &Book<S>,
    asked: &Asked<'_>,
    refusal: &Refusal,
) -> Option<Why> {
    let cluster = book.cluster();
    match refusal {
        Refusal::NoMemory => Some(Why::Lacks(Lacks::Memory(what_stays(cluster, asked)))),
        Refusal::StoreFault => Some(Why::Lacks(Lacks::Store(what_stays(cluster, asked)))),
        Refusal::NoInodes => Some(Why::Lacks(numbers(asked))),
        Refusal::Trimmed => Some(Why::Queue(old(book, asked)?)),
        Refusal::NotAuthority => Some(Why::NotIts(not_its(cluster, asked)?)),
        Refusal::Frozen => Some(Why::Frozen(what_froze(cluster, asked)?)),
        Refusal::Pinned => Some(Why::Granted(grant_met(cluster, asked)?)),
        Refusal::NoSuchFrag => Some(Why::NoLeaf(no_leaf(cluster, asked)?)),
        Refusal::BadSplit => Some(Why::BadSplit(bad_split(asked)?)),
        Refusal::TooManyFrags => Some(Why::TooMany(too_many(cluster, asked)?)),
        Refusal::StaleJob => Some(Why::Job(stale(asked)?)),
        Refusal::JobOutstanding => Some(Why::Job(begun(cluster, asked)?)),
        Refusal::WrongExportState => Some(Why::Export(wrong_state(cluster, asked)?)),
        Refusal::InboxEmpty => Some(Why::Queue(empty(asked)?)),
        Refusal::InboxFull => Some(Why::Queue(full(cluster, asked)?)),
        Refusal::NothingToEvict => Some(Why::Room(too_little_room(cluster, asked)?)),
        Refusal::Damaged(object) => Some(Why::Lacks(damaged(asked, *object))),
        Refusal::NotClean => Some(Why::Export(unflushed(cluster)?)),
    }
}

// What froze a leaf that the line would change.
fn what_froze<S: Store + Drop>(cluster: &Cluster<S>, asked: &Asked<'_>) -> Option<Freezes> {
    match asked {
        Asked::Operation(op) => frozen_for(cluster, op),
        Asked::Arrive(_, request) => frozen_for(cluster, &request.op),
        Asked::Grant { client, tid, .. } => {
            frozen_for(cluster, &waiting_request(cluster, *client, *tid)?.op)
        }
        Asked::Split { leaf, .. }
        | Asked::Commit { leaf, .. }
        | Asked::Start { leaf, .. }
        | Asked::Export(_, leaf) => frozen(cluster, leaf),
        Asked::Merge { whole, .. } => frozen_inside(cluster, whole),
        _ => None,
    }
}
