//! Serving the request at the front of a rank's inbox.
ghost use Rattle.std.specs.Prelude.{◌≡◌, ◌+◌, ◌∷◌, [], ℕ, List, Ok, Err};
ghost use Rattle.std.specs.Result.{result_err};
ghost use Rattle.objstore.specs.Objects.{faults_told};
ghost use Rattle.mds_types.specs.declared.requests.Request.{Request as Asked};
ghost use Rattle.inboxes.specs.Inboxes.{waiting_at};
ghost use Rattle.cluster_core.specs.Sound.{GoesOnBehind, IsSoundKept, OfWhole};
ghost use Rattle.asking.specs.Reached.{LeadsTo};
ghost use Rattle.asking.specs.Serves.{StandsFor, IsOfServe, ServesTo, SomeWaits, receipts_in, told_of};

use cluster_core::{Answer, Book, Event, Receipt};
use mds_types::{Rank, Refusal};
use objstore::Store;
use std::alloc::Global;

/// The result of serving a request.
#[derive(Debug, Drop)]
pub(crate) enum Served {
    /// It has its reply.
    Replied(Receipt),
    /// It was forwarded to its master, this rank, and waits there.
    Goes(Rank),
    /// It waits behind all others at its master, for a grant or for the end of an export.
    Waits,
}

/// Serves the request at the front of a rank's inbox, in which at least one waits.
#[inline(always)]
pub(crate) fn serve<S: Store + Drop>(
    alloc: Global,
    book: &mut Book<S>,
    rank: Rank,
) -> Result<Served, Refusal>
    requires { SomeWaits book.old.core.state.inboxes rank }
    ensures served { OfWhole book.old book.new (λ old new. (request : Asked) (rest : List Asked) → waiting_at
        old.core.state.inboxes rank ≡ request ∷ rest → ServesTo old.core new.core old.history new.history rank request
        rest result) }
    ensures stands { OfWhole book.old book.new (λ _ new. StandsFor new.history result) }
    ensures reached { OfWhole book.old book.new (λ old new. (client tid : ℕ) → LeadsTo client tid [] 1 (receipts_in
        result) (result_err result) old new) }
    ensures opening { book.new.opening ≡ book.old.opening }
    ensures goes_on { GoesOnBehind book.old book.new }
    ensures sound { IsSoundKept book.new }
    ensures counted { book.new.core.faults ≡ book.old.core.faults + faults_told (result_err result) }
{
    book.is_sound();
    match book.step(alloc, Event::Serve { rank }) {
        Ok(answer) => Ok(served_by(answer)),
        Err(refusal) => Err(refusal),
    }
}

// What the answer of a Serve says of the request.
#[inline(always)]
fn served_by(answer: Answer) -> Served
    requires { IsOfServe answer }
    ensures { told_of result ≡ answer }
{
    match answer {
        Answer::Reply {
            client,
            tid,
            place,
            first,
            reply,
        } => Served::Replied(Receipt {
            client,
            tid,
            place,
            first,
            reply,
        }),
        Answer::Forwarded(master) => Served::Goes(master),
        Answer::Deferred => Served::Waits,
        Answer::Nothing | Answer::Job(_) | Answer::Sent(_) => unreachable!(),
    }
}
