//! The grants of all ranks for one request.
ghost use Rattle.std.specs.Prelude.{◌≡◌, ◌≢◌, ◌+◌, [], Some, MatchResult};
ghost use Rattle.std.specs.Result.{result_err};
ghost use Rattle.objstore.specs.Objects.{faults_told};
ghost use Rattle.mds_types.specs.declared.requests.Request.{Request as Asked};
ghost use Rattle.inboxes.specs.Inboxes.{first_waiting};
ghost use Rattle.cluster_core.specs.Sound.{GoesOnBehind, IsSoundKept, OfWhole};
ghost use Rattle.asking.specs.GrantsAll.{GrantsEach, GrantsOf};
ghost use Rattle.asking.specs.Reached.{LeadsTo};

use cluster_core::{Book, Event};
use mds_types::{Rank, Refusal};
use objstore::Store;
use std::alloc::Global;

/// Each rank grants a waiting request all fragments of the rank that the request would change now. After that no such
/// fragment is frozen, and any rank that serves the request may change them. Refused `Frozen` exactly where such a
/// fragment is frozen, unless a fragment can't be read before that. After a refusal some grants may have been made.
#[tactic(auto, using(crate::proofs::ReachedLaws::leads_nowhere))]
pub fn grant_all<S: Store + Drop>(
    alloc: Global,
    book: &mut Book<S>,
    client: u64,
    tid: u64,
) -> Result<(), Refusal>
    ensures granted { (request : Asked) → first_waiting client tid book.old.core.state.inboxes ≡ Some request
        → GrantsEach book.old.core book.new.core client tid request.op result }
    ensures reached { OfWhole book.old book.new (λ old new. LeadsTo client tid [] 16 [] (result_err result) old new) }
    ensures history { book.new.history ≡ book.old.history }
    ensures opening { book.new.opening ≡ book.old.opening }
    ensures goes_on { GoesOnBehind book.old book.new }
    ensures sound { IsSoundKept book.new }
    ensures counted { book.new.core.faults ≡ book.old.core.faults + faults_told (result_err result) }
{
    book.is_sound();
    for rank in 0..16 {
        if let Err(refusal) = grant_own(alloc, book, Rank(rank), client, tid) {
            return Err(refusal);
        }
    }
    Ok(())
}

// A rank grants a waiting request those fragments of the rank that the request would change, if there are any.
fn grant_own<S: Store + Drop>(
    alloc: Global,
    book: &mut Book<S>,
    rank: Rank,
    client: u64,
    tid: u64,
) -> Result<(), Refusal>
    ensures granted { (request : Asked) → first_waiting client tid book.old.core.state.inboxes ≡ Some request
        → GrantsOf book.old.core book.new.core rank client tid request.op result }
    ensures reached { OfWhole book.old book.new (λ old new. LeadsTo client tid [] 1 [] (result_err result) old new) }
    ensures history { book.new.history ≡ book.old.history }
    ensures opening { book.new.opening ≡ book.old.opening }
    ensures goes_on { GoesOnBehind book.old book.new }
    ensures sound { IsSoundKept book.new }
    ensures counted { book.new.core.faults ≡ book.old.core.faults + faults_told (result_err result) }
{
    book.is_sound();
    match book.step(alloc, Event::Grant { rank, client, tid }) {
        Ok(answer) => {
            drop(answer);
            Ok(())
        }
        Err(refusal) => unless_foreign(refusal),
    }
}

// A rank that has nothing to grant is no error.
fn unless_foreign(refusal: Refusal) -> Result<(), Refusal>
    ensures { MatchResult result (λ done. refusal ≡ Refusal.NotAuthority)
        (λ reason. (reason ≡ refusal) × (refusal ≢ Refusal.NotAuthority)) }
{
    match refusal {
        Refusal::NotAuthority => Ok(()),
        other => Err(other),
    }
}
