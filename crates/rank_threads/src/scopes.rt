//! The threads of a run, from their start to their ends.
ghost use Rattle.std.specs.Prelude.{◌≡◌, ◌+◌, [], IfOk, IfSome, OnOk, map, vec_len};
ghost use Rattle.std.specs.List.{AllByRecursion};
ghost use Rattle.cluster_core.specs.OneThread.{IsAskedFor};
ghost use Rattle.rank_threads.specs.TookTurn.{PlansTook, of_rank, kept_of};
ghost use Rattle.rank_threads.specs.Turns.{PlansAnswered, firsts_of_all, lists_of, receipts_of_all};

use crate::commits::{Commit, end_all};
use crate::desks::{Desk, Handed};
use crate::gates::Gate;
use crate::outcomes::RunFault;
use crate::prepared::{Ends, Needs, Starts};
use crate::ranks::{Answered, Work, Working, start};
use crate::workers::encode_all;
use cluster_core::KeptBytes;
use objstore::Store;
use std::alloc::{AllocError, Global};
use std::sync::ledger::Share;
use std::sync::{Mutex, Wait};
use std::thread;
use std::thread::{Scope, Threads};

/// What the threads of a run gave.
#[derive(Drop)]
pub(crate) struct Ran<L: Handed> {
    pub(crate) answers: Vec<Vec<Answered>>,
    pub(crate) kept: Vec<KeptBytes>,
    pub(crate) commits: Vec<Commit>,
    pub(crate) all: Share<L>,
}

/// Runs all threads to their ends.
pub(crate) fn run_all<S, L, G, R>(
    rt: &R,
    alloc: Global,
    desk: &Mutex<Desk<S, L>>,
    gate: &G,
    needs: Needs<L>,
) -> Result<Ran<L>, RunFault>
where
    S: Store + Drop + Send,
    L: Handed + Send + Sync,
    G: Gate,
    R: Threads + Wait + Sync,
    requires { (needs.starts.handles.items ≡ []) × (needs.answers.items ≡ []) × (needs.kept.items ≡ []) }
    ensures answered { IfOk result (λ r.
        PlansAnswered (map (λ p. p.turns.items) needs.starts.plans.items) (lists_of r.answers.items)) }
    ensures took { IfOk result (λ r. PlansTook (map (λ p. of_rank p.rank p.turns.items) needs.starts.plans.items)
        (lists_of r.answers.items) (kept_of r.kept.items)) }
    ensures parts { IfOk result (λ r. r.all.parts ≡ needs.all.parts + vec_len needs.starts.plans) }
    ensures amount { IfOk result (λ r. r.all.amount ≡ needs.all.amount + firsts_of_all (lists_of r.answers.items)) }
    ensures asked_for { IfOk result (λ r.
        ∥ AllByRecursion (IsAskedFor L.sent) (receipts_of_all (lists_of r.answers.items)) ∥₁) }
{
    thread::scope(
        thread::scope_env(),
        rt,
        move |scope| -> Result<Ran<L>, RunFault>
            requires { (needs.starts.handles.items ≡ []) × (needs.answers.items ≡ []) × (needs.kept.items ≡ []) }
            ensures { IfOk result (λ r.
                PlansAnswered (map (λ p. p.turns.items) needs.starts.plans.items) (lists_of r.answers.items)
                × PlansTook (map (λ p. of_rank p.rank p.turns.items) needs.starts.plans.items) (lists_of r.answers.items)
                (kept_of r.kept.items)
                × (r.all.parts ≡ needs.all.parts + vec_len needs.starts.plans)
                × (r.all.amount ≡ needs.all.amount + firsts_of_all (lists_of r.answers.items))
                × ∥ AllByRecursion (IsAskedFor L.sent) (receipts_of_all (lists_of r.answers.items)) ∥₁) }
        { run_in(scope, rt, alloc, desk, gate, needs) },
    )
}

// Starts the workers and the ranks' threads, ends their commits, and joins the ranks' threads.
fn run_in<'s, E, S, L, G, R>(
    scope: &Scope<'s, E>,
    rt: &'s R,
    alloc: Global,
    desk: &'s Mutex<Desk<S, L>>,
    gate: &'s G,
    needs: Needs<L>,
) -> Result<Ran<L>, RunFault>
where
    S: Store + Drop + Send + 's,
    L: Handed + Send + Sync + 's,
    G: Gate + 's,
    R: Threads + Wait + Sync + 's,
    requires { (needs.starts.handles.items ≡ []) × (needs.answers.items ≡ []) × (needs.kept.items ≡ []) }
    ensures answered { IfOk result (λ r.
        PlansAnswered (map (λ p. p.turns.items) needs.starts.plans.items) (lists_of r.answers.items)) }
    ensures took { IfOk result (λ r. PlansTook (map (λ p. of_rank p.rank p.turns.items) needs.starts.plans.items)
        (lists_of r.answers.items) (kept_of r.kept.items)) }
    ensures parts { IfOk result (λ r. r.all.parts ≡ needs.all.parts + vec_len needs.starts.plans) }
    ensures amount { IfOk result (λ r. r.all.amount ≡ needs.all.amount + firsts_of_all (lists_of r.answers.items)) }
    ensures asked_for { IfOk result (λ r.
        ∥ AllByRecursion (IsAskedFor L.sent) (receipts_of_all (lists_of r.answers.items)) ∥₁) }
{
    let Needs {
        starts,
        workers,
        results,
        mut answers,
        mut kept,
        mut commits,
        mut all,
    } = needs;
    if !start_workers(scope, rt, alloc, desk, gate, workers) {
        return Err(RunFault::Spawn);
    }
    let started = start_all(scope, rt, alloc, desk, gate, starts);
    // all threads run to their ends, also if one couldn't be made
    let listed = end_all(rt, alloc, desk, &results, &mut commits);
    let Some(handles) = started else {
        return Err(RunFault::Spawn);
    };
    if gather(rt, handles, &mut answers, &mut kept, &mut all).is_err() || !listed {
        return Err(RunFault::NoMemory);
    }
    Ok(Ran {
        answers,
        kept,
        commits,
        all,
    })
}

// Starts a thread for each plan. If one can't be made, it returns none, and the threads that were made run on.
fn start_all<'s, E, S, L, G, R>(
    scope: &Scope<'s, E>,
    rt: &'s R,
    alloc: Global,
    desk: &'s Mutex<Desk<S, L>>,
    gate: &'s G,
    starts: Starts<L>,
) -> Option<Vec<Working<L>>>
where
    S: Store + Drop + Send + 's,
    L: Handed + Send + Sync + 's,
    G: Gate + 's,
    R: Threads + Wait + Sync + 's,
    requires empty { starts.handles.items ≡ [] }
    ensures turns { IfSome result (λ handles.
        map (λ h. h.promise.turns.value.items) handles.items ≡ map (λ p. p.turns.items) starts.plans.items) }
    ensures asked { IfSome result (λ handles. map (λ h. of_rank h.promise.rank h.promise.turns.value.items) handles.items
        ≡ map (λ p. of_rank p.rank p.turns.items) starts.plans.items) }
{
    let Starts { plans, mut handles } = starts;
    for plan in plans {
        handles
            .push(start(scope, rt, alloc, desk, gate, plan)?)
            .ok()?;
    }
    Some(handles)
}

// Joins all threads, and gathers their answers, the bytes that they still keep, and their shares.
fn gather<L: Handed, R: Threads>(
    rt: &R,
    handles: Vec<Working<L>>,
    answers: &mut Vec<Vec<Answered>>,
    kept: &mut Vec<KeptBytes>,
    all: &mut Share<L>,
) -> Result<(), AllocError>
    requires empty { answers.old.items ≡ [] }
    requires none { kept.old.items ≡ [] }
    ensures answered { OnOk result (
        PlansAnswered (map (λ h. h.promise.turns.value.items) handles.items) (lists_of answers.new.items)) }
    ensures took { OnOk result (PlansTook (map (λ h. of_rank h.promise.rank h.promise.turns.value.items) handles.items)
        (lists_of answers.new.items) (kept_of kept.new.items)) }
    ensures parts { OnOk result (all.new.parts ≡ all.old.parts + vec_len handles) }
    ensures amount { OnOk result (all.new.amount ≡ all.old.amount + firsts_of_all (lists_of answers.new.items)) }
    ensures asked_for { OnOk result
        (∥ AllByRecursion (IsAskedFor L.sent) (receipts_of_all (lists_of answers.new.items)) ∥₁) }
{
    for handle in handles {
        let Work {
            answers: given,
            kept: left,
            share,
            ..
        } = handle.join(rt);
        all.merge(share);
        answers.push(given)?;
        kept.push(left)?;
    }
    Ok(())
}

// Starts a thread for each worker. Returns whether all could be made.
fn start_workers<'s, E, S, L, G, R>(
    scope: &Scope<'s, E>,
    rt: &'s R,
    alloc: Global,
    desk: &'s Mutex<Desk<S, L>>,
    gate: &'s G,
    workers: Vec<Ends>,
) -> bool
where
    S: Store + Drop + Send + 's,
    L: Handed + Send + Sync + 's,
    G: Gate + 's,
    R: Threads + Wait + Sync + 's,
{
    for ends in workers {
        if !start_worker(scope, rt, alloc, desk, gate, ends) {
            return false;
        }
    }
    true
}

// Starts a thread for a worker. Returns whether it could be made.
fn start_worker<'s, E, S, L, G, R>(
    scope: &Scope<'s, E>,
    rt: &'s R,
    alloc: Global,
    desk: &'s Mutex<Desk<S, L>>,
    gate: &'s G,
    ends: Ends,
) -> bool
where
    S: Store + Drop + Send + 's,
    L: Handed + Send + Sync + 's,
    G: Gate + 's,
    R: Threads + Wait + Sync + 's,
{
    scope
        .spawn(move || {
            let Ends { jobs, results } = ends;
            encode_all(rt, alloc, desk, jobs, results, gate);
        })
        .is_ok()
}
