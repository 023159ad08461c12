//! The memory that a run takes before its first lock.
ghost use Rattle.std.specs.Prelude.{◌≡◌, ◌+◌, ◌<◌, ◌≤◌, [], Contains, IfOk, map, vec_len};
ghost use Rattle.std.specs.List.{AllByRecursion};
ghost use Rattle.rank_threads.specs.Sent.{EachIsSent, plan_arrivals};
ghost use Rattle.rank_threads.specs.TookTurn.{of_rank, by_rank};
ghost use Rattle.rank_threads.specs.Turns.{lists_of};

use crate::commits::Commit;
use crate::desks::Handed;
use crate::plans::Turn;
use crate::ranks::{Answered, Plan, Working};
use crate::workers::Finished;
use cached_frag::Job;
use cluster_core::KeptBytes;
use crossbeam_channel::{Receiver, Sender};
use mds_types::Rank;
use std::alloc::{AllocError, Global};
use std::sync::ledger::Share;

/// The channel ends of a worker: it receives jobs and sends results.
#[derive(Drop)]
pub(crate) struct Ends {
    pub(crate) jobs: Receiver<Job>,
    pub(crate) results: Sender<Finished>,
}

/// All that a run needs. Only the plans and the workers have sending ends, so each channel closes once these are
/// dropped.
#[derive(Drop)]
pub(crate) struct Needs<L: Handed> {
    pub(crate) starts: Starts<L>,
    pub(crate) workers: Vec<Ends>,
    pub(crate) results: Receiver<Finished>,
    pub(crate) answers: Vec<Vec<Answered>>,
    pub(crate) kept: Vec<KeptBytes>,
    pub(crate) commits: Vec<Commit>,
    /// The rest of the share, which no plan took.
    pub(crate) all: Share<L>,
}

/// The plans of the ranks' threads, and room for a handle of each thread.
#[derive(Drop)]
pub(crate) struct Starts<L: Handed> {
    pub(crate) plans: Vec<Plan<L>>,
    pub(crate) handles: Vec<Working<L>>,
}

/// Makes all that a run needs: a plan for each list of turns, each with a part of the share, and room for all results.
pub(crate) fn prepare<L: Handed>(
    alloc: Global,
    lists: Vec<Vec<Turn>>,
    workers: u8,
    share: Share<L>,
) -> Result<Needs<L>, AllocError>
    requires parts { vec_len lists < share.parts }
    requires few { vec_len lists ≤ 16 }
    requires sent { EachIsSent L.sent (lists_of lists.items) }
    ensures turns { IfOk result (λ r. map (λ p. p.turns.items) r.starts.plans.items ≡ lists_of lists.items) }
    ensures asked { IfOk result (λ r.
        map (λ p. of_rank p.rank p.turns.items) r.starts.plans.items ≡ by_rank (lists_of lists.items)) }
    ensures count { IfOk result (λ r. vec_len r.starts.plans ≡ vec_len lists) }
    ensures empty { IfOk result (λ r.
        (r.starts.handles.items ≡ []) × (r.answers.items ≡ []) × (r.kept.items ≡ [])) }
    ensures parts { IfOk result (λ r. r.all.parts + vec_len lists ≡ share.parts) }
    ensures amount { IfOk result (λ r. r.all.amount ≡ share.amount) }
{
    let mut all = share;
    let handles = Vec::with_capacity(alloc, lists.len())?;
    let answers = Vec::with_capacity(alloc, lists.len())?;
    let kept = Vec::with_capacity(alloc, lists.len())?;
    let commits = Vec::with_capacity(alloc, count_commits(&lists))?;
    let (jobs, from) = crossbeam_channel::unbounded(alloc)?;
    let (to, results) = crossbeam_channel::unbounded(alloc)?;
    let workers = ends_of(alloc, workers, &from, &to)?;
    let plans = plans_of(alloc, lists, &jobs, &mut all)?;
    Ok(Needs {
        starts: Starts { plans, handles },
        workers,
        results,
        answers,
        kept,
        commits,
        all,
    })
}

// Makes a plan for each list of turns, in the order of ranks, each with a part of the share.
#[tactic(auto, using(crate::proofs::TookLaws::ranked_push))]
fn plans_of<L: Handed>(
    alloc: Global,
    lists: Vec<Vec<Turn>>,
    jobs: &Sender<Job>,
    all: &mut Share<L>,
) -> Result<Vec<Plan<L>>, AllocError>
    requires parts { vec_len lists < all.old.parts }
    requires few { vec_len lists ≤ 16 }
    requires sent { EachIsSent L.sent (lists_of lists.items) }
    ensures turns { IfOk result (λ plans. map (λ p. p.turns.items) plans.items ≡ lists_of lists.items) }
    ensures asked { IfOk result (λ plans.
        map (λ p. of_rank p.rank p.turns.items) plans.items ≡ by_rank (lists_of lists.items)) }
    ensures parts { IfOk result (λ plans. all.new.parts + vec_len lists ≡ all.old.parts) }
    ensures amount { IfOk result (λ plans. all.new.amount ≡ all.old.amount) }
{
    let mut plans = Vec::new(alloc);
    let mut rank: u8 = 0;
    for turns in lists {
        let share = all.split_off(1, 0);
        plans.push(plan_of(alloc, Rank(rank), turns, jobs.clone()?, share)?)?;
        rank += 1;
    }
    Ok(plans)
}

// A plan, with room for its results.
fn plan_of<L: Handed>(
    alloc: Global,
    rank: Rank,
    turns: Vec<Turn>,
    jobs: Sender<Job>,
    share: Share<L>,
) -> Result<Plan<L>, AllocError>
    requires one { share.parts ≡ 1 }
    requires none { share.amount ≡ 0 }
    requires sent { AllByRecursion (Contains L.sent) (plan_arrivals turns.items) }
    ensures turns { IfOk result (λ p. p.turns ≡ turns) }
    ensures rank { IfOk result (λ p. p.rank ≡ rank) }
{
    let answers = Vec::with_capacity(alloc, turns.len())?;
    Ok(Plan {
        rank,
        turns,
        answers,
        jobs,
        share,
    })
}

// The channel ends of each worker.
fn ends_of(
    alloc: Global,
    workers: u8,
    jobs: &Receiver<Job>,
    results: &Sender<Finished>,
) -> Result<Vec<Ends>, AllocError> {
    let mut all = Vec::new(alloc);
    for _ in 0..workers {
        all.push(Ends {
            jobs: jobs.clone()?,
            results: results.clone()?,
        })?;
    }
    Ok(all)
}

// How many commits the plans have.
fn count_commits(lists: &Vec<Vec<Turn>>) -> usize {
    let mut count: usize = 0;
    for turns in lists {
        for turn in turns {
            if let Turn::Commit { .. } = turn {
                count = count.saturating_add(1);
            }
        }
    }
    count
}
