//! The threads that make the turns of ranks.
ghost use Rattle.std.specs.Prelude.{◌≡◌, ◌+◌, ◌<◌, ◌≤◌, ◌++◌, ◌∷◌, [], Contains, IfSome, Ok, Some, vec_len, vec_capacity};
ghost use Rattle.std.specs.List.{AllByRecursion};
ghost use Rattle.cluster_core.specs.OneThread.{IsAskedFor, receipt_of, receipts_of};
ghost use Rattle.rank_threads.specs.TookTurn.{HandedOn, TookCommitTurn, TookTurn, TookTurns};
ghost use Rattle.std.specs.FinMap as map;
ghost use Rattle.rank_threads.specs.Sent.{plan_arrivals, turn_arrival};
ghost use Rattle.rank_threads.specs.Turns.{AreAnswered, FitsTurn, first_in, firsts};

use crate::desks::{Desk, Handed};
use crate::gates::Gate;
use crate::locking::lock;
use crate::own_turns::OwnTurns;
use crate::plans::Turn;
use cached_frag::Job;
use cluster_core::{Answer, KeptBytes};
use crossbeam_channel::Sender;
use mds_types::{Dirfrag, Rank, Refusal};
use objstore::Store;
use std::alloc::Global;
use std::snapshot::Snapshot;
use std::sync::ledger::Share;
use std::sync::{Mutex, Wait};
use std::thread::{Promise, PromisedHandle, Scope, Threads};

/// What a turn gave.
pub(crate) type Answered = Result<Answer, Refusal>;

/// What a rank's thread is handed: its turns, whose requests were all sent; room for the result of each; a sending end
/// of the channel of jobs; and its share.
#[derive(Drop)]
pub(crate) struct Plan<L: Handed> {
    pub(crate) rank: Rank,
    pub(crate) turns: Vec<Turn>,
    pub(crate) answers: Vec<Answered>,
    pub(crate) jobs: Sender<Job>,
    pub(crate) share: Share<L>,
    pub(crate) ghost one_part: { share.parts ≡ 1 },
    pub(crate) ghost none_yet: { share.amount ≡ 0 },
    pub(crate) ghost empty: { answers.items ≡ [] },
    pub(crate) ghost room: { vec_len turns ≤ vec_capacity answers },
    pub(crate) ghost sent: { ∥ AllByRecursion (Contains L.sent) (plan_arrivals turns.items) ∥₁ },
}

/// What a rank's thread hands back: a result for each turn, whose replies were all asked for; the bytes of exports that
/// it still keeps; and its share, which counts the first replies among the results.
#[derive(Drop)]
pub(crate) struct Work<L: Handed> {
    pub(crate) answers: Vec<Answered>,
    pub(crate) kept: KeptBytes,
    pub(crate) share: Share<L>,
    pub(crate) ghost one_part: { share.parts ≡ 1 },
    pub(crate) ghost counted: { share.amount ≡ firsts answers.items },
    pub(crate) ghost asked_for: { ∥ AllByRecursion (IsAskedFor L.sent) (receipts_of answers.items) ∥₁ },
}

/// What a rank's thread has of its own while it works: the steps that its rank proposes, a sending end of the channel
/// of jobs, and its share.
#[derive(Drop)]
struct Mine<L: Handed> {
    own: OwnTurns,
    jobs: Sender<Job>,
    share: Share<L>,
}

/// The promise of a thread: its work has a result for each of these turns at this rank, and keeps the bytes that they
/// left.
#[derive(Drop)]
pub(crate) struct Answers {
    rank: Rank,
    turns: Snapshot<Vec<Turn>>,
}

impl<L: Handed> Promise<Work<L>> for Answers {
    ghost kept_by = { λ p w. AreAnswered p.turns.value.items w.answers.items
        × TookTurns p.rank map.empty w.kept.bytes p.turns.value.items w.answers.items };
}

/// The handle of a thread that works on a plan.
pub(crate) type Working<L> = PromisedHandle<Work<L>, Answers>;

/// Starts a thread for a plan. Returns none if the thread can't be made.
pub(crate) fn start<'s, E, S, L, G, R>(
    scope: &Scope<'s, E>,
    rt: &'s R,
    alloc: Global,
    desk: &'s Mutex<Desk<S, L>>,
    gate: &'s G,
    plan: Plan<L>,
) -> Option<Working<L>>
where
    S: Store + Drop + Send + 's,
    L: Handed + Send + Sync + 's,
    G: Gate + 's,
    R: Threads + Wait + Sync + 's,
    ensures turns { IfSome result (λ h. h.promise.turns.value.items ≡ plan.turns.items) }
    ensures rank { IfSome result (λ h. h.promise.rank ≡ plan.rank) }
{
    let promise = Answers {
        rank: plan.rank,
        turns: Snapshot::of(&plan.turns),
    };
    scope
        .spawn_with(promise, move || work_off(rt, alloc, desk, gate, plan))
        .ok()
}

// Makes the turns of a plan, and takes the lock once for each. No bytes of exports are kept before the first turn.
#[tactic(auto, using(crate::proofs::TurnLaws::answered_more, crate::proofs::TookLaws::took_more, crate::proofs::TurnLaws::firsts_more, crate::proofs::AskedLaws::first_brings, crate::proofs::AskedLaws::rest_brings, crate::proofs::AskedLaws::asked_more))]
fn work_off<S: Store + Drop, L: Handed, G: Gate, R: Wait>(
    rt: &R,
    alloc: Global,
    desk: &Mutex<Desk<S, L>>,
    gate: &G,
    plan: Plan<L>,
) -> Work<L>
    ensures answered { AreAnswered plan.turns.items result.answers.items }
    ensures took { TookTurns plan.rank map.empty result.kept.bytes plan.turns.items result.answers.items }
{
    let Plan {
        rank,
        turns,
        mut answers,
        jobs,
        share,
        ..
    } = plan;
    let mut mine = Mine {
        own: OwnTurns::new(alloc, rank),
        jobs,
        share,
    };
    for turn in turns {
        let answer = take_turn(rt, alloc, desk, gate, &mut mine, turn);
        put(&mut answers, answer);
    }
    let Mine { own, share, .. } = mine;
    finished(answers, own.kept, share)
}

// The work that was done. It is a function of its own, since in a function with a loop the prover loses the promises of
// a struct's fields.
fn finished<L: Handed>(answers: Vec<Answered>, kept: KeptBytes, share: Share<L>) -> Work<L>
    requires one { share.parts ≡ 1 }
    requires counted { share.amount ≡ firsts answers.items }
    requires asked_for { ∥ AllByRecursion (IsAskedFor L.sent) (receipts_of answers.items) ∥₁ }
    ensures answers { result.answers ≡ answers }
    ensures kept { result.kept ≡ kept }
{
    Work {
        answers,
        kept,
        share,
    }
}

// Puts a result at the end of a list that has room for it.
fn put(answers: &mut Vec<Answered>, newest: Answered)
    requires { vec_len answers.old < vec_capacity answers.old }
    ensures items { answers.new.items ≡ answers.old.items ++ newest ∷ [] }
    ensures len { vec_len answers.new ≡ vec_len answers.old + 1 }
    ensures capacity { vec_capacity answers.old ≤ vec_capacity answers.new }
{
    let _ = answers.push(newest);
}

// Makes one turn.
#[tactic(auto, using(crate::proofs::OwnTurnLaws::keep_told))]
fn take_turn<S: Store + Drop, L: Handed, G: Gate, R: Wait>(
    rt: &R,
    alloc: Global,
    desk: &Mutex<Desk<S, L>>,
    gate: &G,
    mine: &mut Mine<L>,
    turn: Turn,
) -> Answered
    requires parts { mine.old.share.parts ≡ 1 }
    requires sent { ∥ AllByRecursion (Contains L.sent) (turn_arrival turn) ∥₁ }
    ensures parts { mine.new.share.parts ≡ 1 }
    ensures amount { mine.new.share.amount ≡ mine.old.share.amount + first_in result }
    ensures fits { FitsTurn turn result }
    ensures rank { mine.new.own.rank ≡ mine.old.own.rank }
    ensures took { TookTurn turn mine.old.own.rank mine.old.own.kept.bytes mine.new.own.kept.bytes result }
    ensures asked_for { ∥ AllByRecursion (IsAskedFor L.sent) (receipt_of result) ∥₁ }
{
    let rank = mine.own.rank;
    match turn {
        Turn::Step(event) => {
            let answer = lock(desk, rt).step(alloc, &mut mine.share, event);
            if let Ok(Answer::Reply { .. }) = &answer {
                gate.answered(rank);
            }
            answer
        }
        Turn::Commit { ino, frag } => {
            let leaf = Dirfrag {
                dir: ino,
                frag,
                rank,
            };
            match begin_commit(rt, alloc, desk, &mine.jobs, &leaf) {
                Ok(()) => Ok(Answer::Nothing),
                Err(refusal) => Err(refusal),
            }
        }
        Turn::Own => {
            // the lock is released before the gate is told
            let made = lock(desk, rt).own(alloc, &mut mine.own);
            match made {
                Ok(true) => {
                    gate.moved(rank);
                    Ok(Answer::Nothing)
                }
                Ok(false) => Ok(Answer::Nothing),
                Err(refusal) => Err(refusal),
            }
        }
        Turn::Keep { ino, frag, bytes } => match mine.own.keep(ino, frag, bytes) {
            Ok(()) => Ok(Answer::Nothing),
            Err(refusal) => Err(refusal),
        },
    }
}

// Begins a commit of a leaf at a rank, and hands its job to the workers.
fn begin_commit<S: Store + Drop, L: Handed, R: Wait>(
    rt: &R,
    alloc: Global,
    desk: &Mutex<Desk<S, L>>,
    jobs: &Sender<Job>,
    leaf: &Dirfrag,
) -> Result<(), Refusal>
    ensures { TookCommitTurn leaf.now.rank leaf.now.dir leaf.now.frag result }
{
    // the lock is released before the job is sent
    let begun = lock(desk, rt).begin(alloc, leaf.rank, leaf.dir, leaf.frag);
    match begun {
        Ok(Some(job)) => hand_on(rt, alloc, desk, jobs, job),
        Ok(None) => Ok(()),
        Err(refusal) => Err(refusal),
    }
}

// Hands a job to the workers. If that fails, its commit is given up.
fn hand_on<S: Store + Drop, L: Handed, R: Wait>(
    rt: &R,
    alloc: Global,
    desk: &Mutex<Desk<S, L>>,
    jobs: &Sender<Job>,
    job: Job,
) -> Result<(), Refusal>
    ensures { HandedOn (Ok (Some job)) result }
{
    let number = job.number;
    if jobs.send(rt, job).is_err() {
        lock(desk, rt).give_up(alloc, number);
        return Err(Refusal::NoMemory);
    }
    Ok(())
}
