//! Applying a request. All that may be refused is done first; then the tree is changed; then all that the cluster keeps
//! beside the tree.
ghost use Rattle.std.specs.Prelude.{◌≡◌, ◌<◌, ◌+◌, ◌++◌, Err, List, length, set, vec_len, vec_capacity, IfErr, IfOk, IsSome, OnOk};
ghost use Rattle.std.specs.Result.{result_err};
ghost use Rattle.objstore.specs.Objects.{faults_told};
ghost use Rattle.dirfrag_codec.specs.EntryRecord.{IsRankNumber};
ghost use Rattle.inboxes.specs.Inboxes.{waiting_at};
ghost use Rattle.inode_table.specs.Numbers.{offer};
ghost use Rattle.namespace_ops.specs.Changes.{IsOffered};
ghost use Rattle.sessions.specs.Rooms.{IsReady, IsSessionAt, table};
ghost use Rattle.ranked_tree.specs.Subtrees.{KeepsRoots};
ghost use Rattle.mds_types.specs.declared.entries.Entry.{Entry as Applied};
ghost use Rattle.cluster_core.specs.Asked.{IsNewTo, IsSessionOf, MayApply};
ghost use Rattle.cluster_core.specs.Offer.{after_taking};
ghost use Rattle.cluster_core.specs.Prepared.{IsPrepared, WhyUnprepared};
ghost use Rattle.cluster_core.specs.Serve.{AppliesRequest, AtFront, IsNoted, LeavesRefused, without_gone};
ghost use Rattle.cluster_core.specs.State.{cluster_of, held_roots, shown};
ghost use Rattle.cluster_core.specs.Steps.{TreeMayRefuse};
ghost use Rattle.cluster_core.specs.Uses.{UsesApplied};

use crate::answering::make_room;
use crate::events::Answer;
use crate::parts::{Asked, Given, Parts, Waiting};
use inboxes::Pins;
use inode_table::Numbers;
use mds_types::{Entry, Ino, Rank, Refusal, Reply, Request};
use namespace_ops::Change;
use objstore::Store;
use std::alloc::Global;

/// What the cluster keeps beside the tree after the change of a request.
#[derive(Debug, Drop)]
pub struct Prepared {
    /// The reply, for the history.
    reply: Reply,
    /// A copy of the reply, for the client.
    answer: Reply,
    /// The number that a new inode took.
    number: Option<Ino>,
    /// The rank's numbers afterwards.
    numbers: Numbers,
    /// The directory that the request removes.
    went: Option<Ino>,
}

impl<S: Store + Drop> Parts<S> {
    /// Applies the new request at the front of its master's inbox, which may change all leaves that it would change.
    /// Once there is memory for its entry in the history and for its reply, changes the tree and the subtree roots, and
    /// adds the entry.
    #[inline(never)]
    pub(crate) fn apply(
        &mut self,
        alloc: Global,
        history: &mut Vec<Entry>,
        asked: &Asked,
        change: Change,
    ) -> Result<Answer, Refusal>
        requires may { AtFront
            (λ request rest. MayApply (cluster_of self.old).state self.old.given.sessions asked.now change request)
            (waiting_at (cluster_of self.old).state.inboxes asked.now.rank) }
        requires offered { IsOffered (shown (cluster_of self.old).state) (λ n. IsRankNumber n)
            (offer asked.now.supply) }
        requires there { asked.now.rank.0 < length (cluster_of self.old).state.numbers }
        ensures applied { (past : List Applied) → length past ≡ (cluster_of self.old).state.sessions.forgotten → AtFront
            (λ request rest. IsNewTo (past ++ history.old.items) request → AppliesRequest (cluster_of self.old).state
            (cluster_of self.new).state (past ++ history.old.items) (past ++ history.new.items)
            (TreeMayRefuse (cluster_of self.old) (cluster_of self.new)) asked.now.rank result request rest)
            (waiting_at (cluster_of self.old).state.inboxes asked.now.rank) }
        ensures uses { AtFront
            (λ request rest. UsesApplied (cluster_of self.old).state.tree (cluster_of self.new).state.tree
            (held_roots (cluster_of self.old).state) request.op (cluster_of self.old).caches
            (cluster_of self.new).caches result) (waiting_at (cluster_of self.old).state.inboxes asked.now.rank) }
        ensures kept { KeepsRoots (cluster_of self.old).state.tree (cluster_of self.new).state.tree
            (cluster_of self.old).state.roots (cluster_of self.new).state.roots (cluster_of self.old).state.exports
            (cluster_of self.new).state.exports }
        ensures count { length (cluster_of self.new).caches.used ≡ length (cluster_of self.old).caches.used }
        ensures cap { (cluster_of self.new).caches.cap ≡ (cluster_of self.old).caches.cap }
        ensures counted { (cluster_of self.new).faults
            ≡ (cluster_of self.old).faults + faults_told (result_err result) }
    {
        self.tree.is_sound();
        let prepared = match prepare(alloc, &mut self.given, history, asked, &change) {
            Ok(prepared) => prepared,
            Err(refusal) => {
                drop(change);
                return refuse(&mut self.waiting, asked.rank, refusal);
            }
        };
        match self.tree.make_change(change) {
            Ok(()) => Ok(commit(&mut self.waiting, &mut self.given, history, asked, prepared)),
            Err(refusal) => {
                drop(prepared);
                refuse(&mut self.waiting, asked.rank, refusal)
            }
        }
    }
}

// Refuses the request at the front of a rank's inbox. If there is no number for it, it leaves; otherwise it still
// waits.
#[inline(never)]
fn refuse(waiting: &mut Waiting, rank: Rank, refusal: Refusal) -> Result<Answer, Refusal>
    requires waits { 0 < length (waiting_at waiting.old.inboxes rank) }
    ensures leaves { AtFront
        (LeavesRefused waiting.old.inboxes waiting.new.inboxes waiting.old.pins waiting.new.pins rank refusal)
        (waiting_at waiting.old.inboxes rank) }
    ensures refused { result ≡ Err refusal }
{
    match refusal {
        Refusal::NoInodes => {
            waiting.end_front(rank);
            Err(Refusal::NoInodes)
        }
        other => Err(other),
    }
}

// Prepares what the cluster keeps beside the tree after this change of a request, and reserves room for its entry in
// the history and for its reply in the sessions.
fn prepare(
    alloc: Global,
    given: &mut Given,
    history: &mut Vec<Entry>,
    asked: &Asked,
    change: &Change,
) -> Result<Prepared, Refusal>
    requires { IsSessionAt given.old.sessions asked.now.session }
    ensures prepared { IfOk result (IsPrepared change.now asked.now.supply) }
    ensures room { OnOk result (vec_len history.new < vec_capacity history.new) }
    ensures reserved { OnOk result (IsReady given.new.sessions asked.now.session.client) }
    ensures session { IsSessionAt given.new.sessions asked.now.session }
    ensures numbers { given.new.numbers.items ≡ given.old.numbers.items }
    ensures past { history.new.items ≡ history.old.items }
    ensures known { table given.new.sessions ≡ table given.old.sessions }
    ensures refused { IfErr result (WhyUnprepared change.now (offer asked.now.supply)) }
{
    if make_room(alloc, given, history, &asked.session).is_err() {
        return Err(Refusal::NoMemory);
    }
    let number = match change.number(asked.supply.peek()) {
        Ok(number) => number,
        Err(refusal) => return Err(refusal),
    };
    // written out here, since each call that a reply is moved through copies it
    let Ok(reply) = change.reply() else {
        return Err(Refusal::NoMemory);
    };
    let Ok(answer) = reply.try_clone() else {
        drop(reply);
        return Err(Refusal::NoMemory);
    };
    let numbers = supply_after(asked.supply, number);
    Ok(Prepared {
        reply,
        answer,
        number,
        numbers,
        went: change.gone,
    })
}

// Notes that the request at the front of its master's inbox was applied. It can't fail.
#[inline(always)]
fn commit(
    waiting: &mut Waiting,
    given: &mut Given,
    history: &mut Vec<Entry>,
    asked: &Asked,
    prepared: Prepared,
) -> Answer
    requires session { AtFront
        (λ request rest. IsSessionOf given.old.sessions request.client asked.now.session)
        (waiting_at waiting.old.inboxes asked.now.rank) }
    requires room { vec_len history.old < vec_capacity history.old }
    requires reserved { IsReady given.old.sessions asked.now.session.client }
    requires there { asked.now.rank.0 < length given.old.numbers.items }
    ensures noted { AtFront
        (λ request rest. IsNoted waiting.old.inboxes waiting.new.inboxes waiting.old.pins waiting.new.pins
        (table given.old.sessions) (table given.new.sessions)
        ((table given.old.sessions).forgotten + length history.old.items) history.old.items history.new.items asked.now.rank
        prepared.number prepared.went prepared.reply prepared.answer request rest result)
        (waiting_at waiting.old.inboxes asked.now.rank) }
    ensures drawn { given.new.numbers.items ≡ set given.old.numbers.items asked.now.rank.0 prepared.numbers }
{
    let Some(request) = waiting.inboxes.take(asked.rank) else {
        unreachable!()
    };
    let place = given.sessions.forgotten() + history.len();
    let Request {
        client,
        tid,
        oldest,
        op,
    } = request;
    let Prepared {
        reply,
        answer,
        number,
        numbers,
        went,
    } = prepared;
    waiting.pins.end_pair(client, tid);
    forget_gone(&mut waiting.pins, went);
    given.numbers[usize::from(asked.rank.0)] = numbers;
    let session = given.sessions.keep(asked.session, tid, oldest, place);
    given.sessions.trim(session);
    history.push_reserved(Entry {
        client,
        tid,
        oldest,
        op,
        number,
        reply,
    });
    Answer::Reply {
        client,
        tid,
        place,
        first: true,
        reply: answer,
    }
}

// Ends the grants on the fragments of the directory that was removed, if one was.
fn forget_gone(pins: &mut Pins, went: Option<Ino>)
    ensures { pins.new ≡ without_gone pins.old went }
{
    if let Some(dir) = went {
        pins.forget_directory(dir);
    }
}

// The rank's numbers after an operation that took this number, if it took one.
fn supply_after(numbers: Numbers, number: Option<Ino>) -> Numbers
    requires { IsSome number → IsSome (offer numbers) }
    ensures { result ≡ after_taking numbers number }
{
    let mut left = numbers;
    if number.is_some() {
        let _ = left.draw();
    }
    left
}
