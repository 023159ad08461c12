//! Serving the request at the front of a rank's inbox.
ghost use Rattle.std.specs.Prelude.{◌≡◌, ◌+◌, ◌++◌, ◌↔◌, ◌<◌, IsTrue, List, length};
ghost use Rattle.objstore.specs.Objects.{faults_told};
ghost use Rattle.std.specs.Result.{result_err};
ghost use Rattle.inboxes.specs.Inboxes.{waiting_at};
ghost use Rattle.inode_table.specs.Numbers.{offer};
ghost use Rattle.namespace_ops.specs.Changes.{IsOffered};
ghost use Rattle.mds_types.specs.declared.entries.Entry.{Entry as Applied};
ghost use Rattle.sessions.specs.Aside.{AreSetAside};
ghost use Rattle.sessions.specs.Table.{IsTableOf};
ghost use Rattle.dirfrag_codec.specs.EntryRecord.{IsRankNumber};
ghost use Rattle.cluster_core.specs.State.{cluster_of, held_roots, shown, supply_of};
ghost use Rattle.cluster_core.specs.Serve.{AtFront, ForwardsTo, Repeats};
ghost use Rattle.cluster_core.specs.Steps.{ServesRank};
ghost use Rattle.cluster_core.specs.Asked.{AreLocatedIn, IsAsked, IsNewTo};
ghost use Rattle.cluster_core.specs.Master.{AreMastersThere};
ghost use Rattle.cluster_core.specs.Uses.{UsesFront};
ghost use Rattle.ranked_tree.specs.Subtrees.{AreRoots, KeepsRoots};

use crate::answering::answer;
use crate::events::Answer;
use crate::masters::{correct_hint, locate_master};
use crate::parts::{Asked, Parts, Waiting};
use inboxes::Inboxes;
use mds_types::{Entry, Ino, Rank, Refusal, Reply};
use namespace_ops::{Checked, Places, check};
use objstore::Store;
use sessions::Seen;
use std::alloc::Global;

impl<S: Store + Drop> Parts<S> {
    /// Serves the request at the front of a rank's inbox, which stays there until nothing can fail any more. If it was
    /// applied before, its reply is given again. A new one is forwarded to its master; or it waits, if the rank may not
    /// change a leaf that it would change; or it is applied.
    #[inline(never)]
    pub(crate) fn serve_front(
        &mut self,
        alloc: Global,
        history: &mut Vec<Entry>,
        rank: Rank,
    ) -> Result<Answer, Refusal>
        requires known { (past : List Applied)
            × IsTableOf (past ++ history.old.items) (cluster_of self.old).state.sessions
            × AreSetAside past history.old.items (cluster_of self.old).state.sessions }
        requires offered { IsOffered (shown (cluster_of self.old).state) (λ n. IsRankNumber n)
            (offer (supply_of (cluster_of self.old).state rank)) }
        requires there { rank.0 < length (cluster_of self.old).state.numbers }
        requires masters { AreMastersThere (cluster_of self.old).state rank }
        requires valid { AreRoots (cluster_of self.old).state.tree (cluster_of self.old).state.roots }
        ensures served { (past : List Applied)
            → IsTableOf (past ++ history.old.items) (cluster_of self.old).state.sessions
            → AreSetAside past history.old.items (cluster_of self.old).state.sessions
            → ServesRank (cluster_of self.old) (cluster_of self.new) (past ++ history.old.items)
            (past ++ history.new.items) rank result }
        ensures uses { UsesFront (cluster_of self.old).state.tree (cluster_of self.new).state.tree
            (held_roots (cluster_of self.old).state) (cluster_of self.old).caches (cluster_of self.new).caches result
            (waiting_at (cluster_of self.old).state.inboxes rank) }
        ensures kept { KeepsRoots (cluster_of self.old).state.tree (cluster_of self.new).state.tree
            (cluster_of self.old).state.roots (cluster_of self.new).state.roots (cluster_of self.old).state.exports
            (cluster_of self.new).state.exports }
        ensures count { length (cluster_of self.new).caches.used ≡ length (cluster_of self.old).caches.used }
        ensures cap { (cluster_of self.new).caches.cap ≡ (cluster_of self.old).caches.cap }
        ensures counted { (cluster_of self.new).faults
            ≡ (cluster_of self.old).faults + faults_told (result_err result) }
    {
        let Some(request) = self.waiting.inboxes.front(rank) else {
            return Err(Refusal::InboxEmpty)
        };
        match self
            .given
            .sessions
            .seen(history, request.client, request.tid, request.oldest)
        {
            Seen::Trimmed => {
                self.waiting.end_front(rank);
                Err(Refusal::Trimmed)
            }
            Seen::Kept(place, reply) => answer_again(&mut self.waiting, rank, place, reply),
            Seen::New(session) => {
                let (places, master) = locate_master(&self.tree, rank, &request.op);
                if !is_same(master, rank) {
                    correct_hint(&mut self.tree, rank, &places);
                    return forward(&mut self.waiting.inboxes, rank, master);
                }
                let asked = Asked {
                    rank,
                    limit: self.tree.limit(),
                    supply: self.given.supply_of(rank),
                    session,
                };
                self.serve_new(alloc, history, &asked, places)
            }
        }
    }

    // Serves the new request at the front of its master's inbox, whose names are already located.
    fn serve_new(
        &mut self,
        alloc: Global,
        history: &mut Vec<Entry>,
        asked: &Asked,
        places: Places,
    ) -> Result<Answer, Refusal>
        requires asked { AtFront
            (λ request rest. IsAsked (cluster_of self.old).state self.old.given.sessions asked.now request)
            (waiting_at (cluster_of self.old).state.inboxes asked.now.rank) }
        requires is_new { (past : List Applied) × (length past ≡ (cluster_of self.old).state.sessions.forgotten)
            × AtFront (λ request rest. IsNewTo (past ++ history.old.items) request)
            (waiting_at (cluster_of self.old).state.inboxes asked.now.rank) }
        requires located { AtFront (λ request rest. AreLocatedIn (cluster_of self.old).state request.op places)
            (waiting_at (cluster_of self.old).state.inboxes asked.now.rank) }
        requires offered { IsOffered (shown (cluster_of self.old).state) (λ n. IsRankNumber n)
            (offer asked.now.supply) }
        requires there { asked.now.rank.0 < length (cluster_of self.old).state.numbers }
        requires valid { AreRoots (cluster_of self.old).state.tree (cluster_of self.old).state.roots }
        ensures served { (past : List Applied) → length past ≡ (cluster_of self.old).state.sessions.forgotten
            → AtFront (λ request rest. IsNewTo (past ++ history.old.items) request)
            (waiting_at (cluster_of self.old).state.inboxes asked.now.rank)
            → ServesRank (cluster_of self.old) (cluster_of self.new) (past ++ history.old.items)
            (past ++ history.new.items) asked.now.rank result }
        ensures uses { UsesFront (cluster_of self.old).state.tree (cluster_of self.new).state.tree
            (held_roots (cluster_of self.old).state) (cluster_of self.old).caches (cluster_of self.new).caches result
            (waiting_at (cluster_of self.old).state.inboxes asked.now.rank) }
        ensures kept { KeepsRoots (cluster_of self.old).state.tree (cluster_of self.new).state.tree
            (cluster_of self.old).state.roots (cluster_of self.new).state.roots (cluster_of self.old).state.exports
            (cluster_of self.new).state.exports }
        ensures count { length (cluster_of self.new).caches.used ≡ length (cluster_of self.old).caches.used }
        ensures cap { (cluster_of self.new).caches.cap ≡ (cluster_of self.old).caches.cap }
        ensures counted { (cluster_of self.new).faults
            ≡ (cluster_of self.old).faults + faults_told (result_err result) }
    {
        let Some(request) = self.waiting.inboxes.front(asked.rank) else {
            unreachable!()
        };
        let number = asked.supply.peek().unwrap_or(Ino(0));
        let checked = match check(
            alloc,
            &mut self.tree,
            asked.limit,
            &request.op,
            places,
            number,
        ) {
            Ok(checked) => checked,
            Err(refusal) => return Err(refusal),
        };
        if self.must_wait(asked.rank, &checked) {
            drop(checked);
            self.waiting.inboxes.rotate(asked.rank);
            return Ok(Answer::Deferred);
        }
        match checked {
            Checked::Answers(reply) => answer(
                alloc,
                &mut self.waiting,
                &mut self.given,
                history,
                asked,
                reply,
            ),
            Checked::Changes(change) => self.apply(alloc, history, asked, change),
        }
    }
}

// Gives the reply of the entry at this place again, to the request at the front of a rank's inbox, in which one waits.
#[inline(never)]
fn answer_again(
    waiting: &mut Waiting,
    rank: Rank,
    place: usize,
    reply: &Reply,
) -> Result<Answer, Refusal>
    requires waits { 0 < length (waiting_at waiting.old.inboxes rank) }
    ensures repeats { AtFront
        (Repeats waiting.old.inboxes waiting.new.inboxes waiting.old.pins waiting.new.pins rank place reply.now result)
        (waiting_at waiting.old.inboxes rank) }
    ensures counted { faults_told (result_err result) ≡ 0 }
{
    let Ok(reply) = reply.try_clone() else {
        return Err(Refusal::NoMemory)
    };
    let Some(request) = waiting.inboxes.take(rank) else {
        unreachable!()
    };
    let (client, tid) = (request.client, request.tid);
    drop(request);
    waiting.pins.end_pair(client, tid);
    Ok(Answer::Reply {
        client,
        tid,
        place,
        first: false,
        reply,
    })
}

// Forwards the request at the front of a rank's inbox, in which one waits, to the back of its master's inbox.
#[inline(never)]
fn forward(inboxes: &mut Inboxes, rank: Rank, master: Rank) -> Result<Answer, Refusal>
    requires waits { 0 < length (waiting_at inboxes.old rank) }
    requires master { master.0 < length inboxes.old }
    ensures forwards { AtFront (ForwardsTo inboxes.old inboxes.new rank master result)
        (waiting_at inboxes.old rank) }
    ensures counted { faults_told (result_err result) ≡ 0 }
{
    match inboxes.forward(rank, master) {
        Ok(()) => Ok(Answer::Forwarded(master)),
        Err(refusal) => Err(refusal),
    }
}

// Whether two ranks are the same.
fn is_same(one: Rank, other: Rank) -> bool
    ensures { IsTrue result ↔ (one ≡ other) }
{
    one == other
}
