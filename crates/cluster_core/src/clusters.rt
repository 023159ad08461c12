//! The cluster and its events.
ghost use Rattle.std.specs.Prelude.{◌≡◌, ◌+◌, ◌≤◌, ◌++◌, [], List, length, nat_lt, replicate, Ok, Err, IfOk, IfErr, OnOk};
ghost use Rattle.objstore.specs.Objects.{faults_in, faults_told};
ghost use Rattle.std.specs.Result.{result_err};
ghost use Rattle.std.specs.FinMap as map;
ghost use Rattle.mds_types.specs.declared.entries.Entry.{Entry as Applied};
ghost use Rattle.cluster_core.specs.Opening.{Opening};
ghost use Rattle.sessions.specs.Rooms.{table};
ghost use Rattle.sessions.specs.Table.{no_table};
ghost use Rattle.mdcache.specs.New.{MayNotFormat, new_caches};
ghost use Rattle.cluster_core.specs.State.{new_state, whole_supplies};
ghost use Rattle.cluster_core.specs.Steps.{ArrivesAt, AtRank, TreeMayRefuse, ServesRank, Steps};
ghost use Rattle.cluster_core.specs.Uses.{UsesStep};
ghost use Rattle.cluster_core.specs.declared.events.Event.TheVariants.{Serve as ServeEvent, Grant as GrantEvent};
ghost use Rattle.cluster_core.specs.Grants.{GrantsWaiting};
ghost use Rattle.ranked_tree.specs.Subtrees.{AreRoots, KeepsRoots};
ghost use Rattle.cluster_core.specs.Sound.{AreCached, IsSoundBehind, IsSoundWith};
ghost use Rattle.cluster_core.specs.Administers.{ListsLeaves, TellsAuthority};
ghost use Rattle.cluster_core.specs.Exporting.{TellsSentBytes};

use crate::events::{Answer, Event};
use crate::parts::{Given, Parts, Waiting};
use inode_table::Numbers;
use keeping::{Keep, RowEdit, Unkept};
use mds_types::{Bytes, Entry, Frag, Ino, Limit, Rank, Refusal, Request};
use namespace_ops::Frags;
use objstore::Store;
use ranked_tree::RankedTree;
use std::alloc::{AllocError, Global};
use std::marker::Model;
use std::snapshot::Snapshot;
use subtree_map::Subtrees;

/// A cluster of metadata server ranks that serve one tree over a store.
#[derive(Drop)]
pub struct Cluster<S: Store + Drop> {
    pub(crate) parts: Parts<S>,
}

impl<S: Store + Drop> Model for Cluster<S> {
    ghost use Rattle.std.specs.Coded.{codes};
    ghost use Rattle.std.specs.FinMap as map;
    ghost use Rattle.cluster_core.specs.State.{Core, cluster_of};

    ghost Value = { Core };

    ghost coded = { Prim.hlevel (codes, map.code) };

    ghost view = { λ c. cluster_of c.parts };
}

impl<S: Store + Drop> Cluster<S> {
    /// A cluster of so many ranks that serves the empty tree over a store that has no object. Each rank's cache has so
    /// many places, and a directory may have `limit` entries. The authority of the root directory's leaf is rank 0.
    ///
    /// Refused `NotClean` exactly where the store has objects, unless the store fails to list them. Otherwise refused
    /// if the store or memory refuses. Then the store is returned, with its objects as they were.
    pub(crate) fn format(
        alloc: Global,
        store: S,
        ranks: u8,
        places: usize,
        limit: Limit,
    ) -> Result<Cluster<S>, (Refusal, S)>
        requires some { 1 ≤ ranks }
        requires ranked { ranks ≤ 16 }
        requires few { 512 ≤ places }
        requires many { places ≤ 65536 }
        ensures empty { OnOk result (S.objects store ≡ map.empty) }
        ensures state { IfOk result (λ c. c.state ≡ new_state ranks limit) }
        ensures caches { IfOk result (λ c. c.caches ≡ new_caches ranks places) }
        ensures kept { IfOk result (λ c. IsSoundWith c.state.tree c.caches) }
        ensures cached { IfOk result AreCached }
        ensures refused { IfErr result
            (λ back. MayNotFormat (S.objects store) (S.faults store) (S.faults back.1) back.0) }
        ensures left { IfErr result (λ back. S.objects back.1 ≡ S.objects store) }
        ensures faults { IfOk result (λ c. c.faults ≡ S.faults store) }
        ensures counted { IfErr result (λ back. S.faults back.1 ≡ S.faults store + faults_in back.0) }
    {
        match beside_tree(alloc, ranks) {
            Err(_) => Err((Refusal::NoMemory, store)),
            Ok(beside) => match RankedTree::format(alloc, store, ranks, places, limit) {
                Err(back) => Err(back),
                Ok(tree) => {
                    tree.is_sound();
                    let Beside { waiting, given } = beside;
                    let parts = Parts {
                        tree,
                        waiting,
                        given,
                    };
                    Ok(Cluster { parts })
                }
            },
        }
    }

    /// Makes one atomic step, for one event. The history has the entries that aren't forgotten. From each opening tree
    /// and past that cluster and history went on from, they go on afterwards.
    #[inline(always)]
    pub fn step(
        &mut self,
        alloc: Global,
        history: &mut Vec<Entry>,
        event: Event,
    ) -> Result<Answer, Refusal>
        requires { (opening : Opening) × (past : List Applied) × IsSoundBehind opening past history.old.items self.old }
        ensures stepped { (opening : Opening) (past : List Applied) → IsSoundBehind opening past history.old.items self.old
            → Steps self.old self.new (past ++ history.old.items) (past ++ history.new.items) result event }
        ensures uses { UsesStep self.old self.new result event }
        ensures sound { (opening : Opening) (past : List Applied) → IsSoundBehind opening past history.old.items self.old
            → IsSoundBehind opening past history.new.items self.new }
    {
        let answer = self.choose(alloc, history, event);
        self.parts.tree.is_sound();
        answer
    }

    // Calls the function of an event. It is inlined into callers that know which event it is, so that no event is
    // moved. Rare events have functions of their own, each with its own frame.
    #[inline(always)]
    fn choose(
        &mut self,
        alloc: Global,
        history: &mut Vec<Entry>,
        event: Event,
    ) -> Result<Answer, Refusal>
        requires { (opening : Opening) × (past : List Applied) × IsSoundBehind opening past history.old.items self.old }
        ensures stepped { (opening : Opening) (past : List Applied) → IsSoundBehind opening past history.old.items self.old
            → Steps self.old self.new (past ++ history.old.items) (past ++ history.new.items) result event }
        ensures uses { UsesStep self.old self.new result event }
        ensures valid { AreRoots self.new.state.tree self.new.state.roots }
    {
        match event {
            Event::Arrive { rank, request } => self.arrive(rank, request),
            Event::Serve { rank } => self.serve(alloc, history, rank),
            Event::Grant { rank, client, tid } => self.grant(alloc, rank, client, tid),
            Event::Split {
                rank,
                ino,
                frag,
                bits,
            } => self.split(alloc, rank, ino, frag, bits),
            Event::Merge { rank, ino, frag } => self.merge(alloc, rank, ino, frag),
            Event::CommitBegin { rank, ino, frag } => self.begin_commit(rank, ino, frag),
            Event::CommitEnd(encoded) => {
                let ended = self.end_commit(alloc, &encoded);
                drop(encoded);
                ended
            }
            Event::CommitDrop { job } => self.drop_commit(job),
            Event::CommitTree { ino } => self.commit_tree(alloc, ino),
            Event::Purge => self.purge(),
            Event::Evict { rank } => self.evict(rank),
            Event::Start {
                from,
                ino,
                frag,
                to,
            } => self.start(from, ino, frag, to),
            Event::Freeze { ino, frag } => self.freeze(ino, frag),
            Event::Prep { ino, frag } => self.prep(alloc, ino, frag),
            Event::Send { ino, frag } => self.send(alloc, ino, frag),
            Event::Import { ino, frag, bytes } => {
                let imported = self.import(alloc, ino, frag, bytes.as_slice());
                drop(bytes);
                imported
            }
            Event::Finish { ino, frag } => self.finish(ino, frag),
            Event::Cancel { ino, frag } => self.cancel(ino, frag),
        }
    }

    // A request arrives, and waits at the back of the rank's inbox.
    #[inline(always)]
    fn arrive(&mut self, rank: Rank, request: Request) -> Result<Answer, Refusal>
        ensures arrived { (past : List Applied) → AtRank self.old self.new past past rank result
            (ArrivesAt self.old.state self.new.state past past rank request result) }
        ensures tree { self.new.state.tree ≡ self.old.state.tree }
        ensures roots { self.new.state.roots ≡ self.old.state.roots }
        ensures exports { self.new.state.exports ≡ self.old.state.exports }
        ensures caches { self.new.caches ≡ self.old.caches }
        ensures faults { self.new.faults ≡ self.old.faults }
        ensures counted { self.new.faults ≡ self.old.faults + faults_told (result_err result) }
    {
        if !self.is_rank(rank) {
            drop(request);
            return Err(Refusal::NotAuthority);
        }
        if let Err(refusal) = self.parts.waiting.inboxes.arrive(rank, request) {
            return Err(refusal);
        }
        Ok(Answer::Nothing)
    }

    // A rank serves the request at the front of its inbox.
    fn serve(
        &mut self,
        alloc: Global,
        history: &mut Vec<Entry>,
        rank: Rank,
    ) -> Result<Answer, Refusal>
        requires { (opening : Opening) × (past : List Applied) × IsSoundBehind opening past history.old.items self.old }
        ensures served { (opening : Opening) (past : List Applied) → IsSoundBehind opening past history.old.items self.old
            → AtRank self.old self.new (past ++ history.old.items) (past ++ history.new.items) rank result
            (ServesRank self.old self.new (past ++ history.old.items) (past ++ history.new.items) rank result) }
        ensures uses { UsesStep self.old self.new result (ServeEvent rank) }
        ensures kept { KeepsRoots self.old.state.tree self.new.state.tree self.old.state.roots self.new.state.roots
            self.old.state.exports self.new.state.exports }
        ensures count { length self.new.caches.used ≡ length self.old.caches.used }
        ensures cap { self.new.caches.cap ≡ self.old.caches.cap }
        ensures counted { self.new.faults ≡ self.old.faults + faults_told (result_err result) }
    {
        if !self.is_rank(rank) {
            return Err(Refusal::NotAuthority);
        }
        self.parts.serve_front(alloc, history, rank)
    }

    // A rank grants a waiting request those of the rank's leaves that it would change.
    #[inline(never)]
    fn grant(&mut self, alloc: Global, rank: Rank, client: u64, tid: u64) -> Result<Answer, Refusal>
        ensures granted { (past : List Applied) → AtRank self.old self.new past past rank result
            (GrantsWaiting self.old.state self.new.state past past (TreeMayRefuse self.old self.new) rank client tid
            result) }
        ensures uses { UsesStep self.old self.new result (GrantEvent rank client tid) }
        ensures tree { self.new.state.tree ≡ self.old.state.tree }
        ensures roots { self.new.state.roots ≡ self.old.state.roots }
        ensures exports { self.new.state.exports ≡ self.old.state.exports }
        ensures count { length self.new.caches.used ≡ length self.old.caches.used }
        ensures cap { self.new.caches.cap ≡ self.old.caches.cap }
        ensures counted { self.new.faults ≡ self.old.faults + faults_told (result_err result) }
    {
        if !self.is_rank(rank) {
            return Err(Refusal::NotAuthority);
        }
        self.parts.grant_first(alloc, rank, client, tid)
    }

    /// The store.
    pub fn store(&self) -> &S
        ensures objects { S.objects result.now ≡ self.now.state.tree.objects }
        ensures faults { S.faults result.now ≡ self.now.faults }
    {
        self.parts.tree.store()
    }

    /// The leaves of a directory in order. Refused `NoSuchFrag` if there is no such directory, or if memory is refused.
    pub fn leaves(&self, alloc: Global, ino: Ino) -> Result<Vec<Frag>, Refusal>
        ensures listed { IfOk result (λ leaves. ListsLeaves self.now.state ino (Ok leaves.items)) }
        ensures err { IfErr result (λ reason. ListsLeaves self.now.state ino (Err reason)) }
    {
        if !self.parts.tree.is_dir(ino) {
            return Err(Refusal::NoSuchFrag);
        }
        self.parts.tree.leaves(alloc, ino)
    }

    /// The authority of a leaf of a directory. Refused `NoSuchFrag` exactly where there is no such directory or leaf.
    /// Takes no memory.
    pub fn authority(&self, ino: Ino, frag: Frag) -> Result<Rank, Refusal>
        ensures { TellsAuthority self.now.state (ino, frag) result }
    {
        match self.parts.tree.authority(ino, frag) {
            Some(rank) => Ok(rank),
            None => Err(Refusal::NoSuchFrag),
        }
    }

    /// The bytes of a sent export, spelled again from its region as it is now. An Import takes them if the bytes of the
    /// Send are lost. Refused `WrongExportState` exactly where no export of this root is sent, `TooManyFrags` if a Send
    /// of the region would be refused so, which means that none was made, and if memory is refused.
    pub fn sent_bytes(&self, alloc: Global, ino: Ino, frag: Frag) -> Result<Bytes, Refusal>
        ensures { TellsSentBytes self.now.state (ino, frag) result }
    {
        self.parts.tree.sent_bytes(alloc, ino, frag)
    }

    /// The subtree roots with their ranks.
    pub fn roots(&self) -> &Subtrees
        ensures { result.now.roots ≡ self.now.state.roots }
    {
        self.parts.tree.roots()
    }

    /// Makes each rank's hint on each subtree root of another rank name this rank, right or wrong. No answer depends on
    /// hints. Takes no memory.
    pub fn set_hints(&mut self, rank: Rank)
        ensures { self.new ≡ self.old }
    {
        self.parts.tree.set_hints(rank);
    }

    // Whether a rank is one of the cluster's.
    pub(crate) fn is_rank(&self, rank: Rank) -> bool
        ensures { result ≡ nat_lt rank.0 (length self.now.state.inboxes) }
    {
        usize::from(rank.0) < self.parts.waiting.inboxes.ranks()
    }
}

impl<S: Keep + Drop> Cluster<S> {
    /// Keeps the content of the store so that it outlives the process, and makes edits of the rows that the store keeps
    /// beside its objects. The results are the store before and after, for contracts alone. Whatever it returns, the
    /// cluster is unchanged.
    pub(crate) fn keep(&mut self, edits: &[RowEdit]) -> Result<(Snapshot<S>, Snapshot<S>), Unkept>
        ensures same { self.new ≡ self.old }
        ensures taken { IfOk result (λ s. S.Takes s.0.value edits.now s.1.value) }
        ensures objects { IfOk result (λ s. S.objects s.1.value ≡ self.old.state.tree.objects) }
        ensures failed { IfErr result (λ _. S.may_fail) }
    {
        self.parts.tree.keep(edits)
    }

    /// Gathers all that was kept in one place, at the end of a run. Whatever it returns, the cluster is unchanged.
    pub fn settle(&mut self) -> Result<(), Unkept>
        ensures same { self.new ≡ self.old }
        ensures failed { IfErr result (λ _. S.may_fail) }
    {
        self.parts.tree.settle()
    }
}

// What a cluster has beside its tree.
#[derive(Drop)]
struct Beside {
    waiting: Waiting,
    given: Given,
}

// What a new cluster has beside its tree: nothing waits, nothing was given, and each of so many ranks has an inbox and
// all its numbers.
fn beside_tree(alloc: Global, ranks: u8) -> Result<Beside, AllocError>
    requires { ranks ≤ 16 }
    ensures inboxes { IfOk result (λ beside. beside.waiting.inboxes ≡ replicate ranks []) }
    ensures pins { IfOk result (λ beside. beside.waiting.pins ≡ []) }
    ensures numbers { IfOk result (λ beside. beside.given.numbers.items ≡ whole_supplies 0 ranks) }
    ensures sessions { IfOk result (λ beside. table beside.given.sessions ≡ no_table) }
{
    Ok(Beside {
        waiting: Waiting::new(alloc, ranks)?,
        given: Given::of(alloc, whole_supplies(alloc, ranks)?),
    })
}

// All numbers of each of so many ranks.
fn whole_supplies(alloc: Global, ranks: u8) -> Result<Vec<Numbers>, AllocError>
    requires { ranks ≤ 16 }
    ensures { IfOk result (λ numbers. numbers.items ≡ whole_supplies 0 ranks) }
{
    let mut numbers = Vec::new(alloc);
    for rank in 0..ranks {
        numbers.push(Numbers::from(Rank(rank), Numbers::first_of(Rank(rank)).0))?;
    }
    Ok(numbers)
}
