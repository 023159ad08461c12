//! The book: a cluster with the history of what it answered.
ghost use Rattle.std.specs.Prelude.{◌≡◌, ◌+◌, ◌≤◌, ◌++◌, [], Some, option_copied, Contains, IfOk, IfErr, OnOk};
ghost use Rattle.std.specs.List.{AllByRecursion};
ghost use Rattle.cluster_core.specs.Opening.{fresh, after_from};
ghost use Rattle.std.specs.FinMap as map;
ghost use Rattle.objstore.specs.Objects.{faults_in};
ghost use Rattle.mdcache.specs.New.{MayNotFormat, new_caches};
ghost use Rattle.cluster_core.specs.Fragments.{LieAtHolder};
ghost use Rattle.cluster_core.specs.OneThread.{InOrder, IsOneThread, arrival, receipt_of, waiting_in};
ghost use Rattle.cluster_core.specs.State.{new_state, places_of, shown};
ghost use Rattle.cluster_core.specs.Steps.{Steps};
ghost use Rattle.cluster_core.specs.Sound.{GoesOnBehind, IsSoundKept, OfWhole, StandsBehind};
ghost use Rattle.cluster_core.specs.Uses.{UsesStep};

use crate::clusters::Cluster;
use crate::events::{Answer, Event};
use crate::plain_trees::PlainTree;
use crate::settled::{Settled, keep_settled, may_unsettle};
use mds_types::{Entry, Limit, Rank, Refusal};
use objstore::Store;
use std::alloc::Global;
use std::marker::Model;

/// A cluster, the history of what it answered, and the tree that it opened with. A beginning of the history may be
/// forgotten; then the opening tree is forgotten too. For every book the whole history, forgotten or not, is legal from
/// the opening tree. The shown tree is the tree after it: the objects of the store, overlaid with all that isn't clean.
#[derive(Drop)]
pub struct Book<S: Store + Drop> {
    pub(crate) cluster: Cluster<S>,
    /// The entries that aren't forgotten.
    pub(crate) history: Vec<Entry>,
    /// The tree that the book opened with, if it is still kept.
    pub(crate) opening: Option<PlainTree>,
    /// The ranks of which it is known that none of their subtrees is pinned to another rank.
    pub(crate) settled: Settled,
}

impl<S: Store + Drop> Model for Book<S> {
    ghost use Rattle.std.specs.Coded.{codes};
    ghost use Rattle.std.specs.FinMap as map;
    ghost use Rattle.cluster_core.specs.State.{KeptState};
    ghost use Rattle.cluster_core.specs.Settled.{IsSettledBook};

    ghost Value = { KeptState };

    ghost coded = { Prim.hlevel (codes, map.code) };

    ghost view = { λ b. record { opening = b.opening; history = b.history.items; core = b.cluster } };

    ghost invariant = { λ b. IsSettledBook
        (record { opening = b.opening; history = b.history.items; core = b.cluster }) b.settled.ranks.items };
}

impl<S: Store + Drop> Book<S> {
    /// Tells the law of every book: the whole history is legal from some opening tree, and the shown tree is the tree
    /// after it.
    pub fn is_sound(&self)
        ensures { IsSoundKept self.now }
    {
        let _ = &self.history;
    }

    /// The history so far, without its forgotten beginning. The first entry has the place `places() - history().len()`.
    pub fn history(&self) -> &[Entry]
        ensures history { result.now ≡ self.now.history }
        ensures sound { IsSoundKept self.now }
    {
        self.history.as_slice()
    }

    /// The tree that the book opened with. None once it is no longer kept, as after `forget` and `drop_opening`.
    pub fn opening(&self) -> Option<&PlainTree>
        ensures { option_copied result ≡ self.now.opening }
    {
        self.opening.as_ref()
    }

    /// The cluster. The contract also tells that a rank caches only fragments that it holds, and that a fragment which
    /// isn't clean is in the cache of its holder.
    pub fn cluster(&self) -> &Cluster<S>
        ensures cluster { result.now ≡ self.now.core }
        ensures lie { LieAtHolder self.now.core }
    {
        &self.cluster
    }

    /// Makes one atomic step, for one event, and returns its answer or its refusal. The opening tree stays. The history
    /// grows by one entry if a request is applied. The whole history holds each reply that is handed out, at a place
    /// that is counted from the first entry ever. All that is said of the whole history holds for each opening tree and
    /// past that the book goes on from.
    ///
    /// The first part of the contract is for whoever sends requests: one plain tree, served by one thread. The second
    /// part tells that the fragments, caches and objects of all ranks together mean that tree. The third tells what
    /// each event does to the state, the last how it uses the caches.
    #[inline(always)]
    pub fn step(&mut self, alloc: Global, event: Event) -> Result<Answer, Refusal>
        ensures one_thread { OfWhole self.old self.new (λ old new. IsOneThread old.core.state.tree.limit old.opening
            old.history new.history (waiting_in old.core.state.inboxes ++ arrival event) (receipt_of result)) }
        ensures in_order { InOrder (places_of self.old) (receipt_of result) (places_of self.new) }
        ensures waits { AllByRecursion (Contains (waiting_in self.old.core.state.inboxes ++ arrival event))
            (waiting_in self.new.core.state.inboxes) }
        ensures shows { OfWhole self.old self.new (λ old new. shown new.core.state ≡ after_from
            old.core.state.tree.limit old.opening new.history) }
        ensures stepped { OfWhole self.old self.new (λ old new. Steps old.core new.core old.history new.history result
            event) }
        ensures uses { UsesStep self.old.core self.new.core result event }
        ensures goes_on { GoesOnBehind self.old self.new }
        ensures opening { self.new.opening ≡ self.old.opening }
        ensures limit { self.new.core.state.tree.limit ≡ self.old.core.state.tree.limit }
        ensures sound { IsSoundKept self.new }
    {
        let past = self.history.len();
        let may = may_unsettle(&event);
        let answer = self.cluster.step(alloc, &mut self.history, event);
        keep_settled(&mut self.settled, may, self.history.as_slice(), past);
        answer
    }

    /// Makes each rank's hint on each subtree root of another rank name this rank, right or wrong. No answer depends on
    /// hints. Takes no memory.
    pub fn set_hints(&mut self, rank: Rank)
        ensures { self.new ≡ self.old }
    {
        self.cluster.set_hints(rank);
    }
}

/// A book of so many ranks over a store that has no object: the tree and the history are empty, and nothing waits. The
/// authority of the root directory's leaf is rank 0. `cache` is the number of fragments that a rank may cache; the
/// root's `*` is cached at rank 0, though it has no object. `limit` is the number of entries that a directory may have.
/// Takes memory.
///
/// Refused `NotClean` exactly where the store has objects, unless the store fails to list them. Otherwise refused if
/// the store or memory refuses. Then the store is returned, with its objects as they were.
pub fn format<S: Store + Drop>(
    alloc: Global,
    store: S,
    ranks: u8,
    cache: u32,
    limit: Limit,
) -> Result<Book<S>, (Refusal, S)>
    requires some { 1 ≤ ranks }
    requires ranked { ranks ≤ 16 }
    requires least { 512 ≤ cache }
    requires most { cache ≤ 65536 }
    ensures empty { OnOk result (S.objects store ≡ map.empty) }
    ensures opening { IfOk result (λ book. book.opening ≡ Some map.empty) }
    ensures history { IfOk result (λ book. book.history ≡ []) }
    ensures goes_on { IfOk result (StandsBehind (fresh map.empty) []) }
    ensures state { IfOk result (λ book. book.core.state ≡ new_state ranks limit) }
    ensures caches { IfOk result (λ book. book.core.caches ≡ new_caches ranks cache) }
    ensures refused { IfErr result (λ back. MayNotFormat (S.objects store) (S.faults store) (S.faults back.1) back.0) }
    ensures left { IfErr result (λ back. S.objects back.1 ≡ S.objects store) }
    ensures sound { IfOk result IsSoundKept }
    ensures faults { IfOk result (λ book. book.core.faults ≡ S.faults store) }
    ensures counted { IfErr result (λ back. S.faults back.1 ≡ S.faults store + faults_in back.0) }
{
    match Cluster::format(alloc, store, ranks, cache as usize, limit) {
        Ok(cluster) => Ok(Book {
            cluster,
            history: Vec::new(alloc),
            opening: Some(PlainTree::new(alloc)),
            settled: Settled::new(alloc),
        }),
        Err(back) => Err(back),
    }
}
