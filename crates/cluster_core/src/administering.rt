//! The administrator's steps. Clients see nothing of what they change.
ghost use Rattle.std.specs.Prelude.{◌≡◌, ◌+◌, List, length};
ghost use Rattle.objstore.specs.Objects.{faults_told};
ghost use Rattle.std.specs.Result.{result_err};
ghost use Rattle.mds_types.specs.declared.entries.Entry.{Entry as Applied};
ghost use Rattle.inboxes.specs.Inboxes.{Inboxes as Waiting};
ghost use Rattle.inboxes.specs.declared.pins.Pin.{Pin as Granted};
ghost use Rattle.inode_table.specs.Numbers.{Supply};
ghost use Rattle.mdcache.specs.Core.{state_of as tree_state};
ghost use Rattle.sessions.specs.Table.{Table};
ghost use Rattle.cluster_core.specs.State.{core_of};
ghost use Rattle.ranked_tree.specs.Ranked.{held_roots};
ghost use Rattle.ranked_tree.specs.Subtrees.{AllHave, AreRoots, KeepsRoots, Rules};
ghost use Rattle.cluster_core.specs.Administers.{BeginsCommit, CommitsTree, DropsCommit, EndsCommit, EvictsFragment, Merges, PurgesObject, Splits, told_job};
ghost use Rattle.cluster_core.specs.Steps.{AtRank};
ghost use Rattle.cluster_core.specs.Uses.{UsesStep};
ghost use Rattle.cluster_core.specs.declared.events.Event.TheVariants.{Split as SplitEvent, Merge as MergeEvent, CommitBegin as CommitBeginEvent, CommitEnd as CommitEndEvent, Evict as EvictEvent};
ghost use Rattle.ranked_tree.specs.Held.{CameAt, IsFamilyOf, IsMergedHere, UsesAt};

use crate::clusters::Cluster;
use crate::events::Answer;
use crate::pinned::is_any_pinned;
use cached_frag::{Encoded, Job};
use inboxes::Pins;
use mds_types::{Dirfrag, Frag, Ino, Rank, Refusal};
use objstore::Store;
use ranked_tree::RankedTree;
use std::alloc::Global;

impl<S: Store + Drop> Cluster<S> {
    // Splits a leaf of a directory.
    #[inline(never)]
    pub(crate) fn split(
        &mut self,
        alloc: Global,
        rank: Rank,
        ino: Ino,
        frag: Frag,
        bits: u8,
    ) -> Result<Answer, Refusal>
        requires { AreRoots self.old.state.tree self.old.state.roots }
        ensures split { (past : List Applied) → AtRank self.old self.new past past rank result
            (Splits self.old self.new past past rank ino frag bits result) }
        ensures uses { UsesStep self.old self.new result (SplitEvent rank ino frag bits) }
        ensures kept { KeepsRoots self.old.state.tree self.new.state.tree self.old.state.roots self.new.state.roots
            self.old.state.exports self.new.state.exports }
        ensures count { length self.new.caches.used ≡ length self.old.caches.used }
        ensures cap { self.new.caches.cap ≡ self.old.caches.cap }
        ensures counted { self.new.faults ≡ self.old.faults + faults_told (result_err result) }
    {
        if !self.is_rank(rank) {
            return Err(Refusal::NotAuthority);
        }
        let asked = Dirfrag {
            dir: ino,
            frag,
            rank,
        };
        split_at(
            alloc,
            &mut self.parts.tree,
            &self.parts.waiting.pins,
            &asked,
            bits,
        )
    }

    // Merges leaves of a directory.
    #[inline(never)]
    pub(crate) fn merge(
        &mut self,
        alloc: Global,
        rank: Rank,
        ino: Ino,
        frag: Frag,
    ) -> Result<Answer, Refusal>
        requires { AreRoots self.old.state.tree self.old.state.roots }
        ensures merged { (past : List Applied) → AtRank self.old self.new past past rank result
            (Merges self.old self.new past past rank ino frag result) }
        ensures uses { UsesStep self.old self.new result (MergeEvent rank ino frag) }
        ensures kept { KeepsRoots self.old.state.tree self.new.state.tree self.old.state.roots self.new.state.roots
            self.old.state.exports self.new.state.exports }
        ensures count { length self.new.caches.used ≡ length self.old.caches.used }
        ensures cap { self.new.caches.cap ≡ self.old.caches.cap }
        ensures counted { self.new.faults ≡ self.old.faults + faults_told (result_err result) }
    {
        if !self.is_rank(rank) {
            return Err(Refusal::NotAuthority);
        }
        merge_at(
            alloc,
            &mut self.parts.tree,
            &self.parts.waiting.pins,
            rank,
            ino,
            frag,
        )
    }

    // Begins a commit of a leaf. If the leaf is clean, there is nothing to commit.
    #[inline(never)]
    pub(crate) fn begin_commit(
        &mut self,
        rank: Rank,
        ino: Ino,
        frag: Frag,
    ) -> Result<Answer, Refusal>
        ensures begun { (past : List Applied) → AtRank self.old self.new past past rank result
            (BeginsCommit self.old self.new past past rank (ino, frag) result) }
        ensures uses { UsesStep self.old self.new result (CommitBeginEvent rank ino frag) }
        ensures count { length self.new.caches.used ≡ length self.old.caches.used }
        ensures cap { self.new.caches.cap ≡ self.old.caches.cap }
        ensures counted { self.new.faults ≡ self.old.faults + faults_told (result_err result) }
    {
        if !self.is_rank(rank) {
            return Err(Refusal::NotAuthority);
        }
        begin_at(&mut self.parts.tree, rank, ino, frag)
    }

    // Ends a commit, and writes what was encoded.
    #[inline(never)]
    pub(crate) fn end_commit(&mut self, alloc: Global, encoded: &Encoded) -> Result<Answer, Refusal>
        ensures ended { (past : List Applied) → EndsCommit self.old self.new past past encoded.now.job result }
        ensures uses { UsesStep self.old self.new result (CommitEndEvent encoded.now) }
        ensures count { length self.new.caches.used ≡ length self.old.caches.used }
        ensures cap { self.new.caches.cap ≡ self.old.caches.cap }
        ensures counted { self.new.faults ≡ self.old.faults + faults_told (result_err result) }
    {
        if let Err(refusal) = self.parts.tree.end(alloc, encoded) {
            return Err(refusal);
        }
        Ok(Answer::Nothing)
    }

    // Gives a commit up.
    #[inline(never)]
    pub(crate) fn drop_commit(&mut self, job: u64) -> Result<Answer, Refusal>
        ensures dropped { (past : List Applied) → DropsCommit self.old self.new past past job result }
        ensures caches { self.new.caches ≡ self.old.caches }
        ensures count { length self.new.caches.used ≡ length self.old.caches.used }
        ensures cap { self.new.caches.cap ≡ self.old.caches.cap }
        ensures counted { self.new.faults ≡ self.old.faults + faults_told (result_err result) }
    {
        self.parts.tree.drop_job(job)?;
        Ok(Answer::Nothing)
    }

    // Writes or removes the object of a directory's fragment tree.
    #[inline(never)]
    pub(crate) fn commit_tree(&mut self, alloc: Global, ino: Ino) -> Result<Answer, Refusal>
        ensures saved { (past : List Applied) → CommitsTree self.old self.new past past ino result }
        ensures caches { self.new.caches ≡ self.old.caches }
        ensures count { length self.new.caches.used ≡ length self.old.caches.used }
        ensures cap { self.new.caches.cap ≡ self.old.caches.cap }
        ensures counted { self.new.faults ≡ self.old.faults + faults_told (result_err result) }
    {
        self.parts.tree.commit_tree(alloc, ino)?;
        Ok(Answer::Nothing)
    }

    // Removes the first object of the purge list from the store.
    #[inline(never)]
    pub(crate) fn purge(&mut self) -> Result<Answer, Refusal>
        ensures purged { (past : List Applied) → PurgesObject self.old self.new past past result }
        ensures caches { self.new.caches ≡ self.old.caches }
        ensures count { length self.new.caches.used ≡ length self.old.caches.used }
        ensures cap { self.new.caches.cap ≡ self.old.caches.cap }
        ensures counted { self.new.faults ≡ self.old.faults + faults_told (result_err result) }
    {
        self.parts.tree.purge()?;
        Ok(Answer::Nothing)
    }

    // Evicts the least recently used clean fragment of a rank's cache.
    #[inline(never)]
    pub(crate) fn evict(&mut self, rank: Rank) -> Result<Answer, Refusal>
        requires { length self.old.caches.used ≡ length self.old.state.inboxes }
        ensures evicted { (past : List Applied) → AtRank self.old self.new past past rank result
            (EvictsFragment self.old self.new past past rank result) }
        ensures uses { UsesStep self.old self.new result (EvictEvent rank) }
        ensures count { length self.new.caches.used ≡ length self.old.caches.used }
        ensures cap { self.new.caches.cap ≡ self.old.caches.cap }
        ensures counted { self.new.faults ≡ self.old.faults + faults_told (result_err result) }
    {
        if !self.is_rank(rank) {
            return Err(Refusal::NotAuthority);
        }
        self.parts.tree.evict(rank)?;
        Ok(Answer::Nothing)
    }
}

// Splits a leaf of a rank, unless it is frozen or granted.
fn split_at<S: Store + Drop>(
    alloc: Global,
    tree: &mut RankedTree<S>,
    pins: &Pins,
    asked: &Dirfrag,
    bits: u8,
) -> Result<Answer, Refusal>
    requires { AreRoots (tree_state tree.old.tree) tree.old.subtrees.roots }
    ensures split { (numbers : List Supply) (inboxes : Waiting) (sessions : Table) (past : List Applied)
        → Splits (core_of tree.old.tree tree.old.subtrees.roots tree.old.exports numbers inboxes pins.now sessions)
        (core_of tree.new.tree tree.new.subtrees.roots tree.new.exports numbers inboxes pins.now sessions) past past
        asked.now.rank asked.now.dir asked.now.frag bits result }
    ensures came { CameAt (Rules (tree_state tree.old.tree) tree.old.subtrees.roots (asked.now.dir, asked.now.frag))
        (IsFamilyOf asked.now.dir asked.now.frag bits) tree.old.tree.caches tree.new.tree.caches }
    ensures kept { KeepsRoots (tree_state tree.old.tree)
        (tree_state tree.new.tree) tree.old.subtrees.roots tree.new.subtrees.roots tree.old.exports tree.new.exports }
    ensures count { length tree.new.tree.caches.used ≡ length tree.old.tree.caches.used }
    ensures cap { tree.new.tree.caches.cap ≡ tree.old.tree.caches.cap }
    ensures counted { tree.new.tree.faults ≡ tree.old.tree.faults + faults_told (result_err result) }
{
    let rank = match tree.check_split(asked.rank, asked.dir, asked.frag, bits) {
        Ok(rank) => rank,
        Err(refusal) => return Err(refusal),
    };
    let at = Dirfrag {
        dir: asked.dir,
        frag: asked.frag,
        rank,
    };
    if !tree.has_authority(&at, asked.rank) {
        return Err(Refusal::NotAuthority);
    }
    if tree.is_frozen(at.dir, at.frag) {
        return Err(Refusal::Frozen);
    }
    if pins.is_pinned(at.dir, at.frag) {
        return Err(Refusal::Pinned);
    }
    if let Err(refusal) = tree.split(alloc, &at, bits) {
        return Err(refusal);
    }
    Ok(Answer::Nothing)
}

// Merges leaves inside a fragment, all of them a rank's, unless one of them is frozen or granted.
fn merge_at<S: Store + Drop>(
    alloc: Global,
    tree: &mut RankedTree<S>,
    pins: &Pins,
    rank: Rank,
    ino: Ino,
    frag: Frag,
) -> Result<Answer, Refusal>
    requires { AreRoots (tree_state tree.old.tree) tree.old.subtrees.roots }
    ensures merged { (numbers : List Supply) (inboxes : Waiting) (sessions : Table) (past : List Applied)
        → Merges (core_of tree.old.tree tree.old.subtrees.roots tree.old.exports numbers inboxes pins.now sessions)
        (core_of tree.new.tree tree.new.subtrees.roots tree.new.exports numbers inboxes pins.now sessions)
        past past rank ino frag result }
    ensures came { CameAt (AllHave tree.old.tree.homes tree.old.tree.covers tree.old.subtrees.roots ino frag)
        (IsMergedHere tree.old.tree.covers ino frag) tree.old.tree.caches tree.new.tree.caches }
    ensures kept { KeepsRoots (tree_state tree.old.tree)
        (tree_state tree.new.tree) tree.old.subtrees.roots tree.new.subtrees.roots tree.old.exports tree.new.exports }
    ensures count { length tree.new.tree.caches.used ≡ length tree.old.tree.caches.used }
    ensures cap { tree.new.tree.caches.cap ≡ tree.old.tree.caches.cap }
    ensures counted { tree.new.tree.faults ≡ tree.old.tree.faults + faults_told (result_err result) }
{
    if let Err(refusal) = tree.check_merge(ino, frag) {
        return Err(refusal);
    }
    if !tree.is_all_of(ino, frag, rank) {
        return Err(Refusal::NotAuthority);
    }
    if tree.is_any_frozen(ino, frag) {
        return Err(Refusal::Frozen);
    }
    if is_any_pinned(tree, pins, ino, frag) {
        return Err(Refusal::Pinned);
    }
    if let Err(refusal) = tree.merge(alloc, ino, frag) {
        return Err(refusal);
    }
    Ok(Answer::Nothing)
}

// Begins a commit of a leaf of a rank, unless it is frozen.
fn begin_at<S: Store + Drop>(
    tree: &mut RankedTree<S>,
    rank: Rank,
    ino: Ino,
    frag: Frag,
) -> Result<Answer, Refusal>
    ensures begun { (numbers : List Supply) (inboxes : Waiting) (pins : List Granted) (sessions : Table)
        (past : List Applied) → BeginsCommit (core_of tree.old.tree tree.old.subtrees.roots tree.old.exports numbers
        inboxes pins sessions) (core_of tree.new.tree tree.new.subtrees.roots tree.new.exports numbers inboxes pins
        sessions) past past rank (ino, frag) result }
    ensures came { UsesAt (Rules (tree_state tree.old.tree) (held_roots tree.old) (ino, frag)) (ino, frag)
        tree.old.tree.caches tree.new.tree.caches }
    ensures count { length tree.new.tree.caches.used ≡ length tree.old.tree.caches.used }
    ensures cap { tree.new.tree.caches.cap ≡ tree.old.tree.caches.cap }
    ensures faults { tree.new.tree.faults ≡ tree.old.tree.faults }
    ensures counted { tree.new.tree.faults ≡ tree.old.tree.faults + faults_told (result_err result) }
{
    let Some(holder) = tree.holder(rank, ino, frag) else {
        return Err(Refusal::NoSuchFrag);
    };
    let at = Dirfrag {
        dir: ino,
        frag,
        rank: holder,
    };
    if !tree.has_authority(&at, rank) {
        return Err(Refusal::NotAuthority);
    }
    if tree.is_frozen(ino, frag) {
        return Err(Refusal::Frozen);
    }
    let job = match tree.begin(&at) {
        Ok(job) => job,
        Err(refusal) => return Err(refusal),
    };
    Ok(told_job(job))
}

// The answer of a commit that began: its job, or nothing for a clean fragment.
fn told_job(job: Option<Job>) -> Answer
    ensures { result ≡ told_job job }
{
    match job {
        Some(job) => Answer::Job(job),
        None => Answer::Nothing,
    }
}
