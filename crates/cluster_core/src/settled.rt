//! The ranks of which a book knows that none of their subtrees is pinned to another rank, and the steps that may change
//! that.
ghost use Rattle.std.specs.Prelude.{◌≡◌, ◌↔◌, ◌⊎◌, ◌++◌, ◌∷◌, [], true, false, IsTrue, List, length};
ghost use Rattle.std.specs.List.{Contains};
ghost use Rattle.mds_types.specs.declared.entries.Entry.{Entry as Applied};
ghost use Rattle.mds_types.specs.declared.ids.Rank.{Rank as RankNumber};
ghost use Rattle.cluster_core.specs.Settled.{HasUnsettled, IsCalm, IsCalmOp, KeepsSettled};

use crate::events::Event;
use mds_types::{Entry, Op, Rank};
use std::alloc::Global;

/// The ranks of which it is known that none of their subtrees is pinned to another rank, so that a proposal needn't
/// look again.
#[derive(Drop)]
pub(crate) struct Settled {
    pub(crate) ranks: Vec<Rank>,
}

impl Settled {
    /// Nothing is known of any rank yet. Takes no memory.
    pub(crate) fn new(alloc: Global) -> Settled
        ensures { result.ranks.items ≡ [] }
    {
        Settled {
            ranks: Vec::new(alloc),
        }
    }

    /// Whether this is known of a rank.
    pub(crate) fn knows(&self, rank: Rank) -> bool
        ensures { IsTrue result ↔ Contains self.now.ranks.items rank }
    {
        self.ranks.contains(&rank)
    }

    /// Notes that this is known of a rank; if memory for that is refused, nothing is noted.
    pub(crate) fn note(&mut self, rank: Rank)
        ensures most { (other : RankNumber) → Contains self.new.ranks.items other
            → Contains self.old.ranks.items other ⊎ (other ≡ rank) }
        ensures least { (other : RankNumber) → Contains self.old.ranks.items other
            → Contains self.new.ranks.items other }
    {
        if !self.knows(rank) {
            let _ = self.ranks.push(rank);
        }
    }

    /// Nothing is known of any rank any more.
    pub(crate) fn forget(&mut self)
        ensures { self.new.ranks.items ≡ [] }
    {
        self.ranks.clear();
    }
}

/// Whether a step may make a subtree root or hand an authority on, whatever request it serves.
#[inline(always)]
pub(crate) fn may_unsettle(event: &Event) -> bool
    ensures calm { result ≡ false → IsCalm event.now }
    ensures other { result ≡ true → IsCalm event.now → ⊥ }
{
    match event {
        Event::Freeze { .. } | Event::Finish { .. } => true,
        Event::Arrive { .. }
        | Event::Serve { .. }
        | Event::Grant { .. }
        | Event::Split { .. }
        | Event::Merge { .. }
        | Event::CommitBegin { .. }
        | Event::CommitEnd(_)
        | Event::CommitDrop { .. }
        | Event::CommitTree { .. }
        | Event::Purge
        | Event::Evict { .. }
        | Event::Start { .. }
        | Event::Prep { .. }
        | Event::Send { .. }
        | Event::Import { .. }
        | Event::Cancel { .. } => false,
    }
}

/// Forgets what is known if the step may have changed it: by its event, or by applying, behind so many entries, an
/// operation that moves something or pins a directory.
#[inline(always)]
pub(crate) fn keep_settled(settled: &mut Settled, may: bool, history: &[Entry], past: usize)
    ensures { KeepsSettled settled.old.ranks.items settled.new.ranks.items may history.now past }
{
    if may || has_unsettled(history, past) {
        settled.forget();
    }
}

// Whether an operation that moves something or pins a directory was applied behind so many entries.
#[inline(always)]
fn has_unsettled(history: &[Entry], past: usize) -> bool
    ensures calm { result ≡ false → (before : List Applied) (e : Applied) → length before ≡ past
        → history.now ≡ before ++ e ∷ [] → IsCalmOp e.op }
    ensures other { result ≡ true → HasUnsettled history.now past }
{
    match history.get(past) {
        Some(entry) => unsettles(&entry.op),
        None => false,
    }
}

// Whether an operation moves something, or pins a directory.
fn unsettles(op: &Op) -> bool
    ensures calm { result ≡ false → IsCalmOp op.now }
    ensures other { result ≡ true → IsCalmOp op.now → ⊥ }
{
    match op {
        Op::SetPin { .. } | Op::Rename { .. } => true,
        Op::Lookup(_)
        | Op::Readdir { .. }
        | Op::Create { .. }
        | Op::Mkdir { .. }
        | Op::Readlink(_)
        | Op::Symlink { .. }
        | Op::Setattr { .. }
        | Op::Unlink(_)
        | Op::Rmdir(_) => false,
    }
}
