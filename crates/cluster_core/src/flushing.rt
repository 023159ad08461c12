//! A flush: writing all that the store doesn't have yet.
ghost use Rattle.std.specs.Prelude.{◌≡◌, ◌+◌, ◌≤◌, ◌↔◌, IsTrue, length, OnOk, IfErr};
ghost use Rattle.std.specs.FinMap as map;
ghost use Rattle.std.specs.Result.{result_err};
ghost use Rattle.objstore.specs.Objects.{faults_told};
ghost use Rattle.cluster_core.specs.Flush.{AreExact, Flushes, IsColdTree, KeepsCore, MayNotFlush};
ghost use Rattle.cluster_core.specs.Sound.{AreCached, AreExported, GoesOnBehind, IsSoundKept, IsSoundWith};
ghost use Rattle.cluster_core.specs.State.{shown};

use crate::books::Book;
use crate::clusters::Cluster;
use mds_types::Refusal;
use objstore::Store;
use std::alloc::Global;
use std::thread::Threads;

impl<S: Store + Drop> Cluster<S> {
    /// Whether there is no export.
    pub(crate) fn has_no_export(&self) -> bool
        ensures { IsTrue result ↔ (self.now.state.exports ≡ map.empty) }
    {
        self.parts.tree.exports().len() == 0
    }

    /// Writes all that the store doesn't have yet, as `RankedTree::flush` does and refuses.
    pub(crate) fn flush(&mut self, rt: &(impl Threads + Sync), alloc: Global) -> Result<(), Refusal>
        requires few { length self.old.caches.used ≤ 256 }
        ensures cold { OnOk result (IsColdTree self.new.state.tree.objects (shown self.old.state)) }
        ensures exact { OnOk result (AreExact self.new.state.tree) }
        ensures clean { OnOk result (self.new.state.tree.unsaved ≡ map.empty) }
        ensures purged { OnOk result (self.new.state.tree.purge ≡ map.empty) }
        ensures left { KeepsCore self.old self.new }
        ensures refused { IfErr result (MayNotFlush self.old self.new) }
        ensures counted { self.new.faults ≡ self.old.faults + faults_told (result_err result) }
        ensures kept { IsSoundWith self.new.state.tree self.new.caches }
        ensures cached { AreCached self.new }
        ensures exported { AreExported self.new }
    {
        self.parts.tree.flush(rt, alloc)
    }
}

/// Writes all that the store doesn't have yet, so that the store alone holds the tree after the history. Commits that
/// were begun are given up, each fragment that isn't clean is committed, the objects of fragment trees are updated, and
/// the objects on the purge list are removed. Afterwards the store has exactly the objects of the leaves, and those of
/// the fragment trees with several leaves. Fragments are encoded on several threads, at most 256 at once. Takes memory
/// for so many, and for a list of all leaves that it commits, 24 bytes for each.
///
/// Whatever it returns, the opening tree, the history and the shown tree are unchanged, and so are directories and
/// their leaves, next numbers, authorities, inboxes, grants and sessions. No commit is under way any more.
///
/// Refused `NotClean` while an export exists; then nothing changes, and commits that were begun remain. Refused
/// `NoInodes` if a fragment's version is used up, or fewer than 256 job numbers are left. Otherwise refused as the
/// store refuses, or `NoMemory`. Part of the content may be written then, and another flush writes the rest.
pub fn flush<S: Store + Drop>(
    rt: &(impl Threads + Sync),
    alloc: Global,
    book: &mut Book<S>,
) -> Result<(), Refusal>
    ensures cold { OnOk result (IsColdTree book.new.core.state.tree.objects (shown book.old.core.state)) }
    ensures exact { OnOk result (AreExact book.new.core.state.tree) }
    ensures clean { OnOk result (book.new.core.state.tree.unsaved ≡ map.empty) }
    ensures purged { OnOk result (book.new.core.state.tree.purge ≡ map.empty) }
    ensures outcome { Flushes book.old book.new result }
    ensures counted { book.new.core.faults ≡ book.old.core.faults + faults_told (result_err result) }
    ensures goes_on { GoesOnBehind book.old book.new }
    ensures sound { IsSoundKept book.new }
{
    if !book.cluster.has_no_export() {
        return Err(Refusal::NotClean);
    }
    book.cluster.flush(rt, alloc)
}
