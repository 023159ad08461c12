//! Commits of cached fragments.
ghost use Rattle.std.specs.Prelude.{◌≡◌, ◌+◌, ◌≤◌, IsOk, OnOk, OnErr, IfOk, IfErr};
ghost use Rattle.std.specs.FinMap as map;
ghost use Rattle.objstore.specs.Objects.{MayRefuse, faults_told, written};
ghost use Rattle.std.specs.Result.{result_err};
ghost use Rattle.cached_frag.specs.Snap.{IsBelowEnd};
ghost use Rattle.cached_frag.specs.Cached.{Cached, snapshot_of};
ghost use Rattle.dentry_cache.specs.Cache.{HasCached, IsChanged, IsThere, IsWritten, cached};
ghost use Rattle.dentry_cache.specs.Calls.{AreCalls};
ghost use Rattle.dentry_cache.specs.Commits.{IsCleanedOf, IsCommitted, leaf_text};

use crate::cache::Cache;
use cached_frag::{DirtyNames, Encoded, Snapshot};
use mds_types::{Frag, Ino, ObjName, Refusal, Spelt};
use objstore::Store;
use std::alloc::{AllocError, Global};

impl Cache {
    /// A snapshot of a fragment as it stands, for which a commit version is left. Takes memory for the dirty names.
    pub fn begin_commit(&mut self, dir: Ino, frag: Frag) -> Result<Snapshot, AllocError>
        requires { HasCached (cached self.old.entries (dir, frag)) (λ (f : Cached). IsBelowEnd f.base) }
        ensures taken { IfOk result
            (λ snapshot. HasCached (cached self.old.entries (dir, frag))
            (λ (f : Cached). snapshot ≡ snapshot_of f)) }
        ensures used { IsChanged (cached self.old.entries (dir, frag))
            (λ (f now : Cached). now ≡ f) (dir, frag) self.old self.new }
    {
        let _ = self.touch(dir, frag);
        self.get(dir, frag).unwrap().snapshot()
    }

    /// Writes a snapshot of a fragment to its object, in one operation. What was dirty at the snapshot's versions is
    /// clean then; what changed since stays dirty. Takes memory before it writes.
    ///
    /// Refused as the store refuses the write, and `NoMemory`. Object and names stay as they were then. The store is
    /// called once, and not where memory lacks before.
    pub fn end_commit<S: Store>(
        &mut self,
        alloc: Global,
        store: &mut S,
        encoded: &Encoded,
    ) -> Result<(), Refusal>
        requires { IsThere (cached self.old.entries (encoded.now.job.ino, encoded.now.job.frag)) }
        ensures written { OnOk result
            (S.objects store.new ≡ written (S.objects store.old)
            (leaf_text encoded.now.job.ino encoded.now.job.frag) encoded.now.op) }
        ensures settled { OnOk result
            (IsChanged (cached self.old.entries (encoded.now.job.ino, encoded.now.job.frag))
            (IsCommitted encoded.now.job.snapshot) (encoded.now.job.ino, encoded.now.job.frag) self.old self.new) }
        ensures same { OnErr result (S.objects store.new ≡ S.objects store.old) }
        ensures kept { OnErr result
            (IsChanged (cached self.old.entries (encoded.now.job.ino, encoded.now.job.frag))
            (λ (f now : Cached). now ≡ record f { places = now.places })
            (encoded.now.job.ino, encoded.now.job.frag) self.old self.new) }
        ensures refused { IfErr result (MayRefuse (S.faults store.old) (S.faults store.new)) }
        ensures grows { S.faults store.old ≤ S.faults store.new }
        ensures counted { S.faults store.new ≡ S.faults store.old + faults_told (result_err result) }
        ensures called { AreCalls S.IsCall 1 store.old (result_err result) store.new }
    {
        ObjName::texts_differ();
        let job = encoded.job();
        let names = job.snapshot.names();
        let version = job.snapshot.base().next_version();
        let _ = self.touch(job.ino, job.frag);
        let ready = self.reserve_settled(job.ino, job.frag, names.len());
        if ready.is_err() {
            return Err(Refusal::NoMemory);
        }
        if let Err(refusal) = write(alloc, store, encoded) {
            return Err(refusal);
        }
        self.settle(job.ino, job.frag, names, version);
        Ok(())
    }

    // Makes room for so many names of a fragment to become clean. The order of use stays.
    pub(crate) fn reserve_settled(
        &mut self,
        dir: Ino,
        frag: Frag,
        names: usize,
    ) -> Result<(), AllocError>
        requires { IsThere (cached self.old.entries (dir, frag)) }
        ensures same { IsWritten (cached self.old.entries (dir, frag))
            (λ (f now : Cached). now ≡ record f { places = now.places }) (dir, frag) self.old self.new }
        ensures room { OnOk result
            (HasCached (cached self.new.entries (dir, frag)) (λ (f : Cached). names ≤ f.places)) }
        ensures ready { HasCached (cached self.old.entries (dir, frag))
            (λ (f : Cached). names ≤ f.places) → IsOk result }
    {
        let Some(place) = self.places.peek_mut(&(dir, frag)) else {
            return Ok(());
        };
        place.frag.reserve_settled(names)
    }

    // Makes the names of a snapshot clean that haven't changed since. The order of use stays.
    fn settle(&mut self, dir: Ino, frag: Frag, names: &DirtyNames, version: u64)
        requires { HasCached (cached self.old.entries (dir, frag)) (λ (f : Cached). map.len names.now ≤ f.places) }
        ensures { IsWritten (cached self.old.entries (dir, frag))
            (IsCleanedOf names.now version) (dir, frag) self.old self.new }
    {
        let Some(place) = self.places.peek_mut(&(dir, frag)) else {
            return;
        };
        place.frag.settle(names, version);
    }
}

// Writes a job's object.
fn write<S: Store>(alloc: Global, store: &mut S, encoded: &Encoded) -> Result<(), Refusal>
    ensures written { OnOk result
        (S.objects store.new ≡ written (S.objects store.old)
        (leaf_text encoded.now.job.ino encoded.now.job.frag) encoded.now.op) }
    ensures same { OnErr result (S.objects store.new ≡ S.objects store.old) }
    ensures refused { IfErr result (MayRefuse (S.faults store.old) (S.faults store.new)) }
    ensures grows { S.faults store.old ≤ S.faults store.new }
    ensures counted { S.faults store.new ≡ S.faults store.old + faults_told (result_err result) }
    ensures once { S.IsCall store.old (result_err result) store.new }
{
    let job = encoded.job();
    let text = Spelt::of(ObjName::Frag(job.ino, job.frag));
    store.apply(alloc, text.as_str(), encoded.op())
}
