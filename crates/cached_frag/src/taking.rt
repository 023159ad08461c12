//! What a commit takes out of a fragment, and what an export sends of it.
ghost use Rattle.std.specs.Prelude.{◌≡◌, IfOk};
ghost use Rattle.std.specs.FinMap as map;
ghost use Rattle.cached_frag.specs.Marks.{AreDirtyNames};
ghost use Rattle.cached_frag.specs.Snap.{IsBelowEnd};
ghost use Rattle.cached_frag.specs.Cached.{snapshot_of};

use crate::bases::EntryCounts;
use crate::dirty_names::DirtyNames;
use crate::fragments::{CachedFrag, Store};
use crate::marks::Mark;
use crate::snapshots::Snapshot;
use mds_types::Name;
use sorted_map::Iter;
use std::alloc::AllocError;

impl CachedFrag {
    /// How many names are dirty.
    pub fn dirty_count(&self) -> usize
        ensures { result ≡ map.len self.now.dirty }
    {
        match &self.store {
            Store::Fresh { .. } => 0,
            Store::Stored { .. } => 0,
            Store::Named(named) => named.dirty_count(),
        }
    }

    /// The dirty names in order, each with what became of it and when.
    pub fn dirty_iter(&self) -> Iter<'_, Name, Mark>
        ensures names { result ≡ map.entries self.now.dirty }
        ensures valid { AreDirtyNames self.now.dirty }
    {
        match &self.store {
            Store::Fresh { .. } => Iter::of_pairs(&[]),
            Store::Stored { .. } => Iter::of_pairs(&[]),
            Store::Named(named) => named.dirty_iter(),
        }
    }

    /// The fragment as it stands: its base, its dirty names, and how many entries it shows. Takes memory for the names.
    pub fn snapshot(&self) -> Result<Snapshot, AllocError>
        requires { IsBelowEnd self.now.base }
        ensures { IfOk result (λ snapshot. snapshot ≡ snapshot_of self.now) }
    {
        match &self.store {
            Store::Fresh { alloc, .. } => Ok(Snapshot::fresh(DirtyNames::new(*alloc))),
            Store::Stored { alloc, version, .. } => {
                let none = EntryCounts { files: 0, dirs: 0 };
                Ok(Snapshot::stored(*version, DirtyNames::new(*alloc), none))
            }
            Store::Named(named) => named.snapshot(),
        }
    }
}
