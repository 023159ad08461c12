//! What a commit takes out of a fragment, and what an export sends of it.
ghost use Rattle.std.specs.Prelude.{◌≡◌, IfOk};
ghost use Rattle.std.specs.FinMap as map;
ghost use Rattle.objstore.specs.Omap.{key_cmp};
ghost use Rattle.sorted_map.specs.SortedMap.{contents};
ghost use Rattle.cached_frag.specs.Marks.{AreDirtyNames};
ghost use Rattle.cached_frag.specs.Snap.{IsBelowEnd};
ghost use Rattle.cached_frag.specs.Cached.{snapshot_of};

use crate::bases::Base;
use crate::dirty_names::DirtyNames;
use crate::marks::Mark;
use crate::named::fragments::NamedFrag;
use crate::snapshots::Snapshot;
use mds_types::Name;
use sorted_map::{Iter, SortedMap};
use std::alloc::AllocError;

impl NamedFrag {
    /// How many names are dirty.
    pub(crate) fn dirty_count(&self) -> usize
        ensures { result ≡ map.len self.now.dirty }
    {
        self.dirty.len()
    }

    /// The dirty names in order, each with what became of it and when.
    pub(crate) fn dirty_iter(&self) -> Iter<'_, Name, Mark>
        ensures names { result ≡ map.entries self.now.dirty }
        ensures valid { AreDirtyNames self.now.dirty }
    {
        self.dirty.iter()
    }

    /// The fragment as it stands: its base, its dirty names, and how many entries it shows. Takes memory for the names.
    pub(crate) fn snapshot(&self) -> Result<Snapshot, AllocError>
        requires { IsBelowEnd self.now.base }
        ensures { IfOk result (λ snapshot. snapshot ≡ snapshot_of self.now) }
    {
        let names = DirtyNames::from_map(copy_of(&self.dirty)?);
        Ok(match self.base {
            Base::Fresh => Snapshot::fresh(names),
            Base::Stored(version) => Snapshot::stored(version, names, self.counts),
        })
    }
}

// A copy of the dirty names.
pub(crate) fn copy_of(dirty: &SortedMap<Name, Mark>) -> Result<SortedMap<Name, Mark>, AllocError>
    ensures { IfOk result (λ copy. contents key_cmp copy ≡ contents key_cmp dirty.now) }
{
    dirty.clone()
}
