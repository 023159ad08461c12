//! Copies of names with their inodes.
ghost use Rattle.std.specs.Prelude.{◌≡◌, IfOk};
ghost use Rattle.objstore.specs.Omap.{key_cmp};
ghost use Rattle.sorted_map.specs.SortedMap.{contents};
ghost use Rattle.cached_frag.specs.Marks.{patched};
ghost use Rattle.cached_frag.specs.Cached.{AreEntries, shown_names};

use crate::marks::Mark;
use crate::named::fragments::NamedFrag;
use crate::named::moving::all_shown;
use crate::named::taking::copy_of;
use mds_types::{Inode, Name};
use sorted_map::SortedMap;
use std::alloc::AllocError;

impl NamedFrag {
    /// The names that it shows, copied with their inodes. Takes memory for the copies.
    pub(crate) fn copy_names(&self) -> Result<SortedMap<Name, Inode>, AllocError>
        ensures names { IfOk result (λ names. contents key_cmp names ≡ shown_names self.now) }
        ensures entries { IfOk result (λ names. AreEntries (contents key_cmp names)) }
    {
        copy_shown(&self.clean, &self.dirty)
    }
}

// A copy of the names of a base, once each of the dirty ones is what it became.
fn copy_shown(
    clean: &SortedMap<Name, Inode>,
    dirty: &SortedMap<Name, Mark>,
) -> Result<SortedMap<Name, Inode>, AllocError>
    ensures { IfOk result
        (λ names. contents key_cmp names ≡ patched (contents key_cmp clean.now) (contents key_cmp dirty.now)) }
{
    let mut names = copy_clean(clean)?;
    names.reserve(dirty.len())?;
    let dirty = copy_of(dirty)?;
    Ok(all_shown(names, dirty))
}

// A copy of names with their inodes.
fn copy_clean(names: &SortedMap<Name, Inode>) -> Result<SortedMap<Name, Inode>, AllocError>
    ensures { IfOk result (λ copy. contents key_cmp copy ≡ contents key_cmp names.now) }
{
    names.clone()
}
