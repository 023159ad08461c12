//! Names that go from fragments to others, as at a split or a merge: none of their inodes is copied.
ghost use Rattle.std.specs.Prelude.{◌≡◌, ◌≤◌};
ghost use Rattle.std.specs.FinMap as map;
ghost use Rattle.objstore.specs.Omap.{key_cmp};
ghost use Rattle.sorted_map.specs.SortedMap.{contents};
ghost use Rattle.cached_frag.specs.Cached.{AreEntries, imported, shown_names};
ghost use Rattle.cached_frag.specs.Moving.{Joins};

use crate::fragments::{CachedFrag, Store};
use mds_types::{Inode, Name};
use sorted_map::SortedMap;

impl CachedFrag {
    /// The same fragment, as a rank has it that took it over from another: of generation 0, so no commit that the other
    /// began ends it. Takes no memory.
    pub fn imported(mut self) -> CachedFrag
        ensures { result ≡ imported self }
    {
        match &mut self.store {
            Store::Fresh { generation, .. } => *generation = 0,
            Store::Stored { generation, .. } => *generation = 0,
            Store::Named(named) => named.import(),
        }
        self
    }

    /// The names that it shows, given away with their inodes. Takes no memory, where there is room for the dirty names
    /// (`reserve_settled`).
    pub fn into_names(self) -> SortedMap<Name, Inode>
        requires { map.len self.dirty ≤ self.places }
        ensures names { contents key_cmp result ≡ shown_names self }
        ensures entries { AreEntries (contents key_cmp result) }
    {
        match self.store {
            Store::Fresh { alloc, .. } => SortedMap::new(alloc),
            Store::Stored { alloc, .. } => SortedMap::new(alloc),
            Store::Named(named) => Box::into_inner(named).into_names(),
        }
    }

    /// Takes all of these names in, dirty at this version; what the fragment showed of one of them is replaced. Takes
    /// no memory, where there is room for so many changes.
    pub fn join(&mut self, names: SortedMap<Name, Inode>, version: u64)
        requires entries { AreEntries (contents key_cmp names) }
        requires room { map.len (contents key_cmp names) ≤ self.old.room }
        ensures { Joins self.old self.new (contents key_cmp names) version }
    {
        match &mut self.store {
            Store::Fresh { .. } => {
                drop(names);
                return;
            }
            Store::Stored { .. } => {
                drop(names);
                return;
            }
            Store::Named(named) => named.join(names, version),
        }
    }
}
