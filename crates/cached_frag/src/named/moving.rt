//! Names that go from fragments to others, as at a split or a merge: none of their inodes is copied.
ghost use Rattle.std.specs.Prelude.{◌≡◌, ◌≤◌, ◌+◌, None};
ghost use Rattle.std.specs.FinMap as map;
ghost use Rattle.objstore.specs.Omap.{key_cmp};
ghost use Rattle.sorted_map.specs.SortedMap.{contents};
ghost use Rattle.cached_frag.specs.Marks.{patched};
ghost use Rattle.cached_frag.specs.Cached.{AreEntries, shown_names};
ghost use Rattle.cached_frag.specs.Moving.{Joins};

use crate::marks::Mark;
use crate::named::fragments::NamedFrag;
use crate::named::settling::make_clean;
use mds_types::{Inode, Name};
use sorted_map::{Finger, SortedMap};

impl NamedFrag {
    /// The names that it shows, given away with their inodes. Takes no memory, where there is room for the dirty names
    /// (`reserve_settled`).
    pub(crate) fn into_names(self) -> SortedMap<Name, Inode>
        requires { map.len self.dirty ≤ self.places }
        ensures names { contents key_cmp result ≡ shown_names self }
        ensures entries { AreEntries (contents key_cmp result) }
    {
        all_shown(self.clean, self.dirty)
    }

    /// Takes all of these names in, dirty at this version; what the fragment showed of one of them is replaced. Takes
    /// no memory, where there is room for so many changes.
    pub(crate) fn join(&mut self, mut names: SortedMap<Name, Inode>, version: u64)
        requires entries { AreEntries (contents key_cmp names) }
        requires room { map.len (contents key_cmp names) ≤ self.old.room }
        ensures { Joins self.old self.new (contents key_cmp names) version }
    {
        while let Some(pair) = names.pop_first() {
            self.put(&Finger::none(), pair.0, pair.1, version);
        }
    }
}

// The names of a base, once each of these is what it became.
pub(crate) fn all_shown(
    mut names: SortedMap<Name, Inode>,
    dirty: SortedMap<Name, Mark>,
) -> SortedMap<Name, Inode>
    requires { map.len (contents key_cmp dirty) ≤ names.room }
    ensures { contents key_cmp result ≡ patched (contents key_cmp names) (contents key_cmp dirty) }
{
    make_clean(&mut names, dirty);
    names
}
