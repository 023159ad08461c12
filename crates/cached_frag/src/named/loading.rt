//! Names that were fetched.
ghost use Rattle.std.specs.Prelude.{◌≡◌, ◌+◌, ◌<◌, ◌^◌};
ghost use Rattle.std.specs.FinMap as map;
ghost use Rattle.objstore.specs.Omap.{key_cmp};
ghost use Rattle.sorted_map.specs.SortedMap.{contents};
ghost use Rattle.cached_frag.specs.Snap.{counts_of};
ghost use Rattle.cached_frag.specs.Cached.{AreEntries};

use crate::bases::{Base, EntryCounts};
use crate::named::fragments::NamedFrag;
use mds_types::{Inode, Name};
use sorted_map::SortedMap;
use std::alloc::Global;

impl NamedFrag {
    /// A fragment whose object spells these names at this commit version. Takes no memory.
    pub(crate) fn stored(alloc: Global, version: u64, names: SortedMap<Name, Inode>) -> NamedFrag
        requires { AreEntries (contents key_cmp names) }
        ensures { result ≡ record {
          base = Base.Stored version;
          generation = 0;
          clean = contents key_cmp names;
          dirty = map.empty;
          room = 0;
          places = names.room;
        } }
    {
        let counts = counts_in(&names);
        NamedFrag {
            base: Base::Stored(version),
            generation: 0,
            clean: names,
            dirty: SortedMap::new(alloc),
            counts,
            room: 0,
        }
    }
}

// How many entries names are.
fn counts_in(names: &SortedMap<Name, Inode>) -> EntryCounts
    ensures counted { result ≡ counts_of (contents key_cmp names.now) }
    ensures few { result.files + result.dirs < 2 ^ 64 }
{
    // no more than there are names, so the sums don't overflow
    let _ = names.len();
    let mut files = 0;
    let mut dirs = 0;
    for (_, inode) in names {
        files += u64::from(!inode.kind.is_dir());
        dirs += u64::from(inode.kind.is_dir());
    }
    EntryCounts { files, dirs }
}
