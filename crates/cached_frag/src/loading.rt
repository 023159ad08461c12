//! A fragment that was fetched.
ghost use Rattle.std.specs.Prelude.{◌≡◌, ◌≢◌, ◌<◌, ◌⊎◌};
ghost use Rattle.mds_types.specs.Copies.{IsMadeOrLacks};
ghost use Rattle.std.specs.FinMap as map;
ghost use Rattle.objstore.specs.Omap.{key_cmp};
ghost use Rattle.sorted_map.specs.SortedMap.{contents};
ghost use Rattle.cached_frag.specs.declared.bases.Base.{Base};
ghost use Rattle.cached_frag.specs.Cached.{AreEntries};

use crate::fragments::{CachedFrag, Store, kept_in};
use crate::named::fragments::NamedFrag;
use mds_types::{Inode, Name};
use sorted_map::SortedMap;
use std::alloc::{AllocError, Global};

impl CachedFrag {
    /// A fragment whose object spells these names at this commit version. Takes memory where there are names, or room
    /// for them, and only then may it be wanting.
    pub fn stored(
        alloc: Global,
        version: u64,
        names: SortedMap<Name, Inode>,
    ) -> Result<CachedFrag, AllocError>
        requires { AreEntries (contents key_cmp names) }
        ensures { IsMadeOrLacks (record {
          base = Base.Stored version;
          generation = 0;
          clean = contents key_cmp names;
          dirty = map.empty;
          room = 0;
          places = names.room;
        }) ((contents key_cmp names ≢ map.empty) ⊎ (0 < names.room)) result }
    {
        if names.room() == 0 && names.is_empty() {
            drop(names);
            return Ok(CachedFrag {
                store: Store::Stored {
                    alloc,
                    version,
                    generation: 0,
                },
            });
        }
        kept_in(alloc, NamedFrag::stored(alloc, version, names))
    }
}
