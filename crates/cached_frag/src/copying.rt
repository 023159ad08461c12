//! Names that are copied from one fragment into another.
ghost use Rattle.std.specs.Prelude.{◌≡◌, IfOk, OnOk, OnErr};
ghost use Rattle.objstore.specs.Omap.{key_cmp};
ghost use Rattle.sorted_map.specs.SortedMap.{contents};
ghost use Rattle.cached_frag.specs.Cached.{AreEntries, shown_names};
ghost use Rattle.cached_frag.specs.Moving.{TakesIn};

use crate::fragments::{CachedFrag, Store};
use mds_types::{Inode, Name};
use sorted_map::SortedMap;
use std::alloc::AllocError;

impl CachedFrag {
    /// The names that it shows, copied with their inodes. Takes memory for the copies.
    pub fn copy_names(&self) -> Result<SortedMap<Name, Inode>, AllocError>
        ensures names { IfOk result (λ names. contents key_cmp names ≡ shown_names self.now) }
        ensures entries { IfOk result (λ names. AreEntries (contents key_cmp names)) }
    {
        match &self.store {
            Store::Fresh { alloc, .. } => Ok(SortedMap::new(*alloc)),
            Store::Stored { alloc, .. } => Ok(SortedMap::new(*alloc)),
            Store::Named(named) => named.copy_names(),
        }
    }

    /// Takes in a copy of each name that another fragment shows, dirty at this version; what the fragment showed of one
    /// of them is replaced. Takes memory for the copies and their room, before it changes a name.
    pub fn join_copy(&mut self, other: &CachedFrag, version: u64) -> Result<(), AllocError>
        ensures taken { OnOk result (TakesIn self.old self.new (shown_names other.now) version) }
        ensures err { OnErr result (self.new ≡ record self.old { room = self.new.room }) }
    {
        let names = other.copy_names()?;
        self.reserve(names.len())?;
        self.join(names, version);
        Ok(())
    }
}
