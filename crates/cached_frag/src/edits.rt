//! Changes of one name. None of them takes memory.
ghost use Rattle.std.specs.Prelude.{◌≡◌, ◌<◌, Some, None};
ghost use Rattle.std.specs.FinMap as map;
ghost use Rattle.dirfrag_codec.specs.EntryRecord.{IsRecordable};
ghost use Rattle.cached_frag.specs.Cached.{marked, shown_names};

use crate::fragments::{CachedFrag, Store};
use mds_types::{Inode, Name};
use sorted_map::Finger;

impl CachedFrag {
    /// Gives a name this inode, whether it was there or not. The name is dirty then, at this version. It is found at a
    /// comparison or two where the finger is that of the name.
    #[inline(always)]
    pub fn put(&mut self, near: &Finger, name: Name, inode: Inode, version: u64)
        requires recordable { IsRecordable inode }
        requires room { 0 < self.old.room }
        ensures marked { self.new ≡ marked self.old name (record { version = version; inode = Some inode }) }
        ensures shown { shown_names self.new ≡ map.insert (shown_names self.old) name inode }
    {
        match &mut self.store {
            Store::Named(named) => named.put(near, name, inode, version),
            Store::Fresh { .. } => unreachable!(),
            Store::Stored { .. } => unreachable!(),
        }
    }

    /// Removes a name, whether it was there or not. The name is dirty then, at this version. It is found as by `put`.
    #[inline(always)]
    pub fn erase(&mut self, near: &Finger, name: Name, version: u64)
        requires { 0 < self.old.room }
        ensures marked { self.new ≡ marked self.old name (record { version = version; inode = None }) }
        ensures shown { shown_names self.new ≡ map.remove (shown_names self.old) name }
    {
        match &mut self.store {
            Store::Named(named) => named.erase(near, name, version),
            Store::Fresh { .. } => unreachable!(),
            Store::Stored { .. } => unreachable!(),
        }
    }
}
