//! Names of cached fragments, changed where the fragments stand. What an operation changes it has looked for, which was
//! the use: so a change leaves the order of use alone.
ghost use Rattle.std.specs.Prelude.{◌≡◌, ◌≤◌, true, IsOk, Some, None, OnOk, OnErr};
ghost use Rattle.dirfrag_codec.specs.EntryRecord.{IsRecordable};
ghost use Rattle.cached_frag.specs.Cached.{Cached, marked};
ghost use Rattle.dentry_cache.specs.Cache.{HasCached, HasRoom, IsWritten, IsThere, cached};

use crate::cache::Cache;
use mds_types::{Frag, Ino, Inode, Name};
use std::alloc::AllocError;

impl Cache {
    /// Gives a name of a fragment this inode, whether it was there or not. The name is dirty then, at this version.
    /// Takes no memory.
    pub fn put(&mut self, dir: Ino, frag: Frag, name: Name, inode: Inode, version: u64)
        requires recordable { IsRecordable inode }
        requires room { HasRoom (cached self.old.entries (dir, frag)) }
        ensures { IsWritten (cached self.old.entries (dir, frag))
            (λ (f now : Cached). now ≡ marked f name (record { version = version; inode = Some inode }))
            (dir, frag) self.old self.new }
    {
        let near = self.near.get();
        let Some(place) = self.places.peek_mut(&(dir, frag)) else {
            return;
        };
        let was = place.size();
        place.frag.put(&near, name, inode, version);
        let now = place.size();
        self.candidates.resize(&self.places, &(dir, frag), was, now);
    }

    /// Removes a name of a fragment, whether it was there or not. The name is dirty then, at this version. Takes no
    /// memory.
    pub fn erase(&mut self, dir: Ino, frag: Frag, name: Name, version: u64)
        requires { HasRoom (cached self.old.entries (dir, frag)) }
        ensures { IsWritten (cached self.old.entries (dir, frag))
            (λ (f now : Cached). now ≡ marked f name (record { version = version; inode = None }))
            (dir, frag) self.old self.new }
    {
        let near = self.near.get();
        let Some(place) = self.places.peek_mut(&(dir, frag)) else {
            return;
        };
        let was = place.size();
        place.frag.erase(&near, name, version);
        let now = place.size();
        self.candidates.resize(&self.places, &(dir, frag), was, now);
    }

    /// Makes room for so many changes of names of a fragment.
    pub fn reserve(&mut self, dir: Ino, frag: Frag, changes: usize) -> Result<(), AllocError>
        requires { IsThere (cached self.old.entries (dir, frag)) }
        ensures same { IsWritten (cached self.old.entries (dir, frag))
            (λ (f now : Cached). (now ≡ record f { room = now.room })
            × (f.room ≤ now.room)) (dir, frag) self.old self.new }
        ensures room { OnOk result
            (IsWritten (cached self.old.entries (dir, frag)) (λ (f now : Cached). changes ≤ now.room)
            (dir, frag) self.old self.new) }
        ensures ready { HasCached (cached self.old.entries (dir, frag))
            (λ (f : Cached). changes ≤ f.room) → IsOk result }
    {
        let Some(place) = self.places.peek_mut(&(dir, frag)) else {
            return Ok(());
        };
        place.frag.reserve(changes)
    }
}
