//! Names of cached fragments, looked up. Each use makes its fragment the most recently used.
ghost use Rattle.std.specs.Prelude.{◌≡◌, IfOk, option_copied};
ghost use Rattle.std.specs.FinMap as map;
ghost use Rattle.cached_frag.specs.Cached.{Cached, shown_names};
ghost use Rattle.dentry_cache.specs.Cache.{HasCached, IsChanged, IsThere, cached, shows_in};

use crate::cache::Cache;
use mds_types::{Frag, Ino, Inode, Name};
use std::alloc::AllocError;

impl Cache {
    /// The inode that a name of a fragment stands for, if it is there. Takes memory for a link's target alone.
    pub fn look(&mut self, dir: Ino, frag: Frag, name: &Name) -> Result<Option<Inode>, AllocError>
        requires { IsThere (cached self.old.entries (dir, frag)) }
        ensures found { IfOk result
            (λ found. HasCached (cached self.old.entries (dir, frag))
            (λ (f : Cached). found ≡ map.get (shown_names f) name.now)) }
        ensures used { IsChanged (cached self.old.entries (dir, frag))
            (λ (f now : Cached). now ≡ f) (dir, frag) self.old self.new }
    {
        let _ = self.touch(dir, frag);
        match self.get(dir, frag) {
            Some(fragment) => copied(fragment.look(&self.near, name)),
            None => Ok(None),
        }
    }

    /// Whether a fragment that is there shows a name. The order of use stays.
    pub fn shows(&self, dir: Ino, frag: Frag, name: &Name) -> bool
        ensures { result ≡ shows_in (cached self.now.entries (dir, frag)) name.now }
    {
        match self.get(dir, frag) {
            Some(fragment) => fragment.shows(&self.near.get(), name),
            None => false,
        }
    }
}

// A copy of an inode, if there is one.
fn copied(inode: Option<&Inode>) -> Result<Option<Inode>, AllocError>
    ensures { IfOk result (λ copy. copy ≡ option_copied inode.entry) }
{
    match inode {
        Some(inode) => Ok(Some(inode.try_clone()?)),
        None => Ok(None),
    }
}
