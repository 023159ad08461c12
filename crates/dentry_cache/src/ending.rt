//! Leaves end, whichever rank has them.
ghost use Rattle.std.specs.Prelude.{ℕ, ◌≡◌, ◌<◌, length, is_some};
ghost use Rattle.dentry_cache.specs.CacheCalls.{HasNoKeptPlace};
ghost use Rattle.dentry_cache.specs.CacheMap.{AreCaches, given_up, here};
ghost use Rattle.dentry_cache.specs.Ended.{ended};

use crate::caches::Caches;
use mds_types::{Frag, Ino};

impl Caches {
    /// Gives up the place of a leaf, with its fragment, at the rank that has it; no place is kept for it. A leaf that
    /// none has changes nothing. The ranks are tried one after the other. Takes no memory.
    pub fn end(&mut self, dir: Ino, frag: Frag)
        requires { (r : ℕ) → HasNoKeptPlace self.old r (dir, frag) }
        ensures ended { self.new ≡ ended self.old (dir, frag) }
        ensures valid { AreCaches self.old }
    {
        for index in 0..self.caches.len() {
            if self.end_at(index, dir, frag) {
                return;
            }
        }
    }

    // Gives up a leaf's place at a rank of this number, and tells whether its fragment was there.
    fn end_at(&mut self, index: usize, dir: Ino, frag: Frag) -> bool
        requires { index < length self.old.used }
        ensures there { result ≡ is_some (here self.old index (dir, frag)) }
        ensures without { self.new ≡ given_up self.old index (dir, frag) }
    {
        self.caches[index].take(dir, frag).is_some()
    }
}
