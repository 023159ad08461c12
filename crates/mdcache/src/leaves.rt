//! Which leaves there are.
ghost use Rattle.std.specs.Prelude.{◌≡◌, true, IfOk, IsTrue, ◌↔◌};
ghost use Rattle.mds_types.specs.Leaf.{leaf_of};
ghost use Rattle.fragtree.specs.FragTree.{IsTree};
ghost use Rattle.dentry_cache.specs.CacheMap.{has_place};
ghost use Rattle.inode_table.specs.Dirs.{leaves_of};
ghost use Rattle.mdcache.specs.State.{IsLive};

use crate::mdcache::MdCache;
use inode_table::Dirs;
use mds_types::{Dirfrag, Frag, Ino};
use objstore::Store;
use std::alloc::{AllocError, Global};

impl<S: Store + Drop> MdCache<S> {
    /// Whether there is such a directory, and it has this leaf. Takes no memory.
    pub fn has_leaf(&self, dir: Ino, frag: Frag) -> bool
        ensures { IsTrue result ↔ IsLive self.now.homes self.now.covers (dir, frag) }
    {
        self.dirs.has_leaf(dir, frag)
    }

    /// Whether a rank has a place of a leaf. Takes no memory.
    pub fn has_place(&self, at: &Dirfrag) -> bool
        ensures { IsTrue result ↔ (has_place self.now.caches at.now.rank.0 (leaf_of at.now) ≡ true) }
    {
        // there is no place at a rank that isn't there
        (at.rank.0 as usize) < self.caches.ranks() && self.caches.has_place(*at)
    }

    /// The leaves of a directory by value. Takes memory for them, and is refused for want of it alone.
    pub fn leaves(&self, alloc: Global, dir: Ino) -> Result<Vec<Frag>, AllocError>
        ensures listed { IfOk result (λ list. list.items ≡ leaves_of self.now.covers dir.0) }
        ensures cover { IfOk result (λ list. IsTree list.items) }
    {
        leaves_in(alloc, &self.dirs, dir)
    }
}

// The leaves of a directory by value.
fn leaves_in(alloc: Global, dirs: &Dirs, dir: Ino) -> Result<Vec<Frag>, AllocError>
    ensures listed { IfOk result (λ list. list.items ≡ leaves_of dirs.now.trees dir.0) }
    ensures cover { IfOk result (λ list. IsTree list.items) }
{
    let tree = dirs.tree(alloc, dir)?;
    // of a tree that is asked for its length its leaves are known to cover every hash
    let _ = tree.len();
    tree.leaves(alloc)
}
