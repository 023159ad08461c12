//! The leaves of a region, as a rank caches them.
ghost use Rattle.std.specs.Prelude.{◌≡◌, ◌↔◌, ◌<◌, ◌≤◌, length, IfOk, IsTrue};
ghost use Rattle.mds_types.specs.Leaf.{leaf_of};
ghost use Rattle.subtree_map.specs.Authority.{NearestRoot};
ghost use Rattle.dentry_cache.specs.CacheMap.{AreCaches, order};
ghost use Rattle.export_regions.specs.Regions.{AreCachedOf, IsOfRegion};

use crate::known_dirs::KnownDirs;
use crate::leaves::RegionLeaves;
use dentry_cache::Caches;
use inode_table::Dirs;
use mds_types::{Dirfrag, Frag, Ino};
use std::alloc::{AllocError, Global};
use subtree_map::Subtrees;

/// The leaves of the region of a root that a rank caches. Takes memory for the list, and for an answer for each directory
/// on the way up from a cached leaf; each place of the rank is looked at once, and no way up is climbed twice.
pub fn leaves_of(
    alloc: Global,
    caches: &Caches,
    subtrees: &Subtrees,
    dirs: &Dirs,
    root: Dirfrag,
) -> Result<RegionLeaves, AllocError>
    requires { root.rank.0 < length caches.now.used }
    ensures leaves { IfOk result
        (AreCachedOf (IsOfRegion subtrees.now.roots dirs.now.homes dirs.now.trees (leaf_of root)) caches.now root.rank.0) }
    ensures few { length (order caches.now root.rank.0) ≤ 65536 }
    ensures valid { AreCaches caches.now }
{
    let mut leaves = RegionLeaves::new(alloc);
    let mut known = KnownDirs::new(alloc);
    let mut way = Vec::new(alloc);
    let mut places = caches.places_of(root.rank);
    while let Some((leaf, fragment)) = places.next_place() {
        let Some(fragment) = fragment else {
            continue;
        };
        let within = known.is_in(subtrees, dirs, &root, leaf, &mut way)?;
        if within {
            leaves.add(leaf, fragment.is_clean())?;
        }
    }
    Ok(leaves)
}

/// Whether a leaf is in the region of a root. Takes no memory, and a look-up and a hash for each directory on the way
/// up to the leaf's nearest root.
pub(crate) fn is_in_region(
    subtrees: &Subtrees,
    dirs: &Dirs,
    root: &Dirfrag,
    leaf: &(Ino, Frag),
) -> bool
    ensures { IsTrue result ↔ IsOfRegion subtrees.now.roots dirs.now.homes dirs.now.trees (leaf_of root.now) leaf.now }
{
    match subtrees.find_root(dirs, leaf.0, leaf.1) {
        Some(found) => is_one(&found, root),
        None => false,
    }
}

/// Whether a leaf is this one.
pub(crate) fn is_one(leaf: &(Ino, Frag), other: &Dirfrag) -> bool
    ensures { IsTrue result ↔ (leaf.now ≡ leaf_of other.now) }
{
    leaf.0 == other.dir && leaf.1 == other.frag
}
