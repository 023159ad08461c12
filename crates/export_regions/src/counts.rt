//! Whether a region can be sent: each fragment's dirty names are counted in 32 bits.
ghost use Rattle.std.specs.Prelude.{◌≡◌, ◌↔◌, ◌<◌, length, IsTrue, option_copied};
ghost use Rattle.mds_types.specs.Leaf.{leaf_of};
ghost use Rattle.export_regions.specs.Regions.{HasTooMany, IsOfRegion};
ghost use Rattle.export_regions.specs.Sending.{AreAtTheirRank};
ghost use Rattle.export_regions.specs.Counts.{AnyTooMany, is_too_long};
ghost use Rattle.dentry_cache.specs.CacheMap.{AreCaches, unclean};
ghost use Rattle.dentry_cache.specs.PlacesByUse.{places_at};

use crate::regions::is_in_region;
use cached_frag::CachedFrag;
use dentry_cache::Caches;
use inode_table::Dirs;
use mds_types::Dirfrag;
use subtree_map::Subtrees;

/// Whether a fragment of the region of a root has more dirty names than can be sent. Takes no memory; each place of the
/// root's rank is looked at, and a way up is gone only where a fragment has so many.
pub fn has_too_many(caches: &Caches, subtrees: &Subtrees, dirs: &Dirs, root: Dirfrag) -> bool
    requires there { root.rank.0 < length caches.now.used }
    requires held { AreAtTheirRank
        (IsOfRegion subtrees.now.roots dirs.now.homes dirs.now.trees (leaf_of root)) caches.now root.rank.0 }
    ensures { IsTrue result ↔ HasTooMany (IsOfRegion subtrees.now.roots dirs.now.homes dirs.now.trees (leaf_of root))
        (unclean caches.now) }
{
    any_too_many(caches, subtrees, dirs, &root)
}

// Whether a place of the root's rank has such a fragment.
fn any_too_many(caches: &Caches, subtrees: &Subtrees, dirs: &Dirs, root: &Dirfrag) -> bool
    requires { root.now.rank.0 < length caches.now.used }
    ensures any { IsTrue result ↔ AnyTooMany (IsOfRegion subtrees.now.roots dirs.now.homes dirs.now.trees (leaf_of root.now))
        (places_at caches.now root.now.rank.0) }
    ensures valid { AreCaches caches.now }
{
    let mut places = caches.places_of(root.rank);
    while let Some((leaf, fragment)) = places.next_place() {
        if is_too_long(fragment) && is_in_region(subtrees, dirs, root, leaf) {
            return true;
        }
    }
    false
}

// Whether there is a fragment with more dirty names than 32 bits count.
fn is_too_long(fragment: Option<&CachedFrag>) -> bool
    ensures { result ≡ is_too_long (option_copied fragment.entry) }
{
    match fragment {
        Some(fragment) => fragment.dirty_count() > u32::MAX as usize,
        None => false,
    }
}
