//! The bytes of an export, beside the leaves that they are made of.
ghost use Rattle.std.specs.Prelude.{◌<◌, IfOk, MatchOption, length};
ghost use Rattle.mds_types.specs.Leaf.{leaf_of};
ghost use Rattle.dentry_cache.specs.CacheMap.{unclean};
ghost use Rattle.export_regions.specs.Regions.{HasTooMany, IsOfRegion};
ghost use Rattle.export_regions.specs.Sending.{AreAtTheirRank, AreBetween, AreLive, HaveVersions};
ghost use Rattle.export_regions.specs.Spelling.{IsSpelled};

use crate::counts::has_too_many;
use crate::leaves::RegionLeaves;
use crate::regions::leaves_of;
use dentry_cache::Caches;
use export_bytes::encode_export;
use inode_table::Dirs;
use mds_types::{Dirfrag, Rank};
use std::alloc::{AllocError, Global};
use subtree_map::Subtrees;

/// The leaves of a region that its rank caches, and the bytes that an export of it sends.
#[derive(Debug, Drop)]
pub struct Spelled {
    pub leaves: RegionLeaves,
    pub bytes: Vec<u8>,
}

/// The leaves of the region of a root that its rank caches, and the bytes that an export of it to another rank sends:
/// they spell each fragment of the region that isn't clean, and no other. Nothing exactly where a fragment of it has
/// more than 2^32 - 1 dirty names, so that it can't be sent. Takes memory for the leaves, for a copy of the dirty
/// names, and for the bytes.
pub fn spell_region(
    alloc: Global,
    caches: &Caches,
    subtrees: &Subtrees,
    dirs: &Dirs,
    root: &Dirfrag,
    importer: Rank,
) -> Result<Option<Spelled>, AllocError>
    requires there { root.now.rank.0 < length caches.now.used }
    requires between { AreBetween root.now.rank importer }
    requires held { AreAtTheirRank
        (IsOfRegion subtrees.now.roots dirs.now.homes dirs.now.trees (leaf_of root.now)) caches.now root.now.rank.0 }
    requires live { AreLive dirs.now.homes dirs.now.trees (unclean caches.now) }
    requires versions { HaveVersions (unclean caches.now) }
    ensures { IfOk result
        (λ found. MatchOption found (HasTooMany (IsOfRegion subtrees.now.roots dirs.now.homes dirs.now.trees
        (leaf_of root.now)) (unclean caches.now))
        (IsSpelled (IsOfRegion subtrees.now.roots dirs.now.homes dirs.now.trees (leaf_of root.now)) caches.now root.now
        importer)) }
{
    if has_too_many(caches, subtrees, dirs, *root) {
        return Ok(None);
    }
    let leaves = leaves_of(alloc, caches, subtrees, dirs, *root)?;
    let sent = leaves.export(alloc, caches, dirs, *root, importer)?;
    let bytes = encode_export(alloc, &sent)?;
    Ok(Some(Spelled { leaves, bytes }))
}
