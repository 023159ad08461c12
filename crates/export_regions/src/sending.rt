//! The value of an export: what isn't clean of a region.
ghost use Rattle.std.specs.Prelude.{◌≡◌, ◌<◌, ◌≤◌, true, length, IfErr, IfOk, OnOk};
ghost use Rattle.mds_types.specs.Leaf.{leaf_of};
ghost use Rattle.dentry_cache.specs.CacheMap.{unclean};
ghost use Rattle.export_bytes.specs.Export.{is_sendable};
ghost use Rattle.export_regions.specs.Regions.{HasTooMany, IsExportOf, IsOfRegion};
ghost use Rattle.export_regions.specs.Sending.{AreAtTheirRank, AreBetween, AreLive, HaveVersions, IsExportFrom, MayNotSend, MaySendAll};

use crate::counts::has_too_many;
use crate::gathering::{knows_leaf, sent_frags};
use crate::leaves::RegionLeaves;
use crate::regions::leaves_of;
use dentry_cache::Caches;
use export_bytes::Export;
use inode_table::Dirs;
use mds_types::{Dirfrag, Rank, Refusal};
use std::alloc::{AllocError, Global};
use subtree_map::Subtrees;

/// What an export of the region of a root hands over from the root's rank to another: each fragment of the region that
/// isn't clean, with its dirty names. It can be sent. Takes memory for the leaves of the region, and for a copy of the
/// dirty names.
///
/// Refused `TooManyFrags` where one of the fragments has more than 2^32 - 1 dirty names, and `NoMemory` where none has.
pub fn export_of(
    alloc: Global,
    caches: &Caches,
    subtrees: &Subtrees,
    dirs: &Dirs,
    root: Dirfrag,
    importer: Rank,
) -> Result<Export, Refusal>
    requires there { root.rank.0 < length caches.now.used }
    requires between { AreBetween root.rank importer }
    requires held { AreAtTheirRank
        (IsOfRegion subtrees.now.roots dirs.now.homes dirs.now.trees (leaf_of root)) caches.now root.rank.0 }
    requires live { AreLive dirs.now.homes dirs.now.trees (unclean caches.now) }
    requires versions { HaveVersions (unclean caches.now) }
    ensures sent { IfOk result
        (IsExportOf (IsOfRegion subtrees.now.roots dirs.now.homes dirs.now.trees (leaf_of root))
        (unclean caches.now) root importer) }
    ensures sendable { IfOk result (λ export. is_sendable export ≡ true) }
    ensures counted { OnOk result
        (HasTooMany (IsOfRegion subtrees.now.roots dirs.now.homes dirs.now.trees (leaf_of root)) (unclean caches.now) → ⊥) }
    ensures refused { IfErr result
        (MayNotSend (IsOfRegion subtrees.now.roots dirs.now.homes dirs.now.trees (leaf_of root)) (unclean caches.now)) }
{
    if has_too_many(caches, subtrees, dirs, root) {
        return Err(Refusal::TooManyFrags);
    }
    let leaves = leaves_of(alloc, caches, subtrees, dirs, root)?;
    Ok(leaves.export(alloc, caches, dirs, root, importer)?)
}

impl RegionLeaves {
    /// What an export of these leaves of the region of a root hands over from the root's rank to another. It can be
    /// sent. Takes memory for a copy of the dirty names.
    pub fn export(
        &self,
        alloc: Global,
        caches: &Caches,
        dirs: &Dirs,
        root: Dirfrag,
        importer: Rank,
    ) -> Result<Export, AllocError>
        requires there { root.rank.0 < length caches.now.used }
        requires few { length self.now.unclean ≤ 65536 }
        requires between { AreBetween root.rank importer }
        requires may { MaySendAll caches.now root.rank.0 self.now.unclean }
        requires live { AreLive dirs.now.homes dirs.now.trees (unclean caches.now) }
        ensures sent { IfOk result (IsExportFrom caches.now self.now.unclean root importer) }
        ensures sendable { IfOk result (λ export. is_sendable export ≡ true) }
    {
        dirs.is_table();
        knows_leaf(root.dir, root.frag);
        Ok(Export {
            ino: root.dir,
            frag: root.frag,
            exporter: root.rank,
            importer,
            frags: sent_frags(alloc, caches, root.rank, self.unclean())?,
        })
    }
}
