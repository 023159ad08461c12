//! Import: what isn't clean of a sent region goes to its importer, which holds the region from then on.
ghost use Rattle.std.specs.Prelude.{◌≡◌, ◌↔◌, Some, IfErr, IfOk, IsTrue, OnErr, OnOk, length};
ghost use Rattle.std.specs.FinMap as map;
ghost use Rattle.mds_types.specs.declared.object_names.ObjName.TheVariants.{Frag as FragOf};
ghost use Rattle.mds_types.specs.declared.refusals.Refusal.TheVariants.{Damaged};
ghost use Rattle.dentry_cache.specs.CacheMap.{AreCaches};
ghost use Rattle.export_regions.specs.Regions.{AreCachedOf};
ghost use Rattle.export_steps.specs.declared.exports.ExportState.TheVariants as state;
ghost use Rattle.export_steps.specs.Standing.{IsBetweenRanks};
ghost use Rattle.mdcache.specs.Core.{IsSoundCore, LacksPlacesAt, shown_in, state_of};
ghost use Rattle.ranked_tree.specs.Exported.{IsDivided};
ghost use Rattle.ranked_tree.specs.Importing.{Imports, IsSpelledBy, IsWrong, KeepsRegion, LeavesCaches, MayNotImport, RefusesImport, TakesRegion};
ghost use Rattle.ranked_tree.specs.Ranked.{held_roots};
ghost use Rattle.ranked_tree.specs.Sending.{IsInRegionOf};
ghost use Rattle.ranked_tree.specs.Subtrees.{KeepsOutside};

use crate::ranked_tree::RankedTree;
use crate::regions::Regions;
use export_regions::{RegionLeaves, Spelled, spell_region};
use export_steps::{ExportState, StandingExport};
use mdcache::MdCache;
use mds_types::{Dirfrag, Frag, Ino, ObjName, Refusal};
use objstore::Store;
use std::alloc::Global;

impl<S: Store + Drop> RankedTree<S> {
    /// Import: where the bytes are those of the region of a sent export, each fragment of it that isn't clean is in the
    /// importer's cache, of generation 0, and the exporter caches none of it; the importer holds the region from now
    /// on. What the tree shows stays, and so do the roots. The store isn't called. Takes memory for the region's
    /// leaves, for a copy of its dirty names and for their bytes, and for the places.
    ///
    /// # Errors `WrongExportState` where no sent export of this root stands. Where one does, `Damaged` with the root's
    /// object where the bytes aren't those of the region, `NothingToEvict` where fewer places of the importer are free
    /// or can become so than fragments were sent, and `NoMemory`, which may come first. Then the state and the exports
    /// are left as they were; clean fragments of the importer may have gone for want of memory.
    pub fn import(
        &mut self,
        alloc: Global,
        dir: Ino,
        frag: Frag,
        bytes: &[u8],
    ) -> Result<(), Refusal>
        ensures imported { OnOk result (Imports self.old self.new (dir, frag) bytes.now) }
        ensures refused { IfErr result
            (RefusesImport (λ count rank. LacksPlacesAt count self.old.tree rank)
            (state_of self.old.tree) self.old.subtrees.roots self.old.exports (dir, frag) bytes.now) }
        ensures left { OnErr result (state_of self.new.tree ≡ state_of self.old.tree) }
        ensures stands { OnErr result (self.new.exports ≡ self.old.exports) }
        ensures caches { IfErr result
            (LeavesCaches self.old.exports (dir, frag) self.old.tree.caches self.new.tree.caches) }
        ensures shown { shown_in self.new.tree ≡ shown_in self.old.tree }
        ensures roots { self.new.subtrees ≡ self.old.subtrees }
        ensures others { KeepsOutside (Some (dir, frag)) (state_of self.old.tree) (state_of self.new.tree)
            (held_roots self.old) (held_roots self.new) }
        ensures count { length self.new.tree.caches.used ≡ length self.old.tree.caches.used }
        ensures cap { self.new.tree.caches.cap ≡ self.old.tree.caches.cap }
        ensures faults { self.new.tree.faults ≡ self.old.tree.faults }
    {
        let Some(export) = self.regions.export_in(dir, frag, ExportState::Sent) else {
            return Err(Refusal::WrongExportState);
        };
        let root = (dir, frag);
        if let Err(refusal) = take_region(
            alloc,
            &mut self.tree,
            &self.regions,
            &root,
            export,
            bytes,
        ) {
            return Err(refusal);
        }
        self.regions.exports.import(dir, frag, export);
        Ok(())
    }
}

// Takes the region of a sent export over from its exporter to its importer, where the bytes are the region's.
fn take_region<S: Store + Drop>(
    alloc: Global,
    tree: &mut MdCache<S>,
    regions: &Regions,
    root: &(Ino, Frag),
    export: StandingExport,
    bytes: &[u8],
) -> Result<(), Refusal>
    requires divided { IsDivided tree.old regions.now }
    requires stands { map.get regions.now.exports root.now ≡ Some export }
    requires sent { export.state ≡ state.Sent }
    requires ranks { IsBetweenRanks export }
    ensures taken { OnOk result (TakesRegion tree.old tree.new regions.now root.now export bytes.now) }
    ensures refused { IfErr result
        (MayNotImport (λ count rank. LacksPlacesAt count tree.old rank)
        (state_of tree.old) regions.now.roots.roots root.now export bytes.now) }
    ensures left { OnErr result (state_of tree.new ≡ state_of tree.old) }
    ensures caches { IfErr result (KeepsRegion export.importer tree.old.caches tree.new.caches) }
    ensures still { OnErr result (IsDivided tree.new regions.now) }
    ensures shown { shown_in tree.new ≡ shown_in tree.old }
    ensures beside { tree.new ≡ record tree.old { caches = tree.new.caches } }
    ensures count { length tree.new.caches.used ≡ length tree.old.caches.used }
    ensures cap { tree.new.caches.cap ≡ tree.old.caches.cap }
    ensures sound { IsSoundCore tree.new }
{
    match sent_leaves(alloc, tree, regions, root, export, bytes) {
        Ok(region) => tree.hand_over(
            export.exporter,
            export.importer,
            region.unclean(),
            region.clean(),
        ),
        Err(refusal) => Err(refusal),
    }
}

// The leaves of the region of a sent export that its exporter caches, where the bytes are the region's.
fn sent_leaves<S: Store + Drop>(
    alloc: Global,
    tree: &MdCache<S>,
    regions: &Regions,
    root: &(Ino, Frag),
    export: StandingExport,
    bytes: &[u8],
) -> Result<RegionLeaves, Refusal>
    requires divided { IsDivided tree.now regions.now }
    requires stands { map.get regions.now.exports root.now ≡ Some export }
    requires sent { export.state ≡ state.Sent }
    requires ranks { IsBetweenRanks export }
    ensures cached { IfOk result
        (AreCachedOf (IsInRegionOf (state_of tree.now) regions.now.roots.roots root.now) tree.now.caches
        export.exporter.0) }
    ensures spelled { IfOk result
        (λ leaves. IsSpelledBy (state_of tree.now) regions.now.roots.roots root.now export bytes.now
        (length leaves.unclean)) }
    ensures refused { IfErr result (IsWrong (state_of tree.now) regions.now.roots.roots root.now export bytes.now) }
    ensures valid { OnOk result (AreCaches tree.now.caches) }
{
    let at = Dirfrag {
        dir: root.0,
        frag: root.1,
        rank: export.exporter,
    };
    let (caches, dirs) = (tree.caches(), tree.dirs());
    let found = spell_region(alloc, caches, &regions.roots, dirs, &at, export.importer)?;
    let Some(
        Spelled {
            leaves,
            bytes: right,
        },
    ) = found
    else {
        return Err(not_sent(root));
    };
    if !are_same(right.as_slice(), bytes) {
        return Err(not_sent(root));
    }
    Ok(leaves)
}

// Whether bytes are these.
fn are_same(bytes: &[u8], others: &[u8]) -> bool
    ensures { IsTrue result ↔ (bytes.now ≡ others.now) }
{
    bytes == others
}

// Other bytes than were sent: told with the root's object.
fn not_sent(root: &(Ino, Frag)) -> Refusal
    ensures { result ≡ Damaged (FragOf root.now.0 root.now.1) }
{
    Refusal::Damaged(ObjName::Frag(root.0, root.1))
}
