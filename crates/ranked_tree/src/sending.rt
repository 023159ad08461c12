//! Send: what isn't clean of the region of a prepared export is handed out as bytes.
ghost use Rattle.std.specs.Prelude.{◌≡◌, Some, IfErr, IfOk, IsTrue, OnErr};
ghost use Rattle.std.specs.FinMap as map;
ghost use Rattle.export_bytes.specs.Export.{SpellsExport, is_sendable};
ghost use Rattle.export_steps.specs.declared.exports.ExportState.TheVariants as state;
ghost use Rattle.export_steps.specs.Standing.{IsBetweenRanks};
ghost use Rattle.mdcache.specs.Core.{state_of};
ghost use Rattle.ranked_tree.specs.Exported.{IsDivided};
ghost use Rattle.ranked_tree.specs.Ranked.{held_roots};
ghost use Rattle.ranked_tree.specs.Sending.{RefusesSend, Sends, SpellsPrepared};

use crate::ranked_tree::RankedTree;
use crate::regions::Regions;
use export_bytes::{Export, encode_export};
use export_regions::export_of;
use export_steps::{ExportState, StandingExport};
use mdcache::MdCache;
use mds_types::{Bytes, Dirfrag, Frag, Ino, Refusal};
use objstore::Store;
use std::alloc::{AllocError, Global};

impl<S: Store + Drop> RankedTree<S> {
    /// Send: the bytes of each fragment of a region that isn't clean are handed out, and its export goes from prepared
    /// to sent. The tree and the roots stay, and so does which rank holds each region. Takes memory for the region's
    /// dirty names and for the bytes; the step itself takes none.
    ///
    /// # Errors In this order: `WrongExportState` where no prepared export of this root stands, `TooManyFrags` where a
    /// fragment of the region has more than 2^32 - 1 dirty names, `NoMemory`; then all is left as it was.
    pub fn send(&mut self, alloc: Global, dir: Ino, frag: Frag) -> Result<Bytes, Refusal>
        ensures sent { IfOk result (λ bytes. Sends self.old self.new (dir, frag) bytes) }
        ensures refused { IfErr result
            (RefusesSend (state_of self.old.tree) self.old.subtrees.roots self.old.exports (dir, frag)) }
        ensures left { OnErr result (self.new.exports ≡ self.old.exports) }
        ensures tree { self.new.tree ≡ self.old.tree }
        ensures roots { self.new.subtrees ≡ self.old.subtrees }
        ensures holders { held_roots self.new ≡ held_roots self.old }
    {
        let Some(export) = self.regions.export_in(dir, frag, ExportState::Prepared) else {
            return Err(Refusal::WrongExportState);
        };
        let bytes = region_bytes(alloc, &self.tree, &self.regions, &(dir, frag), export)?;
        self.regions.exports.send(dir, frag, export);
        Ok(bytes)
    }
}

// The bytes of what isn't clean of the region of a prepared export.
fn region_bytes<S: Store + Drop>(
    alloc: Global,
    tree: &MdCache<S>,
    regions: &Regions,
    root: &(Ino, Frag),
    export: StandingExport,
) -> Result<Bytes, Refusal>
    requires divided { IsDivided tree.now regions.now }
    requires stands { map.get regions.now.exports root.now ≡ Some export }
    requires prepared { export.state ≡ state.Prepared }
    requires ranks { IsBetweenRanks export }
    ensures sent { IfOk result
        (λ bytes. SpellsPrepared (state_of tree.now) regions.now.roots.roots regions.now.exports root.now bytes) }
    ensures refused { IfErr result
        (RefusesSend (state_of tree.now) regions.now.roots.roots regions.now.exports root.now) }
{
    let at = Dirfrag {
        dir: root.0,
        frag: root.1,
        rank: export.exporter,
    };
    let (caches, dirs) = (tree.caches(), tree.dirs());
    let sent = export_of(alloc, caches, &regions.roots, dirs, at, export.importer)?;
    Ok(encoded(alloc, &sent)?)
}

// The bytes of what is sent.
pub(crate) fn encoded(alloc: Global, sent: &Export) -> Result<Bytes, AllocError>
    requires { IsTrue (is_sendable sent.now) }
    ensures { IfOk result (λ bytes. SpellsExport bytes sent.now) }
{
    Bytes::from_vec(alloc, encode_export(alloc, sent)?)
}
