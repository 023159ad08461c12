//! The bytes of an export that was sent, told anew.
ghost use Rattle.std.specs.Prelude.{IfErr, IfOk};
ghost use Rattle.mdcache.specs.Core.{state_of};
ghost use Rattle.ranked_tree.specs.Exported.{IsDivided};
ghost use Rattle.ranked_tree.specs.SentBytes.{RefusesSentBytes, SpellsSent};

use crate::ranked_tree::RankedTree;
use crate::regions::Regions;
use crate::sending::encoded;
use export_regions::export_of;
use export_steps::ExportState;
use mdcache::MdCache;
use mds_types::{Bytes, Dirfrag, Frag, Ino, Refusal};
use objstore::Store;
use std::alloc::Global;

impl<S: Store + Drop> RankedTree<S> {
    /// The bytes of each fragment of the region of a sent export that isn't clean, spelled as Send spells them: those
    /// that Import compares its bytes with. Nothing changes. Takes memory for the region's dirty names and for the
    /// bytes.
    ///
    /// # Errors In this order: `WrongExportState` where no sent export of this root stands, `TooManyFrags` where a
    /// fragment of the region has more than 2^32 - 1 dirty names, so that Send would have been refused, `NoMemory`.
    pub fn sent_bytes(&self, alloc: Global, dir: Ino, frag: Frag) -> Result<Bytes, Refusal>
        ensures spelled { IfOk result
            (SpellsSent (state_of self.now.tree) self.now.subtrees.roots self.now.exports (dir, frag)) }
        ensures refused { IfErr result
            (RefusesSentBytes (state_of self.now.tree) self.now.subtrees.roots self.now.exports (dir, frag)) }
    {
        bytes_of_sent(alloc, &self.tree, &self.regions, dir, frag)
    }
}

// The bytes of what isn't clean of the region of a sent export.
fn bytes_of_sent<S: Store + Drop>(
    alloc: Global,
    tree: &MdCache<S>,
    regions: &Regions,
    dir: Ino,
    frag: Frag,
) -> Result<Bytes, Refusal>
    requires divided { IsDivided tree.now regions.now }
    ensures spelled { IfOk result
        (SpellsSent (state_of tree.now) regions.now.roots.roots regions.now.exports (dir, frag)) }
    ensures refused { IfErr result
        (RefusesSentBytes (state_of tree.now) regions.now.roots.roots regions.now.exports (dir, frag)) }
{
    let Some(export) = regions.export_in(dir, frag, ExportState::Sent) else {
        return Err(Refusal::WrongExportState);
    };
    let root = Dirfrag {
        dir,
        frag,
        rank: export.exporter,
    };
    let (caches, dirs) = (tree.caches(), tree.dirs());
    let sent = export_of(alloc, caches, &regions.roots, dirs, root, export.importer)?;
    Ok(encoded(alloc, &sent)?)
}
