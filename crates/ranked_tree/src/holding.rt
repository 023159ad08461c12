//! Which rank holds a leaf: its authority, but from Import to Finish the importer of its region. No other rank caches
//! it.
ghost use Rattle.inode_table.specs.Dirs.{IsLive};
ghost use Rattle.mdcache.specs.Core.{state_of};
ghost use Rattle.mdcache.specs.Ranks.{MayHold};
ghost use Rattle.ranked_tree.specs.Exported.{held_in};
ghost use Rattle.ranked_tree.specs.Held.{IsOwned};
ghost use Rattle.ranked_tree.specs.Subtrees.{Rules};

use crate::regions::Regions;
use mdcache::MdCache;
use mds_types::{Frag, Ino, Rank};
use objstore::Store;

/// The rank that holds a leaf. Takes no memory.
pub(crate) fn holder_of<S: Store + Drop>(
    tree: &MdCache<S>,
    regions: &Regions,
    dir: Ino,
    frag: Frag,
) -> Rank
    requires live { IsLive tree.now.homes tree.now.covers (dir, frag) }
    requires owned { IsOwned tree.now (held_in regions.now) }
    ensures rules { Rules (state_of tree.now) (held_in regions.now) (dir, frag) result }
    ensures holds { MayHold tree.now.caches result (dir, frag) }
{
    regions.holder(tree.dirs(), dir, frag)
}
