//! The master of a request: the rank that answers it.
ghost use Rattle.std.specs.Prelude.{◌≡◌, ℕ, IfSome, MatchOption};
ghost use Rattle.mds_types.specs.Leaf.{leaf_of};
ghost use Rattle.namespace_ops.specs.Places.{AreLocated, IsAt};
ghost use Rattle.mdcache.specs.Core.{state_of as tree_state};
ghost use Rattle.mdcache.specs.Shown.{shown_tree};
ghost use Rattle.ranked_tree.specs.Ranked.{held_roots};
ghost use Rattle.ranked_tree.specs.Subtrees.{HoldsAt, Rules};
ghost use Rattle.cluster_core.specs.Master.{IsMasterIn};

use mds_types::{Op, Rank};
use namespace_ops::{Located, Places, locate};
use objstore::Store;
use ranked_tree::RankedTree;

/// Locates the names of an operation for the rank that serves it, and tells its master. The master is the authority of
/// its dentry's leaf; of a rename, that of the destination's; of a readdir, that of the directory's first leaf. If the
/// directory doesn't exist, the master is the serving rank itself. Takes no memory.
pub(crate) fn locate_master<S: Store + Drop>(
    tree: &RankedTree<S>,
    rank: Rank,
    op: &Op,
) -> (Places, Rank)
    ensures located { AreLocated (shown_tree (tree_state tree.now.tree)) tree.now.tree.covers
        (HoldsAt (tree_state tree.now.tree) (held_roots tree.now)) op.now result.0 }
    ensures master { IsMasterIn (tree_state tree.now.tree) tree.now.subtrees.roots rank op.now result.1 }
{
    let places = locate(tree, rank, op);
    (places, master_of(tree, rank, places.main))
}

/// Corrects a rank's hint on the subtree root that led it to another rank: from then on it names the authority that the
/// master names. Takes no memory.
pub(crate) fn correct_hint<S: Store + Drop>(tree: &mut RankedTree<S>, rank: Rank, places: &Places)
    ensures { tree.new ≡ tree.old }
{
    if let Some(located) = places.main {
        tree.correct_hint(rank, &located.at);
    }
}

// The authority of the leaf that was found, or the serving rank if none was.
fn master_of<S: Store + Drop>(tree: &RankedTree<S>, rank: Rank, found: Option<Located>) -> Rank
    requires { IfSome found
        (λ located. (dir hash : ℕ) × IsAt (shown_tree (tree_state tree.now.tree)) tree.now.tree.covers
        (HoldsAt (tree_state tree.now.tree) (held_roots tree.now)) dir hash located.at) }
    ensures { MatchOption found (result ≡ rank)
        (λ located. Rules (tree_state tree.now.tree) tree.now.subtrees.roots (leaf_of located.at) result) }
{
    match found {
        Some(located) => tree.authority_at(&located.at),
        None => rank,
    }
}
