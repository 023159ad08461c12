//! The jobs of a region end: what is frozen has none.
ghost use Rattle.std.specs.Prelude.{◌≡◌};
ghost use Rattle.mdcache.specs.Core.{IsSoundCore, state_of};
ghost use Rattle.ranked_tree.specs.Exported.{EndsInside, EndsRegion};

use mdcache::MdCache;
use mds_types::{Frag, Ino};
use objstore::Store;
use subtree_map::Subtrees;

/// Gives up each job of a leaf in the region of a root. Takes no memory, and a climb for each job that stands.
pub(crate) fn end_region<S: Store + Drop>(
    tree: &mut MdCache<S>,
    roots: &Subtrees,
    root: &(Ino, Frag),
)
    requires sound { IsSoundCore tree.old }
    ensures ended { EndsRegion (state_of tree.old) (state_of tree.new) roots.now.roots root.now }
    ensures caches { tree.new.caches ≡ tree.old.caches }
    ensures faults { tree.new.faults ≡ tree.old.faults }
    ensures sound { IsSoundCore tree.new }
{
    let mut last = None;
    while let Some(leaf) = tree.next_job_leaf(last) {
        end_inside(tree, roots, root, leaf.0, leaf.1);
        last = Some(leaf);
    }
}

// Gives up the job of a leaf, if it is in the region of a root.
fn end_inside<S: Store + Drop>(
    tree: &mut MdCache<S>,
    roots: &Subtrees,
    root: &(Ino, Frag),
    dir: Ino,
    frag: Frag,
)
    requires sound { IsSoundCore tree.old }
    ensures ended { EndsInside roots.now.roots root.now (state_of tree.old) (state_of tree.new) (dir, frag) }
    ensures caches { tree.new.caches ≡ tree.old.caches }
    ensures faults { tree.new.faults ≡ tree.old.faults }
    ensures sound { IsSoundCore tree.new }
{
    if roots.find_root(tree.dirs(), dir, frag) == Some(*root) {
        tree.end_job(dir, frag);
    }
}
