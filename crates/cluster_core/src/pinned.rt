//! Whether leaves of a directory or of a region are granted. No memory is taken.
ghost use Rattle.std.specs.Prelude.{◌↔◌, IsTrue};
ghost use Rattle.cluster_core.specs.Administers.{IsAnyPinned};
ghost use Rattle.cluster_core.specs.Exporting.{HasPinnedUnder};

use inboxes::Pins;
use inode_table::Dirs;
use mds_types::{Frag, Ino};
use objstore::Store;
use ranked_tree::{RankedTree, leaf_inside};
use subtree_map::end_of;

/// Whether a leaf is granted that is in the region which a leaf has as a subtree root. For each grant this climbs up
/// the tree.
pub fn is_region_pinned<S: Store + Drop>(
    tree: &RankedTree<S>,
    pins: &Pins,
    dir: Ino,
    frag: Frag,
) -> bool
    ensures { IsTrue result ↔ HasPinnedUnder tree.now.subtrees.roots tree.now.tree.homes tree.now.tree.covers pins.now
        (dir, frag) }
{
    let root = (dir, frag);
    for pin in pins.as_slice() {
        if tree.is_under(&root, &(pin.dir, pin.frag)) {
            return true;
        }
    }
    false
}

/// Whether a leaf of a directory that is properly inside a fragment is granted. Takes no memory.
pub fn is_any_pinned<S: Store + Drop>(
    tree: &RankedTree<S>,
    pins: &Pins,
    dir: Ino,
    frag: Frag,
) -> bool
    ensures { IsTrue result ↔ IsAnyPinned tree.now.tree.homes tree.now.tree.covers pins.now dir frag }
{
    some_pinned(tree.dirs(), pins, dir, frag)
}

// Whether a leaf inside a fragment is granted.
fn some_pinned(dirs: &Dirs, pins: &Pins, dir: Ino, frag: Frag) -> bool
    ensures { IsTrue result ↔ IsAnyPinned dirs.now.homes dirs.now.trees pins.now dir frag }
{
    if !dirs.contains(dir) {
        return false;
    }
    let mut hash = frag.value();
    while let Some(leaf) = leaf_inside(dirs, dir, frag, hash) {
        if pins.is_pinned(dir, leaf) {
            return true;
        }
        hash = end_of(leaf);
    }
    false
}
