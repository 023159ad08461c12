//! The leaves of a directory inside a fragment: each is asked once, and no memory is taken.
ghost use Rattle.std.specs.Prelude.{◌≡◌, ◌↔◌, ◌≤◌, IsTrue};
ghost use Rattle.fragtree.specs.FragTree.{lies_inside};
ghost use Rattle.inode_table.specs.Dirs.{leaves_of};
ghost use Rattle.subtree_map.specs.Authority.{IsSubtrees};
ghost use Rattle.ranked_tree.specs.Exported.{IsAnyFrozen};
ghost use Rattle.ranked_tree.specs.Subtrees.{AllHave, IsInsideAt};

use crate::regions::Regions;
use inode_table::Dirs;
use mds_types::{Frag, Ino, Rank};
use subtree_map::{Subtrees, end_of};

/// Whether each leaf inside a fragment has this rank as its authority.
pub(crate) fn all_have(dirs: &Dirs, roots: &Subtrees, dir: Ino, frag: Frag, rank: Rank) -> bool
    requires valid { IsSubtrees roots.now.roots dirs.now.homes dirs.now.trees }
    ensures { IsTrue result ↔ AllHave dirs.now.homes dirs.now.trees roots.now.roots dir frag rank }
{
    if !dirs.contains(dir) {
        return true;
    }
    let mut hash = frag.value();
    while let Some(leaf) = leaf_inside(dirs, dir, frag, hash) {
        if roots.authority(dirs, dir, leaf) != rank {
            return false;
        }
        hash = end_of(leaf);
    }
    true
}

/// Whether a leaf inside a fragment is frozen.
pub(crate) fn some_frozen(dirs: &Dirs, regions: &Regions, dir: Ino, frag: Frag) -> bool
    ensures { IsTrue result ↔ IsAnyFrozen regions.now.exports regions.now.roots.roots
        dirs.now.homes dirs.now.trees dir frag }
{
    if !dirs.contains(dir) {
        return false;
    }
    let mut hash = frag.value();
    while let Some(leaf) = leaf_inside(dirs, dir, frag, hash) {
        if regions.exports.is_frozen(&regions.roots, dirs, dir, leaf) {
            return true;
        }
        hash = end_of(leaf);
    }
    false
}

/// The leaf properly inside a fragment that contains a hash from its first one on, if one does; otherwise each of those
/// inside begins before the hash. With `end_of` it walks over all leaves inside. Takes no memory.
pub fn leaf_inside(dirs: &Dirs, dir: Ino, frag: Frag, hash: u32) -> Option<Frag>
    requires { frag.value ≤ hash }
    ensures { IsInsideAt (leaves_of dirs.now.trees dir.0) frag hash result }
{
    if hash >= end_of(frag) {
        return None;
    }
    let leaf = dirs.pick(dir, hash);
    if !lies_inside(frag, leaf) {
        return None;
    }
    Some(leaf)
}

// Whether a fragment lies properly inside another.
fn lies_inside(frag: Frag, leaf: Frag) -> bool
    ensures { result ≡ lies_inside frag leaf }
{
    frag.bits() < leaf.bits() && frag.contains_frag(leaf)
}
