//! The names of a directory, a page at a time: each of its leaves is asked at the rank that holds it.
ghost use Rattle.std.specs.Prelude.{◌≡◌, true, List, [], IfOk, IfErr, OnOk, length, nat_lt, take};
ghost use Rattle.std.specs.Result.{result_err};
ghost use Rattle.std.specs.Option.{option_copied};
ghost use Rattle.std.specs.FinMap as map;
ghost use Rattle.mds_types.specs.Frag.{Fragment};
ghost use Rattle.mds_types.specs.Step.{names_after};
ghost use Rattle.mds_types.specs.Tree.{is_directory};
ghost use Rattle.objstore.specs.Omap.{key_cmp};
ghost use Rattle.sorted_map.specs.Places.{puts};
ghost use Rattle.cached_frag.specs.Rows.{NamedInode, rows_after};
ghost use Rattle.inode_table.specs.Dirs.{IsLive, is_known, leaves_of};
ghost use Rattle.dentry_cache.specs.CacheMap.{unclean};
ghost use Rattle.mdcache.specs.Frags.{KeepsState};
ghost use Rattle.mdcache.specs.Pages.{IsPageOf, rows_gathered};
ghost use Rattle.mdcache.specs.Core.{state_of};
ghost use Rattle.mdcache.specs.Reads.{MayNotFind};
ghost use Rattle.mdcache.specs.Shown.{names_of, shown_tree};
ghost use Rattle.ranked_tree.specs.Held.{IsOwned, LacksPlacesDir, LacksPlacesFor, ReadsDir};
ghost use Rattle.ranked_tree.specs.Exported.{held_in};

use crate::holding::holder_of;
use crate::regions::Regions;
use mdcache::{MdCache, Page};
use mds_types::{Dirfrag, Frag, Ino, Listing, Name, PageSize, Refusal};
use objstore::Store;
use std::alloc::Global;

/// The first `max` names of a directory greater than `after`, or of all where none is given, in order, with their
/// inodes, and whether more follow. Its leaves are fetched one after the other, and each is left at its first name that
/// can't be in the page. Takes memory for the page, for a copy of what leaves there are, and for a leaf that is read.
///
/// Refused `NothingToEvict` where no place of a leaf's rank is free and no fragment can go, `StoreFault`, and
/// `NoMemory`.
pub(crate) fn list_dir<S: Store + Drop>(
    alloc: Global,
    tree: &mut MdCache<S>,
    regions: &Regions,
    dir: Ino,
    after: Option<&Name>,
    max: PageSize,
) -> Result<(Listing, bool), Refusal>
    requires known { is_directory (shown_tree (state_of tree.old)) dir.0 ≡ true }
    requires owned { IsOwned tree.old (held_in regions.now) }
    ensures listed { IfOk result
        (λ page. page.0 ≡ take max (names_after (shown_tree (state_of tree.old)) dir.0 (option_copied after.entry))) }
    ensures more { IfOk result
        (λ page. page.1 ≡ nat_lt max (length (names_after (shown_tree (state_of tree.old)) dir.0
        (option_copied after.entry)))) }
    ensures kept { KeepsState tree.old tree.new (result_err result) }
    ensures reads { ReadsDir (held_in regions.now) dir tree.old tree.new }
    ensures owned { IsOwned tree.new (held_in regions.now) }
    ensures refused { IfErr result
        (MayNotFind (LacksPlacesDir 1 tree.old (held_in regions.now) dir) tree.old.faults tree.new.faults) }
{
    let mut page = Page::new(alloc, max);
    if let Err(refusal) = gather_leaves(alloc, tree, regions, dir, after, &mut page) {
        return Err(refusal);
    }
    Ok(page.into_listing())
}

// Takes the names of a directory greater than `after` into a page, leaf by leaf.
fn gather_leaves<S: Store + Drop>(
    alloc: Global,
    tree: &mut MdCache<S>,
    regions: &Regions,
    dir: Ino,
    after: Option<&Name>,
    page: &mut Page,
) -> Result<(), Refusal>
    requires known { is_known tree.old.homes dir.0 ≡ true }
    requires owned { IsOwned tree.old (held_in regions.now) }
    ensures page { (whole : List NamedInode) → IsPageOf whole page.old
        → OnOk result (IsPageOf (rows_gathered (λ (f : Fragment). names_of (unclean tree.old.caches) tree.old.objects
        (dir, f)) (option_copied after.entry) whole (leaves_of tree.old.covers dir.0)) page.new) }
    ensures most { page.new.most ≡ page.old.most }
    ensures kept { KeepsState tree.old tree.new (result_err result) }
    ensures reads { ReadsDir (held_in regions.now) dir tree.old tree.new }
    ensures owned { IsOwned tree.new (held_in regions.now) }
    ensures refused { IfErr result
        (MayNotFind (LacksPlacesDir 1 tree.old (held_in regions.now) dir) tree.old.faults tree.new.faults) }
{
    let leaves = tree.dirs().tree(alloc, dir)?;
    for frag in &leaves {
        match gather_leaf(alloc, tree, regions, (dir, frag), after, page) {
            Ok(()) => {}
            Err(refusal) => return Err(refusal),
        }
    }
    Ok(())
}

// Takes the names of a leaf greater than `after` into a page; the leaf is fetched.
fn gather_leaf<S: Store + Drop>(
    alloc: Global,
    tree: &mut MdCache<S>,
    regions: &Regions,
    leaf: (Ino, Frag),
    after: Option<&Name>,
    page: &mut Page,
) -> Result<(), Refusal>
    requires live { IsLive tree.old.homes tree.old.covers leaf }
    requires owned { IsOwned tree.old (held_in regions.now) }
    ensures page { (whole : List NamedInode) → IsPageOf whole page.old
        → OnOk result (IsPageOf (puts key_cmp whole (rows_after (option_copied after.entry)
        (map.entries (names_of (unclean tree.old.caches) tree.old.objects leaf)))) page.new) }
    ensures most { page.new.most ≡ page.old.most }
    ensures kept { KeepsState tree.old tree.new (result_err result) }
    ensures reads { ReadsDir (held_in regions.now) leaf.0 tree.old tree.new }
    ensures owned { IsOwned tree.new (held_in regions.now) }
    ensures refused { IfErr result
        (MayNotFind (LacksPlacesFor 1 tree.old (held_in regions.now) leaf) tree.old.faults tree.new.faults) }
{
    let (dir, frag) = leaf;
    let rank = holder_of(tree, regions, dir, frag);
    tree.gather(alloc, &Dirfrag { dir, frag, rank }, after, page)
}
