//! A directory of a store, read: its tree object, then its leaves by value, of each the names in order.
ghost use Rattle.std.specs.Prelude.{◌≡◌, ◌==◌, ◌+◌, length, not, true, false, IfOk, IfErr, OnErr, OnOk};
ghost use Rattle.std.specs.FinMap as map;
ghost use Rattle.std.specs.Result.{result_err};
ghost use Rattle.sorted_map.specs.SortedMap.{contents};
ghost use Rattle.mds_types.specs.declared.object_names.ObjName.TheVariants.{Frag as FragOf, Tree as TreeOf};
ghost use Rattle.mds_types.specs.declared.refusals.Refusal.TheVariants.{NoMemory};
ghost use Rattle.objstore.specs.Omap.{key_cmp};
ghost use Rattle.objstore.specs.Objects.{MayRefuse, faults_told};
ghost use Rattle.inode_table.specs.Dirs.{is_known, or_whole};
ghost use Rattle.dentry_cache.specs.Calls.{AreCalls, calls_to_load};
ghost use Rattle.dentry_cache.specs.Loading.{object_of};
ghost use Rattle.cold_store.specs.Calls.{AreDirCalls, AreLeafCalls, calls_for_tree};
ghost use Rattle.cold_store.specs.ColdTree.{tree_object_of};
ghost use Rattle.cold_store.specs.Rows.{AreGoodLeaves, IsBadAmong, IsBadIn, IsBadLeaf, IsBadTree, IsGoodDir, IsGoodLeaf, IsGoodTree, IsMetDir, HasPairs, MayNotAdd, are_new, cover_in, records_at, rows_in, rows_of, rows_under, with_cover, with_rows};
ghost use Rattle.cold_store.specs.Walked.{MayFail};

use crate::found::Found;
use dentry_cache::load;
use dirfrag_codec::decode_tree;
use fragtree::FragTree;
use inode_table::BoxedTree;
use mds_types::{Frag, Ino, Inode, Name, ObjName, Refusal, Spelt};
use objstore::{Page, Store};
use sorted_map::SortedMap;
use std::alloc::{AllocError, Global};

/// Adds the entries of a directory that was found: its tree is read, if its object is there, and then each leaf
/// (`load`).
///
/// Refused `Damaged`, with the name of the first object that is off, and otherwise as the store refuses a call, or
/// `NoMemory`. Behind an object that is off, or a call that is refused, the store isn't called.
pub fn take_dir<S: Store>(
    alloc: Global,
    store: &mut S,
    found: &mut Found,
    dir: Ino,
) -> Result<(), Refusal>
    requires { IsMetDir found.old.shape dir.0 }
    ensures good { OnOk result (IsGoodDir (S.objects store.old) found.old.shape dir) }
    ensures added { OnOk result (found.new.shape ≡ with_rows found.old.shape (rows_in (S.objects store.old) dir)) }
    ensures covers { OnOk result
        (found.new.covers ≡ with_cover found.old.covers dir (cover_in (S.objects store.old) dir)) }
    ensures refused { IfErr result
        (MayFail (IsBadIn (S.objects store.old) found.old.shape dir) (S.faults store.old) (S.faults store.new)) }
    ensures same { S.objects store.new ≡ S.objects store.old }
    ensures counted { S.faults store.new ≡ S.faults store.old + faults_told (result_err result) }
    ensures called { AreDirCalls S.IsCall (S.objects store.old) found.old.shape dir store.old (result_err result)
        store.new }
{
    let tree = read_tree(alloc, store, dir)?;
    let leaves = leaves_of(alloc, &tree)?;
    keep_tree(alloc, found, dir, tree)?;
    take_leaves(alloc, store, found, dir, &leaves)
}

// The tree that a directory's tree object spells, if the object is there.
fn read_tree<S: Store>(alloc: Global, store: &mut S, dir: Ino) -> Result<Option<FragTree>, Refusal>
    ensures good { IfOk result (IsGoodTree (tree_object_of (S.objects store.old) dir)) }
    ensures refused { IfErr result (MayFail (λ name. (name ≡ TreeOf dir)
        × IsBadTree (tree_object_of (S.objects store.old) dir)) (S.faults store.old) (S.faults store.new)) }
    ensures same { S.objects store.new ≡ S.objects store.old }
    ensures counted { S.faults store.new ≡ S.faults store.old + faults_told (result_err result) }
    ensures called { AreCalls S.IsCall (calls_for_tree (tree_object_of (S.objects store.old) dir)) store.old
        (result_err result) store.new }
{
    let text = Spelt::of(ObjName::Tree(dir));
    let name = text.as_str();
    let Some(header) = store.header(alloc, name)? else {
        return Ok(None);
    };
    let Some(tree) = decode_tree(alloc, header.as_slice())? else {
        return Err(Refusal::Damaged(ObjName::Tree(dir)));
    };
    if has_pairs(alloc, store, name)? {
        return Err(Refusal::Damaged(ObjName::Tree(dir)));
    }
    Ok(Some(tree))
}

// Whether an object has pairs.
fn has_pairs<S: Store>(alloc: Global, store: &mut S, text: &str) -> Result<bool, Refusal>
    ensures found { IfOk result (HasPairs (map.get (S.objects store.old) text.now)) }
    ensures refused { IfErr result (MayRefuse (S.faults store.old) (S.faults store.new)) }
    ensures same { S.objects store.new ≡ S.objects store.old }
    ensures counted { S.faults store.new ≡ S.faults store.old + faults_told (result_err result) }
    ensures called { AreCalls S.IsCall 1 store.old (result_err result) store.new }
{
    match store.page(alloc, text, None, 1)? {
        Some(page) => Ok(has_any(page)),
        None => Ok(false),
    }
}

// Whether a page has pairs.
fn has_any(page: Page) -> bool
    ensures { result ≡ not (length page.pairs == 0) }
{
    !page.into_pairs().is_empty()
}

// The leaves of a tree, and `*` alone where there is none.
fn leaves_of(alloc: Global, tree: &Option<FragTree>) -> Result<Vec<Frag>, AllocError>
    ensures { IfOk result (λ leaves. leaves.items ≡ or_whole tree.now) }
{
    match tree {
        Some(tree) => tree.leaves(alloc),
        None => FragTree::whole(alloc).leaves(alloc),
    }
}

// Gives a directory the leaves of its tree object, if that is there.
fn keep_tree(
    alloc: Global,
    found: &mut Found,
    dir: Ino,
    tree: Option<FragTree>,
) -> Result<(), AllocError>
    requires { is_known found.old.shape.homes dir.0 ≡ true }
    ensures shape { found.new.shape ≡ found.old.shape }
    ensures covers { OnOk result (found.new.covers ≡ with_cover found.old.covers dir tree) }
    ensures left { OnErr result (found.new ≡ found.old) }
{
    if let Some(tree) = tree {
        found.set_tree(dir, BoxedTree::new(alloc, tree)?);
    }
    Ok(())
}

// Adds the entries of leaves of a directory.
fn take_leaves<S: Store>(
    alloc: Global,
    store: &mut S,
    found: &mut Found,
    dir: Ino,
    leaves: &[Frag],
) -> Result<(), Refusal>
    requires { IsMetDir found.old.shape dir.0 }
    ensures good { OnOk result (AreGoodLeaves (S.objects store.old) found.old.shape dir leaves.now) }
    ensures added { OnOk result
        (found.new.shape ≡ with_rows found.old.shape (rows_under (S.objects store.old) dir leaves.now)) }
    ensures covers { found.new.covers ≡ found.old.covers }
    ensures refused { IfErr result
        (MayFail (IsBadAmong (S.objects store.old) found.old.shape dir leaves.now)
        (S.faults store.old) (S.faults store.new)) }
    ensures same { S.objects store.new ≡ S.objects store.old }
    ensures counted { S.faults store.new ≡ S.faults store.old + faults_told (result_err result) }
    ensures called { AreLeafCalls S.IsCall (S.objects store.old) found.old.shape dir leaves.now store.old
        (result_err result) store.new }
{
    for leaf in leaves {
        if let Err(refusal) = take_leaf(alloc, store, found, dir, *leaf) {
            return Err(refusal);
        }
    }
    Ok(())
}

// Adds the entries of a leaf.
fn take_leaf<S: Store>(
    alloc: Global,
    store: &mut S,
    found: &mut Found,
    dir: Ino,
    frag: Frag,
) -> Result<(), Refusal>
    requires { IsMetDir found.old.shape dir.0 }
    ensures good { OnOk result (IsGoodLeaf (S.objects store.old) found.old.shape (dir, frag)) }
    ensures added { OnOk result
        (found.new.shape ≡ with_rows found.old.shape (records_at (S.objects store.old) (dir, frag))) }
    ensures ready { OnOk result (IsMetDir found.new.shape dir.0) }
    ensures covers { found.new.covers ≡ found.old.covers }
    ensures refused { IfErr result (MayFail (λ name. (name ≡ FragOf dir frag)
        × IsBadLeaf (S.objects store.old) found.old.shape (dir, frag)) (S.faults store.old) (S.faults store.new)) }
    ensures same { S.objects store.new ≡ S.objects store.old }
    ensures counted { S.faults store.new ≡ S.faults store.old + faults_told (result_err result) }
    ensures called { AreCalls S.IsCall (calls_to_load frag (object_of (S.objects store.old) dir frag)) store.old
        (result_err result) store.new }
{
    match load(alloc, store, dir, frag) {
        Ok(loaded) => add_names(found, dir, frag, loaded.into_names()),
        Err(refusal) => Err(refusal),
    }
}

// Adds the entries of names of a leaf, in their order.
fn add_names(
    found: &mut Found,
    dir: Ino,
    frag: Frag,
    names: SortedMap<Name, Inode>,
) -> Result<(), Refusal>
    requires { IsMetDir found.old.shape dir.0 }
    ensures good { OnOk result
        (are_new found.old.shape (rows_of (dir, frag) (map.entries (contents key_cmp names))) ≡ true) }
    ensures added { OnOk result
        (found.new.shape ≡ with_rows found.old.shape (rows_of (dir, frag) (map.entries (contents key_cmp names)))) }
    ensures ready { OnOk result (IsMetDir found.new.shape dir.0) }
    ensures covers { found.new.covers ≡ found.old.covers }
    ensures refused { IfErr result
        (MayNotAdd dir frag (are_new found.old.shape (rows_of (dir, frag) (map.entries (contents key_cmp names))))) }
{
    for (name, inode) in names {
        if !found.add(dir, name, inode)? {
            return Err(Refusal::Damaged(ObjName::Frag(dir, frag)));
        }
    }
    Ok(())
}
