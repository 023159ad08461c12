//! The walk.
ghost use Rattle.std.specs.Prelude.{◌≡◌, ◌+◌, IfOk, IfErr, OnOk, OnErr, length};
ghost use Rattle.std.specs.FinMap as map;
ghost use Rattle.std.specs.Result.{result_err};
ghost use Rattle.sorted_map.specs.SortedMap.{contents};
ghost use Rattle.mds_types.specs.Tree.{dentry_cmp};
ghost use Rattle.objstore.specs.Omap.{key_cmp};
ghost use Rattle.objstore.specs.Objects.{faults_told};
ghost use Rattle.inode_table.specs.TreeTable.{IsCounted};
ghost use Rattle.cold_store.specs.Calls.{AreWalkCalls, IsWhollyRead};
ghost use Rattle.cold_store.specs.ColdTree.{IsColdTree};
ghost use Rattle.cold_store.specs.Rows.{IsWalkedTo, root_alone};
ghost use Rattle.cold_store.specs.Walked.{IsWalked, MayNotWalk};

use crate::found::Found;
use crate::reading::take_dir;
use crate::remaining::list_left;
use crate::walked::Walked;
use mds_types::Refusal;
use objstore::Store;
use std::alloc::Global;

/// What a store says on its own: directory 1 first, directories in the order in which they are found, of each its tree
/// object, then its leaves by value, of each the names in order. At last the entries are counted. It writes nothing.
/// Memory is linear in the names and the objects.
///
/// For each object that it reaches it asks for the header once, and for its pairs by pages of 64; for a tree object,
/// which has none, by a page of one. The names of all objects it asks for by pages of 64. Behind a faulty object, and
/// behind a call that is refused, it makes no call.
///
/// Refused `Damaged`, with the name of a faulty object, and otherwise as the store refuses a call (`StoreFault`), or
/// `NoMemory`. A store that has no object is refused too: directory 1 has no leaf there.
pub fn walk<S: Store>(alloc: Global, store: &mut S) -> Result<Walked, Refusal>
    ensures walked { IfOk result
        (λ w. IsWalked (S.objects store.old) (contents dentry_cmp w.entries) w.dirs.homes w.dirs.trees
        (contents key_cmp w.left)) }
    ensures counted { IfOk result (λ w. IsCounted (contents dentry_cmp w.entries) w.dirs.counts w.dirs.pins) }
    ensures cold { IfOk result (λ w. IsColdTree (S.objects store.old) (contents dentry_cmp w.entries)) }
    ensures refused { IfErr result (MayNotWalk (S.objects store.old) (S.faults store.old) (S.faults store.new)) }
    ensures same { S.objects store.new ≡ S.objects store.old }
    ensures faults { S.faults store.new ≡ S.faults store.old + faults_told (result_err result) }
    ensures called { AreWalkCalls S.IsCall (S.objects store.old) store.old (result_err result) store.new }
{
    let found = find(alloc, store)?;
    match list_left(alloc, store, &found) {
        Ok(left) => Ok(Walked::of(found, left).counted()),
        Err(refusal) => {
            drop(found);
            Err(refusal)
        }
    }
}

// All that the reached directories have.
fn find<S: Store>(alloc: Global, store: &mut S) -> Result<Found, Refusal>
    ensures found { IfOk result (λ found. IsWalkedTo (S.objects store.old) found (length found.shape.queue)) }
    ensures refused { IfErr result (MayNotWalk (S.objects store.old) (S.faults store.old) (S.faults store.new)) }
    ensures same { S.objects store.new ≡ S.objects store.old }
    ensures counted { S.faults store.new ≡ S.faults store.old + faults_told (result_err result) }
    ensures called { IfOk result
        (λ found. IsWhollyRead S.IsCall (S.objects store.old) found.shape.queue store.old store.new) }
    ensures ended { OnErr result (AreWalkCalls S.IsCall (S.objects store.old) store.old (result_err result) store.new) }
{
    let mut found = Found::new(alloc)?;
    match take_dirs(alloc, store, &mut found) {
        Ok(()) => Ok(found),
        Err(refusal) => {
            drop(found);
            Err(refusal)
        }
    }
}

// Adds the entries of all directories that are found.
fn take_dirs<S: Store>(alloc: Global, store: &mut S, found: &mut Found) -> Result<(), Refusal>
    requires { found.old ≡ record { shape = root_alone; covers = map.empty } }
    ensures found { OnOk result (IsWalkedTo (S.objects store.old) found.new (length found.new.shape.queue)) }
    ensures refused { IfErr result (MayNotWalk (S.objects store.old) (S.faults store.old) (S.faults store.new)) }
    ensures same { S.objects store.new ≡ S.objects store.old }
    ensures counted { S.faults store.new ≡ S.faults store.old + faults_told (result_err result) }
    ensures called { OnOk result
        (IsWhollyRead S.IsCall (S.objects store.old) found.new.shape.queue store.old store.new) }
    ensures ended { OnErr result (AreWalkCalls S.IsCall (S.objects store.old) store.old (result_err result) store.new) }
{
    let mut next = 0;
    while next < found.queue().len() {
        let dir = found.queue()[next];
        if let Err(refusal) = take_dir(alloc, store, found, dir) {
            return Err(refusal);
        }
        next += 1;
    }
    Ok(())
}
