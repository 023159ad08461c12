//! The names of the objects that a walk didn't reach.
ghost use Rattle.std.specs.Prelude.{◌≡◌, ◌+◌, List, None, ℕ, map as each, string_bytes, Option, IfOk, IfErr, OnOk, option_copied};
ghost use Rattle.std.specs.FinMap as map;
ghost use Rattle.std.specs.Result.{result_err};
ghost use Rattle.sorted_map.specs.SortedMap.{contents};
ghost use Rattle.mds_types.specs.ObjectText.{object_text};
ghost use Rattle.objstore.specs.Omap.{key_cmp};
ghost use Rattle.objstore.specs.Objects.{MayRefuse, faults_told};
ghost use Rattle.dentry_cache.specs.Calls.{AreCalls};
ghost use Rattle.cold_store.specs.Calls.{NamesLeft, name_pages};
ghost use Rattle.cold_store.specs.Left.{AreAllBut, AreNamesOf, EndsNames, IsLastOf, leaf_texts, texts_from, texts_in, with_keys, keys_without};

use crate::found::Found;
use inode_table::Dirs;
use mds_types::{Frag, Ino, ObjName, ObjText, Refusal, Spelt, Text, TextRef};
use objstore::Store;
use sorted_map::SortedMap;
use std::alloc::{AllocError, Global};

// How many names are read at once.
const PAGE: usize = 64;

/// The names of all objects but those of the leaves and trees of the directories that were found.
pub fn list_left<S: Store>(
    alloc: Global,
    store: &mut S,
    found: &Found,
) -> Result<SortedMap<ObjText, ()>, Refusal>
    ensures left { IfOk result
        (λ left. AreAllBut (S.objects store.old) (texts_from found.now.covers found.now.shape.queue)
        (contents key_cmp left)) }
    ensures refused { IfErr result (MayRefuse (S.faults store.old) (S.faults store.new)) }
    ensures same { S.objects store.new ≡ S.objects store.old }
    ensures counted { S.faults store.new ≡ S.faults store.old + faults_told (result_err result) }
    ensures called { AreCalls S.IsCall (name_pages (S.objects store.old) None) store.old (result_err result) store.new }
{
    let mut left = all_names(alloc, store)?;
    take_off(alloc, &mut left, found.dirs(), found.queue())?;
    Ok(left)
}

// The names of all objects.
fn all_names<S: Store>(alloc: Global, store: &mut S) -> Result<SortedMap<ObjText, ()>, Refusal>
    ensures named { IfOk result (λ names. AreNamesOf (S.objects store.old) (contents key_cmp names)) }
    ensures refused { IfErr result (MayRefuse (S.faults store.old) (S.faults store.new)) }
    ensures same { S.objects store.new ≡ S.objects store.old }
    ensures counted { S.faults store.new ≡ S.faults store.old + faults_told (result_err result) }
    ensures called { AreCalls S.IsCall (name_pages (S.objects store.old) None) store.old (result_err result) store.new }
{
    let mut names = SortedMap::new(alloc);
    let mut after = None;
    loop {
        match next_names(alloc, store, &mut names, after.as_ref())? {
            Some(last) => after = Some(last),
            None => return Ok(names),
        }
    }
}

// Adds the next names, and gives the last of them if more follow.
fn next_names<S: Store>(
    alloc: Global,
    store: &mut S,
    names: &mut SortedMap<ObjText, ()>,
    after: Option<&Text>,
) -> Result<Option<Text>, Refusal>
    ensures read { IfOk result
        (EndsNames (S.objects store.old) (option_copied after.entry)
        (contents key_cmp names.old) (contents key_cmp names.new)) }
    ensures refused { IfErr result (MayRefuse (S.faults store.old) (S.faults store.new)) }
    ensures same { S.objects store.new ≡ S.objects store.old }
    ensures counted { S.faults store.new ≡ S.faults store.old + faults_told (result_err result) }
    ensures left { IfOk result (NamesLeft (S.objects store.old) (option_copied after.entry)) }
    ensures called { AreCalls S.IsCall 1 store.old (result_err result) store.new }
{
    let page = store.names_page(alloc, text_of(after), PAGE)?;
    let last = last_of(alloc, page.more(), page.names())?;
    put_names(alloc, names, page.into_names())?;
    Ok(last)
}

// The text, borrowed.
fn text_of(text: Option<&Text>) -> Option<&str>
    ensures { option_copied result ≡ option_copied text.entry }
{
    match text {
        Some(text) => Some(text.as_str()),
        None => None,
    }
}

// The last of these names, if more follow.
fn last_of(alloc: Global, more: bool, names: &[String]) -> Result<Option<Text>, AllocError>
    ensures { IfOk result (IsLastOf more (each string_bytes names.now)) }
{
    if !more {
        return Ok(None);
    }
    match names.last() {
        Some(name) => Ok(Some(Text::copy_of(alloc, name.as_str())?)),
        None => Ok(None),
    }
}

// Adds all of these names.
fn put_names(
    alloc: Global,
    names: &mut SortedMap<ObjText, ()>,
    page: Vec<String>,
) -> Result<(), AllocError>
    ensures { OnOk result
        (contents key_cmp names.new ≡ with_keys (contents key_cmp names.old) (each string_bytes page.items)) }
{
    for name in page {
        put_name(alloc, names, name.as_str())?;
    }
    Ok(())
}

// Adds a name.
fn put_name(alloc: Global, names: &mut SortedMap<ObjText, ()>, name: &str) -> Result<(), AllocError>
    ensures { OnOk result
        (contents key_cmp names.new ≡ map.insert (contents key_cmp names.old) name.now tt) }
{
    names.reserve(1)?;
    let _ = names.insert(ObjText::other(Text::copy_of(alloc, name)?), ());
    Ok(())
}

// Takes the names of the objects of these directories off.
fn take_off(
    alloc: Global,
    left: &mut SortedMap<ObjText, ()>,
    dirs: &Dirs,
    queue: &[Ino],
) -> Result<(), AllocError>
    ensures { OnOk result
        (contents key_cmp left.new ≡ keys_without (contents key_cmp left.old) (texts_from dirs.now.trees queue.now)) }
{
    for dir in queue {
        take_off_dir(alloc, left, dirs, *dir)?;
    }
    Ok(())
}

// Takes the names of a directory's tree object and of the objects of its leaves off.
fn take_off_dir(
    alloc: Global,
    left: &mut SortedMap<ObjText, ()>,
    dirs: &Dirs,
    dir: Ino,
) -> Result<(), AllocError>
    ensures { OnOk result
        (contents key_cmp left.new ≡ keys_without (contents key_cmp left.old) (texts_in dirs.now.trees dir)) }
{
    take_off_name(left, ObjName::Tree(dir));
    let leaves = dirs.tree(alloc, dir)?.leaves(alloc)?;
    take_off_leaves(left, dir, &leaves);
    Ok(())
}

// Takes the names of the objects of leaves off.
fn take_off_leaves(left: &mut SortedMap<ObjText, ()>, dir: Ino, leaves: &[Frag])
    ensures { contents key_cmp left.new ≡ keys_without (contents key_cmp left.old) (leaf_texts dir leaves.now) }
{
    for leaf in leaves {
        take_off_name(left, ObjName::Frag(dir, *leaf));
    }
}

// Takes the name of an object off.
fn take_off_name(left: &mut SortedMap<ObjText, ()>, name: ObjName)
    ensures { contents key_cmp left.new ≡ map.remove (contents key_cmp left.old) (object_text name) }
{
    let text = Spelt::of(name);
    let _ = left.remove(&TextRef {
        text: text.as_str(),
    });
}
