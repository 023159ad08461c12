//! What a commit leaves of a fragment.
ghost use Rattle.std.specs.Prelude.{◌≡◌, ◌≤◌, ◌<◌, ◌+◌, ◌↔◌, IsTrue, IsOk, MatchOption, Option, OnOk, OnErr, Some, None, is_some};
ghost use Rattle.std.specs.FinMap as map;
ghost use Rattle.objstore.specs.Omap.{key_cmp};
ghost use Rattle.sorted_map.specs.SortedMap.{contents};
ghost use Rattle.cached_frag.specs.Marks.{AreDirtyNames, patched, with_changed_name};
ghost use Rattle.cached_frag.specs.Cached.{AreEntries, shown_names, unsettled};
ghost use Rattle.cached_frag.specs.Settling.{IsTakenFrom, settled_one, settled_in};

use crate::bases::Base;
use crate::dirty_names::DirtyNames;
use crate::marks::Mark;
use crate::named::fragments::NamedFrag;
use mds_types::{Inode, Name};
use sorted_map::SortedMap;
use std::alloc::AllocError;

impl NamedFrag {
    /// Makes room for a commit of this many names to become clean. Where it is there already nothing is done, and there
    /// is no error.
    pub(crate) fn reserve_settled(&mut self, names: usize) -> Result<(), AllocError>
        ensures ok { OnOk result (names ≤ self.new.places) }
        ensures same { self.new ≡ record self.old { places = self.new.places } }
        ensures grows { self.old.places ≤ self.new.places }
        ensures ready { names ≤ self.old.places → IsOk result × (self.new ≡ self.old) }
        ensures err { OnErr result (self.new ≡ self.old) }
    {
        self.clean.reserve(names)
    }

    /// What the commit of a snapshot with these names leaves, whose object is at this version now: a name that is dirty
    /// at the snapshot's version becomes clean, each other stays as it is. Takes no memory.
    pub(crate) fn settle(&mut self, names: &DirtyNames, version: u64)
        requires { map.len names.now ≤ self.old.places }
        ensures dirty { self.new.dirty ≡ unsettled self.old.dirty names.now }
        ensures base { self.new.base ≡ Base.Stored version }
        ensures generation { self.new.generation ≡ self.old.generation }
        ensures shown { shown_names self.new ≡ shown_names self.old }
    {
        settle_all(&mut self.clean, &mut self.dirty, names);
        self.base = Base::Stored(version);
        self.room = self.room.min(self.dirty.room());
    }
}

// Makes each of these names clean that hasn't changed since.
fn settle_all(
    clean: &mut SortedMap<Name, Inode>,
    dirty: &mut SortedMap<Name, Mark>,
    names: &DirtyNames,
)
    requires room { map.len names.now ≤ clean.old.room }
    requires entries { AreEntries (contents key_cmp clean.old) }
    requires marks { AreDirtyNames (contents key_cmp dirty.old) }
    ensures dirty { contents key_cmp dirty.new ≡ unsettled (contents key_cmp dirty.old) names.now }
    ensures shown { patched (contents key_cmp clean.new) (contents key_cmp dirty.new) ≡ patched
        (contents key_cmp clean.old) (contents key_cmp dirty.old) }
    ensures entries { AreEntries (contents key_cmp clean.new) }
    ensures marks { AreDirtyNames (contents key_cmp dirty.new) }
{
    if are_these(dirty, names) {
        make_clean(clean, dirty.take());
        // names that came in their order took half of the chunks that were made ready for any order
        clean.give_back();
        return;
    }
    settle_each(clean, dirty, names);
}

// So many names are made clean one by one, and their places kept for those that come next.
const FEW: usize = 32;

// Whether the dirty names are more than a few, and just these: none has changed since.
fn are_these(dirty: &SortedMap<Name, Mark>, names: &DirtyNames) -> bool
    ensures { IsTrue result → contents key_cmp dirty.now ≡ names.now }
{
    // The contract of `len` is what says here that the names of a map rise.
    let few = dirty.len() <= FEW;
    let names = names.as_map();
    let _ = names.len();
    !few && *dirty == *names
}

// Makes each of these names clean that hasn't changed since, one after the other.
fn settle_each(
    clean: &mut SortedMap<Name, Inode>,
    dirty: &mut SortedMap<Name, Mark>,
    names: &DirtyNames,
)
    requires room { map.len names.now ≤ clean.old.room }
    requires entries { AreEntries (contents key_cmp clean.old) }
    requires marks { AreDirtyNames (contents key_cmp dirty.old) }
    ensures dirty { contents key_cmp dirty.new ≡ unsettled (contents key_cmp dirty.old) names.now }
    ensures shown { patched (contents key_cmp clean.new) (contents key_cmp dirty.new) ≡ patched
        (contents key_cmp clean.old) (contents key_cmp dirty.old) }
    ensures entries { AreEntries (contents key_cmp clean.new) }
    ensures marks { AreDirtyNames (contents key_cmp dirty.new) }
{
    for (name, mark) in names.as_map() {
        settle_one(clean, dirty, name, mark.version);
    }
}

// Makes a name clean, if it is dirty at this version.
fn settle_one(
    clean: &mut SortedMap<Name, Inode>,
    dirty: &mut SortedMap<Name, Mark>,
    name: &Name,
    version: u64,
)
    requires room { 0 < clean.old.room }
    requires entries { AreEntries (contents key_cmp clean.old) }
    requires marks { AreDirtyNames (contents key_cmp dirty.old) }
    ensures dirty { contents key_cmp dirty.new ≡ settled_one (contents key_cmp dirty.old) name.now version }
    ensures shown { patched (contents key_cmp clean.new) (contents key_cmp dirty.new) ≡ patched
        (contents key_cmp clean.old) (contents key_cmp dirty.old) }
    ensures entries { AreEntries (contents key_cmp clean.new) }
    ensures marks { AreDirtyNames (contents key_cmp dirty.new) }
    ensures room { clean.old.room ≤ clean.new.room + 1 }
{
    let Some((name, mark)) = take_settled(dirty, name, version) else {
        return;
    };
    put_clean(clean, name, mark.inode);
}

// Takes a name out, if it is dirty at this version.
fn take_settled(
    dirty: &mut SortedMap<Name, Mark>,
    name: &Name,
    version: u64,
) -> Option<(Name, Mark)>
    ensures { IsTakenFrom (contents key_cmp dirty.old) (contents key_cmp dirty.new) name.now version result }
{
    if dirty.get(name)?.version != version {
        return None;
    }
    dirty.remove(name)
}

// What became of each of these names is what is clean now.
pub(crate) fn make_clean(clean: &mut SortedMap<Name, Inode>, dirty: SortedMap<Name, Mark>)
    requires { map.len (contents key_cmp dirty) ≤ clean.old.room }
    ensures { contents key_cmp clean.new ≡ patched (contents key_cmp clean.old) (contents key_cmp dirty) }
{
    for (name, mark) in dirty {
        put_clean(clean, name, mark.inode);
    }
}

// What became of a name is what is clean now.
fn put_clean(clean: &mut SortedMap<Name, Inode>, name: Name, inode: Option<Inode>)
    requires { 0 < clean.old.room }
    ensures put { contents key_cmp clean.new ≡ with_changed_name (contents key_cmp clean.old) name inode }
    ensures room { clean.old.room ≤ clean.new.room + 1 }
{
    match inode {
        Some(inode) => drop(clean.insert(name, inode)),
        None => drop(clean.remove(&name)),
    }
}
