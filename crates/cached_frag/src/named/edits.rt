//! Changes of one name. None of them takes memory.
ghost use Rattle.std.specs.Prelude.{◌≡◌, ◌<◌, ◌≤◌, ◌+◌, IfSome, Some, None};
ghost use Rattle.std.specs.FinMap as map;
ghost use Rattle.objstore.specs.Omap.{key_cmp};
ghost use Rattle.sorted_map.specs.SortedMap.{contents};
ghost use Rattle.dirfrag_codec.specs.EntryRecord.{IsRecordable};
ghost use Rattle.cached_frag.specs.Marks.{with_changed_name};
ghost use Rattle.cached_frag.specs.Cached.{marked, shown_names};
ghost use Rattle.cached_frag.specs.Counted.{counted_or};

use crate::bases::EntryCounts;
use crate::counting::{counted, recounted};
use crate::laws::dirty_names_are_recorded;
use crate::marks::Mark;
use crate::named::fragments::NamedFrag;
use mds_types::{Inode, Name};
use sorted_map::{Finger, SortedMap};

impl NamedFrag {
    /// Gives a name this inode, whether it was there or not. The name is dirty then, at this version. It is found at a
    /// comparison or two where the finger is that of the name.
    pub(crate) fn put(&mut self, near: &Finger, name: Name, inode: Inode, version: u64)
        requires recordable { IsRecordable inode }
        requires room { 0 < self.old.room }
        ensures marked { self.new ≡ marked self.old name (record { version = version; inode = Some inode }) }
        ensures shown { shown_names self.new ≡ map.insert (shown_names self.old) name inode }
    {
        let inode = Some(inode);
        self.mark(near, name, Mark { version, inode });
    }

    /// Removes a name, whether it was there or not. The name is dirty then, at this version. It is found as by `put`.
    pub(crate) fn erase(&mut self, near: &Finger, name: Name, version: u64)
        requires { 0 < self.old.room }
        ensures marked { self.new ≡ marked self.old name (record { version = version; inode = None }) }
        ensures shown { shown_names self.new ≡ map.remove (shown_names self.old) name }
    {
        let inode = None;
        self.mark(near, name, Mark { version, inode });
    }

    // Says what became of a name.
    fn mark(&mut self, near: &Finger, name: Name, mark: Mark)
        requires recordable { IfSome mark.inode IsRecordable }
        requires room { 0 < self.old.room }
        ensures marked { self.new ≡ marked self.old name mark }
        ensures shown { shown_names self.new ≡ with_changed_name (shown_names self.old) name mark.inode }
    {
        dirty_names_are_recorded(&name, &mark);
        let after = counted(mark.inode.as_ref());
        let below = counted(self.clean.get(&name));
        let before = put_mark(&mut self.dirty, near, name, mark, below);
        self.counts = recounted(self.counts, before, after);
        self.room -= 1;
    }
}

// Says what became of a name, where there is room, and tells what it counted as: `below`, unless it was dirty.
fn put_mark(
    dirty: &mut SortedMap<Name, Mark>,
    near: &Finger,
    name: Name,
    mark: Mark,
    below: EntryCounts,
) -> EntryCounts
    requires { 0 < dirty.old.room }
    ensures before { result ≡ counted_or (map.get (contents key_cmp dirty.old) name) below }
    ensures put { contents key_cmp dirty.new ≡ map.insert (contents key_cmp dirty.old) name mark }
    ensures room { dirty.old.room ≤ dirty.new.room + 1 }
{
    match dirty.insert_near(near, name, mark) {
        Some(before) => counted(before.inode.as_ref()),
        None => below,
    }
}
