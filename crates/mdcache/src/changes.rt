//! Changes of names and of the counts that go with them, and directories that come, move and go.
ghost use Rattle.std.specs.Prelude.{◌≡◌, ◌==◌, ◌+◌, ◌-◌, ◌<◌, ◌≤◌, ◌^◌, is_some, true, false, None, Some, IfSome, length, option_map, [], ◌∷◌};
ghost use Rattle.std.specs.FinMap as map;
ghost use Rattle.mds_types.specs.Tree.{is_dir_kind};
ghost use Rattle.mds_types.specs.Leaf.{leaf_of};
ghost use Rattle.dirfrag_codec.specs.EntryRecord.{IsRecordable};
ghost use Rattle.dentry_cache.specs.Cache.{HasRoom};
ghost use Rattle.dentry_cache.specs.CacheCalls.{KeepsNone};
ghost use Rattle.dentry_cache.specs.CacheMap.{has_place, here};
ghost use Rattle.inode_table.specs.Dirs.{MayCome, MayGo, MayMove, count_of, is_known};
ghost use Rattle.inode_table.specs.TreeTable.{counts_moved, with_home};
ghost use Rattle.mdcache.specs.Changes.{leaves_in};
ghost use Rattle.mdcache.specs.Core.{named, pinned, with_dir, with_entry_counted, without_dir, without_entry, without_frags};
ghost use Rattle.mdcache.specs.Frags.{HasListRoom};

use crate::mdcache::MdCache;
use crate::regrouping::object_name;
use cached_frag::CachedFrag;
use fragtree::FragTree;
use inode_table::{Home, count_move};
use mds_types::{Dirfrag, Frag, Ino, Inode, Name, ObjName, ObjText};
use objstore::Store;
use std::alloc::Global;

impl<S: Store + Drop> MdCache<S> {
    /// Gives a name of a leaf an inode; the name is dirty then, at the next version. Takes no memory.
    pub(crate) fn put(&mut self, at: Dirfrag, name: Name, inode: Inode)
        requires there { at.rank.0 < length self.old.caches.used }
        requires recordable { IsRecordable inode }
        requires room { HasRoom (here self.old.caches at.rank.0 (leaf_of at)) }
        requires number { self.old.next_version < 2 ^ 64 - 1 }
        ensures { self.new ≡ named self.old at name (Some inode) }
    {
        self.caches.put(at, name, inode, self.next.version);
        self.next.version += 1;
    }

    /// Removes a name of a leaf; the name is dirty then, at the next version. Takes no memory.
    pub(crate) fn erase(&mut self, at: Dirfrag, name: Name)
        requires there { at.rank.0 < length self.old.caches.used }
        requires room { HasRoom (here self.old.caches at.rank.0 (leaf_of at)) }
        requires number { self.old.next_version < 2 ^ 64 - 1 }
        ensures { self.new ≡ named self.old at name None }
    {
        self.caches.erase(at, name, self.next.version);
        self.next.version += 1;
    }

    /// An entry comes to a directory. Takes no memory.
    pub(crate) fn entry_comes(&mut self, dir: Ino)
        requires known { is_known self.old.homes dir.0 ≡ true }
        requires few { count_of self.old.counts dir.0 < 2 ^ 64 - 1 }
        ensures { self.new ≡ with_entry_counted self.old dir }
    {
        self.dirs.entry_comes(dir);
    }

    /// An entry of a directory goes. Takes no memory.
    pub(crate) fn entry_goes(&mut self, dir: Ino)
        requires { is_known self.old.homes dir.0 ≡ true }
        ensures { self.new ≡ without_entry self.old dir }
    {
        self.dirs.entry_goes(dir);
    }

    /// An entry moves from one directory to another, where something stood at its new name, or nothing. Takes no
    /// memory.
    pub(crate) fn entry_moves(&mut self, from: Ino, to: Ino, stood: bool)
        requires from { is_known self.old.homes from.0 ≡ true }
        requires to { is_known self.old.homes to.0 ≡ true }
        requires few { stood ≡ false → (from.0 == to.0) ≡ false → count_of self.old.counts to.0 < 2 ^ 64 - 1 }
        ensures { self.new ≡ record self.old { counts = counts_moved self.old.counts from.0 to.0 stood } }
    {
        count_move(&mut self.dirs, from, to, stood);
    }

    /// An inode that was set has its pin in the directory table, if it is a directory. Takes no memory.
    pub(crate) fn set_pin(&mut self, inode: &Inode)
        requires { is_dir_kind inode.now.kind ≡ true → is_some (map.get self.old.homes inode.now.ino.0) ≡ true }
        ensures { self.new ≡ pinned self.old inode.now }
    {
        if inode.kind.is_dir() {
            self.dirs.set_pin(inode.ino, inode.pin);
        }
    }

    /// A directory comes, with its one leaf, for which a place is kept. The leaf's object isn't to be removed then.
    /// Takes no memory.
    pub(crate) fn add_dir(&mut self, alloc: Global, at: Dirfrag, home: Home)
        requires room { 0 < self.old.room.dirs }
        requires may { MayCome self.old.homes at.dir.0 home }
        requires there { at.rank.0 < length self.old.caches.used }
        requires place { has_place self.old.caches at.rank.0 (leaf_of at) ≡ true }
        requires absent { map.get self.old.caches.held (leaf_of at) ≡ None }
        requires number { self.old.next_generation < 2 ^ 64 - 1 }
        ensures { self.new ≡ with_dir self.old at home self.new.room }
    {
        let object = object_name(at.dir, at.frag);
        self.dirs.adopt(at.dir, home);
        self.caches
            .fill(at, CachedFrag::fresh(alloc, self.next.generation));
        self.next.generation += 1;
        self.purge.remove(&object);
    }

    /// An inode that came to a name of a directory has its home there, if it is a directory itself. Takes no memory.
    pub(crate) fn relocate(&mut self, inode: &Inode, home: Home)
        requires { is_dir_kind inode.now.kind ≡ true → MayMove self.old.homes inode.now.ino.0 home }
        ensures { self.new ≡ record self.old
            { homes = with_home self.old.homes (record { dir = home.parent; name = home.name }) inode.now } }
    {
        if inode.kind.is_dir() {
            self.dirs.relocate(inode.ino, home);
        }
    }

    /// A directory goes that is no one's parent and not the root, or none: its home, its leaves with all that is cached
    /// of them at any rank and the jobs that stand for them, where no place is kept. The names of its objects, for which
    /// there is room, are on the purge list then. Takes no memory.
    pub(crate) fn remove_dir(&mut self, gone: Option<Ino>)
        requires may { IfSome gone (λ dir. MayGo self.old.homes dir.0) }
        requires room { HasListRoom self.old.covers self.old.room.purge gone }
        requires none { KeepsNone self.old.caches }
        ensures gone { self.new ≡ without_dir self.old gone self.new.room }
        ensures none { KeepsNone self.new.caches }
    {
        let Some(dir) = gone else {
            return;
        };
        let leaves = self.dirs.drop(dir);
        let object = ObjText::of(ObjName::Tree(dir));
        match leaves {
            Some(leaves) => {
                self.purge.put(object);
                self.end_tree(dir, leaves.as_tree());
                drop(leaves);
            }
            // in the order of their names, since one that is behind all others is put there at once
            None => {
                self.end_leaf(dir, Frag::ROOT);
                self.purge.put(object);
            }
        }
    }

    // All leaves of a directory end.
    fn end_tree(&mut self, dir: Ino, leaves: &FragTree)
        requires room { length leaves.now ≤ self.old.room.purge }
        requires none { KeepsNone self.old.caches }
        ensures ended { self.new ≡ without_frags self.old (leaves_in dir leaves.now) self.new.room }
        ensures none { KeepsNone self.new.caches }
    {
        for leaf in leaves {
            self.end_leaf(dir, leaf);
        }
    }

    /// These leaves of a directory end, where no place is kept: their places at any rank, their jobs, and the names of
    /// their objects are on the purge list, which has room for them. Takes no memory.
    pub(crate) fn end_leaves(&mut self, dir: Ino, leaves: &[Frag])
        requires room { length leaves.now ≤ self.old.room.purge }
        requires none { KeepsNone self.old.caches }
        ensures ended { self.new ≡ without_frags self.old (leaves_in dir leaves.now) self.new.room }
        ensures none { KeepsNone self.new.caches }
    {
        for leaf in leaves {
            self.end_leaf(dir, *leaf);
        }
    }

    // Ends one leaf of a directory.
    #[inline(always)]
    fn end_leaf(&mut self, dir: Ino, leaf: Frag)
        requires room { 0 < self.old.room.purge }
        requires none { KeepsNone self.old.caches }
        ensures ended { self.new ≡ without_frags self.old ((dir, leaf) ∷ []) self.new.room }
        ensures room { self.old.room.purge ≤ self.new.room.purge + 1 }
        ensures none { KeepsNone self.new.caches }
    {
        self.caches.end(dir, leaf);
        self.jobs.end(dir, leaf);
        self.purge.put(object_name(dir, leaf));
    }
}
