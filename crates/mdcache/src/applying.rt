//! The steps of a change for which all is ready. None takes memory, and none can fail.
ghost use Rattle.std.specs.Prelude.{◌≡◌, ◌==◌, ◌+◌, ◌-◌, ◌<◌, ◌^◌, true, false, is_some, Some, None, IfSome, length, option_map, ◌≤◌};
ghost use Rattle.std.specs.FinMap as map;
ghost use Rattle.mds_types.specs.Frag.{root_fragment};
ghost use Rattle.mds_types.specs.Leaf.{leaf_of};
ghost use Rattle.mds_types.specs.Tree.{is_dir_kind};
ghost use Rattle.dirfrag_codec.specs.EntryRecord.{IsRecordable};
ghost use Rattle.cached_frag.specs.Cached.{Cached};
ghost use Rattle.dentry_cache.specs.Cache.{HasCached, HasRoom};
ghost use Rattle.dentry_cache.specs.CacheCalls.{KeepsNone};
ghost use Rattle.dentry_cache.specs.CacheMap.{here};
ghost use Rattle.dentry_cache.specs.CacheSplits.{IsKeptFor};
ghost use Rattle.inode_table.specs.Dirs.{MayCome, MayGo, MayMove, count_of, is_known};
ghost use Rattle.inode_table.specs.TreeTable.{with_home};
ghost use Rattle.mdcache.specs.Changes.{first_leaf};
ghost use Rattle.mdcache.specs.Core.{moved_entry, named, pinned, shows, with_dir, with_entry_counted, without_dir, without_entry};
ghost use Rattle.mdcache.specs.Frags.{HasListRoom};

use crate::mdcache::MdCache;
use inode_table::Home;
use mds_types::{Dirfrag, Frag, Ino, Inode, Name};
use namespace_ops::Spot;
use objstore::Store;

impl<S: Store + Drop> MdCache<S> {
    /// A new inode that is no directory comes to a dentry, and is counted.
    pub(crate) fn come_file(&mut self, spot: Spot, inode: Inode)
        requires there { spot.at.rank.0 < length self.old.caches.used }
        requires recordable { IsRecordable inode }
        requires room { HasRoom (here self.old.caches spot.at.rank.0 (leaf_of spot.at)) }
        requires version { self.old.next_version < 2 ^ 64 - 1 }
        requires known { is_known self.old.homes spot.at.dir.0 ≡ true }
        requires few { count_of self.old.counts spot.at.dir.0 < 2 ^ 64 - 1 }
        ensures { self.new ≡ with_entry_counted (named self.old spot.at spot.name (Some inode)) spot.at.dir }
    {
        self.put(spot.at, spot.name, inode);
        self.entry_comes(spot.at.dir);
    }

    /// The inode at a dentry gets other attributes, and a directory its pin.
    pub(crate) fn put_altered(&mut self, spot: Spot, inode: Inode)
        requires there { spot.at.rank.0 < length self.old.caches.used }
        requires recordable { IsRecordable inode }
        requires room { HasRoom (here self.old.caches spot.at.rank.0 (leaf_of spot.at)) }
        requires version { self.old.next_version < 2 ^ 64 - 1 }
        requires listed { is_dir_kind inode.kind ≡ true → is_some (map.get self.old.homes inode.ino.0) ≡ true }
        ensures { self.new ≡ pinned (named self.old spot.at spot.name (Some inode)) inode }
    {
        self.set_pin(&inode);
        self.put(spot.at, spot.name, inode);
    }

    /// A new directory comes to a dentry: its name first, which is counted, then the directory with its leaf.
    pub(crate) fn come_directory(&mut self, spot: Spot, inode: Inode, name: Name)
        requires there { spot.at.rank.0 < length self.old.caches.used }
        requires recordable { IsRecordable inode }
        requires room { HasRoom (here self.old.caches spot.at.rank.0 (leaf_of spot.at)) }
        requires version { self.old.next_version < 2 ^ 64 - 1 }
        requires home { 0 < self.old.room.dirs }
        requires known { is_known self.old.homes spot.at.dir.0 ≡ true }
        requires few { count_of self.old.counts spot.at.dir.0 < 2 ^ 64 - 1 }
        requires may { MayCome self.old.homes inode.ino.0 (record { parent = spot.at.dir; name = name }) }
        requires place { IsKeptFor self.old.caches spot.at.rank.0 (first_leaf inode.ino) }
        requires generation { self.old.next_generation < 2 ^ 64 - 1 }
        ensures { self.new ≡ with_dir (with_entry_counted (named self.old spot.at spot.name (Some inode)) spot.at.dir)
            (record { dir = inode.ino; frag = root_fragment; rank = spot.at.rank })
            (record { parent = spot.at.dir; name = name }) self.new.room }
    {
        let first = Dirfrag {
            dir: inode.ino,
            frag: Frag::ROOT,
            rank: spot.at.rank,
        };
        let home = Home {
            parent: spot.at.dir,
            name,
        };
        self.put(spot.at, spot.name, inode);
        self.entry_comes(spot.at.dir);
        self.add_dir(self.alloc, first, home);
    }

    /// The name of a dentry is removed, and counted no longer, and the directory that stood there, if one did.
    pub(crate) fn leave(&mut self, spot: Spot, gone: Option<Ino>)
        requires there { spot.at.rank.0 < length self.old.caches.used }
        requires room { HasRoom (here self.old.caches spot.at.rank.0 (leaf_of spot.at)) }
        requires version { self.old.next_version < 2 ^ 64 - 1 }
        requires known { is_known self.old.homes spot.at.dir.0 ≡ true }
        requires may { IfSome gone (λ dir. MayGo self.old.homes dir.0) }
        requires purge { HasListRoom self.old.covers self.old.room.purge gone }
        requires none { KeepsNone self.old.caches }
        ensures none { KeepsNone self.new.caches }
        ensures gone { self.new ≡ without_dir (without_entry (named self.old spot.at spot.name None) spot.at.dir) gone
            self.new.room }
    {
        self.erase(spot.at, spot.name);
        self.entry_goes(spot.at.dir);
        self.remove_dir(gone);
    }

    /// The name that is left is removed, then the inode comes to the other, whose name is given once more, and what stood
    /// there goes; entries are counted by whether something did.
    pub(crate) fn pass(&mut self, from: Spot, to: Spot, inode: Inode, name: Name, gone: Option<Ino>)
        requires first { from.at.rank.0 < length self.old.caches.used }
        requires second { to.at.rank.0 < length self.old.caches.used }
        requires recordable { IsRecordable inode }
        requires source { HasCached (here self.old.caches from.at.rank.0 (leaf_of from.at))
            (λ (f : Cached). 1 < f.room) }
        requires target { HasRoom (here self.old.caches to.at.rank.0 (leaf_of to.at)) }
        requires version { self.old.next_version < 2 ^ 64 - 2 }
        requires from { is_known self.old.homes from.at.dir.0 ≡ true }
        requires to { is_known self.old.homes to.at.dir.0 ≡ true }
        requires few { shows self.old to.at to.name ≡ false → (from.at.dir.0 == to.at.dir.0) ≡ false
            → count_of self.old.counts to.at.dir.0 < 2 ^ 64 - 1 }
        requires home { is_dir_kind inode.kind ≡ true → MayMove self.old.homes inode.ino.0
            (record { parent = to.at.dir; name = name }) }
        requires may { IfSome gone
            (λ dir. MayGo (with_home self.old.homes (record { dir = to.at.dir; name = name }) inode) dir.0) }
        requires purge { HasListRoom self.old.covers self.old.room.purge gone }
        requires none { KeepsNone self.old.caches }
        ensures none { KeepsNone self.new.caches }
        ensures moved { self.new ≡ without_dir (moved_entry self.old from.at from.name to.at to.name name inode) gone
            self.new.room }
    {
        let stood = self.caches.shows(to.at, &to.name);
        self.erase(from.at, from.name);
        self.entry_moves(from.at.dir, to.at.dir, stood);
        let home = Home {
            parent: to.at.dir,
            name,
        };
        self.relocate(&inode, home);
        self.put(to.at, to.name, inode);
        self.remove_dir(gone);
    }
}
