//! Reads of the tree that is shown.
ghost use Rattle.std.specs.Prelude.{◌≡◌, ◌+◌, true, not, IfOk, IfErr, OnOk};
ghost use Rattle.std.specs.Result.{result_err};
ghost use Rattle.std.specs.FinMap as map;
ghost use Rattle.mds_types.specs.Tree.{has_entries, is_above, is_directory};
ghost use Rattle.mds_types.specs.Leaf.{leaf_of};
ghost use Rattle.fragtree.specs.FragTree.{IsPick};
ghost use Rattle.namehash.specs.Rjenkins.{hash_of};
ghost use Rattle.objstore.specs.Objects.{faults_told};
ghost use Rattle.dentry_cache.specs.Came.{IsThat, NoneEnds};
ghost use Rattle.inode_table.specs.Dirs.{leaves_of};
ghost use Rattle.mdcache.specs.CacheReads.{IsNewestOf};
ghost use Rattle.mdcache.specs.Core.{IsSoundCore, LacksPlacesAt, ReadsCore, shown_in};
ghost use Rattle.mdcache.specs.Ranks.{MayHold};
ghost use Rattle.mdcache.specs.Reads.{MayNotFind};

use crate::mdcache::MdCache;
use mds_types::{Dirfrag, Ino, Inode, Name, Refusal};
use objstore::Store;
use std::alloc::Global;

impl<S: Store + Drop> MdCache<S> {
    /// Whether this is the number of a directory of the tree now. Takes no memory.
    pub fn is_dir(&self, dir: Ino) -> bool
        requires { IsSoundCore self.now }
        ensures { result ≡ is_directory (shown_in self.now) dir.0 }
    {
        self.dirs.contains(dir)
    }

    /// Whether nothing is in a directory, as its count tells: no leaf is fetched. Takes no memory, and one search of the
    /// directory table.
    pub fn is_dir_empty(&self, dir: Ino) -> bool
        requires { IsSoundCore self.now }
        ensures { result ≡ not (has_entries (shown_in self.now) dir.0) }
    {
        self.dirs.count(dir) == 0
    }

    /// Whether the directory `dir` is above the directory `below`. Takes no memory.
    pub fn is_above(&self, dir: Ino, below: Ino) -> bool
        requires sound { IsSoundCore self.now }
        requires below { is_directory (shown_in self.now) below.0 ≡ true }
        ensures { result ≡ is_above (shown_in self.now) dir.0 below.0 }
    {
        self.dirs.is_above(dir, below)
    }

    /// The inode that a name stands for in a leaf to which its hash belongs, copied. The leaf is fetched into the cache
    /// of the rank that holds it, where it isn't cached. Takes memory for a leaf that is read, and for a link's target.
    ///
    /// Refused `NothingToEvict` where no place of the cache is free and no fragment can go, `StoreFault`, and
    /// `NoMemory`.
    pub fn look(
        &mut self,
        alloc: Global,
        at: &Dirfrag,
        name: &Name,
    ) -> Result<Option<Inode>, Refusal>
        requires sound { IsSoundCore self.old }
        requires holds { MayHold self.old.caches at.now.rank (leaf_of at.now) }
        requires known { is_directory (shown_in self.old) at.now.dir.0 ≡ true }
        requires leaf { IsPick (leaves_of self.old.covers at.now.dir.0) (hash_of name.now) at.now.frag }
        ensures found { IfOk result
            (λ found. found ≡ map.get (shown_in self.old) (record { dir = at.now.dir; name = name.now })) }
        ensures newest { OnOk result (IsNewestOf self.new.caches at.now.rank.0 (leaf_of at.now)) }
        ensures reads { ReadsCore (IsThat at.now.rank.0 (leaf_of at.now)) NoneEnds self.old self.new }
        ensures sound { IsSoundCore self.new }
        ensures counted { self.new.faults ≡ self.old.faults + faults_told (result_err result) }
        ensures refused { IfErr result
            (MayNotFind (LacksPlacesAt 1 self.old at.now.rank) self.old.faults self.new.faults) }
    {
        self.find(alloc, at, name)
    }
}
