//! A change of the tree is made: all that it takes comes first, and then its steps, which can't fail.
ghost use Rattle.std.specs.Prelude.{◌≡◌, ◌+◌, ◌<◌, ◌≤◌, ◌^◌, true, false, OnOk};
ghost use Rattle.std.specs.Result.{result_err};
ghost use Rattle.mds_types.specs.Tree.{is_dir_kind};
ghost use Rattle.objstore.specs.Objects.{faults_told};
ghost use Rattle.dirfrag_codec.specs.EntryRecord.{HasTarget, IsRankNumber};
ghost use Rattle.namespace_ops.specs.Changes.{IsNumbered, MayChange, adds, moves, removes, sets};
ghost use Rattle.mdcache.specs.Changing.{ChangesTree};
ghost use Rattle.mdcache.specs.Core.{IsSoundCore, shown_in, state_of};
ghost use Rattle.mdcache.specs.Frags.{LacksToMake};
ghost use Rattle.mdcache.specs.Ranks.{MayHoldEach};

use crate::mdcache::MdCache;
use crate::readying::has_records;
use mds_types::{Ino, Inode, Kind, Refusal};
use namespace_ops::{Change, Spot};
use objstore::Store;
use std::alloc::Global;

impl<S: Store + Drop> MdCache<S> {
    /// Makes a change that may be made: its leaves are cached, each at its holder, its names are dirty there at the
    /// next versions, and a directory that comes, moves or goes does so in the table. A leaf that stood keeps the
    /// generation of its fragment; one that was fetched has generation 0. A new inode has a number of a rank. Takes
    /// memory before its first step.
    ///
    /// Refused `NoInodes` exactly where versions lack for the names that change, or a generation for the leaf of a new
    /// directory; otherwise `NothingToEvict` where fewer than two places of a holder are free or can become so,
    /// `StoreFault`, and `NoMemory`. Nothing is changed then, but leaves may have been read.
    pub fn change(&mut self, alloc: Global, change: Change) -> Result<(), Refusal>
        requires sound { IsSoundCore self.old }
        requires holds { MayHoldEach self.old.caches change }
        requires may { MayChange (shown_in self.old) self.old.covers change }
        requires numbered { IsNumbered IsRankNumber change }
        ensures changed { ChangesTree change self.old self.new result }
        ensures numbers { OnOk result (LacksToMake change (state_of self.old) → ⊥) }
        ensures sound { IsSoundCore self.new }
        ensures counted { self.new.faults ≡ self.old.faults + faults_told (result_err result) }
    {
        let Change {
            takes,
            puts,
            comes,
            gone,
        } = change;
        match (takes, puts) {
            (None, Some((spot, inode))) => {
                if comes {
                    self.add_entry(alloc, spot, inode)
                } else {
                    self.set_entry(alloc, spot, inode)
                }
            }
            (Some(spot), None) => self.remove_entry(alloc, spot, gone),
            (Some(from), Some((to, inode))) => self.move_entry(alloc, from, to, inode, gone),
            (None, None) => unreachable!(),
        }
    }

    // A new inode comes to a dentry.
    fn add_entry(&mut self, alloc: Global, spot: Spot, inode: Inode) -> Result<(), Refusal>
        requires sound { IsSoundCore self.old }
        requires holds { MayHoldEach self.old.caches (adds spot inode) }
        requires may { MayChange (shown_in self.old) self.old.covers (adds spot inode) }
        requires number { IsRankNumber inode.ino.0 }
        ensures changed { ChangesTree (adds spot inode) self.old self.new result }
        ensures numbers { OnOk result (LacksToMake (adds spot inode) (state_of self.old) → ⊥) }
        ensures sound { IsSoundCore self.new }
        ensures counted { self.new.faults ≡ self.old.faults + faults_told (result_err result) }
    {
        if inode.kind.is_dir() {
            self.add_directory(alloc, spot, inode)
        } else {
            self.add_file(alloc, spot, inode)
        }
    }

    // A new inode that is no directory comes to a dentry.
    fn add_file(&mut self, alloc: Global, spot: Spot, inode: Inode) -> Result<(), Refusal>
        requires sound { IsSoundCore self.old }
        requires holds { MayHoldEach self.old.caches (adds spot inode) }
        requires may { MayChange (shown_in self.old) self.old.covers (adds spot inode) }
        requires number { IsRankNumber inode.ino.0 }
        requires file { is_dir_kind inode.kind ≡ false }
        ensures changed { ChangesTree (adds spot inode) self.old self.new result }
        ensures numbers { OnOk result (LacksToMake (adds spot inode) (state_of self.old) → ⊥) }
        ensures sound { IsSoundCore self.new }
        ensures counted { self.new.faults ≡ self.old.faults + faults_told (result_err result) }
    {
        has_parts(&inode);
        match self.ready_name(alloc, &spot.at) {
            Ok(()) => {
                self.come_file(spot, inode);
                Ok(())
            }
            Err(refusal) => {
                drop(spot);
                drop(inode);
                Err(refusal)
            }
        }
    }

    // A new directory comes to a dentry.
    fn add_directory(&mut self, alloc: Global, spot: Spot, inode: Inode) -> Result<(), Refusal>
        requires sound { IsSoundCore self.old }
        requires holds { MayHoldEach self.old.caches (adds spot inode) }
        requires may { MayChange (shown_in self.old) self.old.covers (adds spot inode) }
        requires number { IsRankNumber inode.ino.0 }
        requires directory { is_dir_kind inode.kind ≡ true }
        ensures changed { ChangesTree (adds spot inode) self.old self.new result }
        ensures numbers { OnOk result (LacksToMake (adds spot inode) (state_of self.old) → ⊥) }
        ensures sound { IsSoundCore self.new }
        ensures counted { self.new.faults ≡ self.old.faults + faults_told (result_err result) }
    {
        has_parts(&inode);
        match self.ready_directory(alloc, &spot, inode.ino) {
            Ok(name) => {
                self.come_directory(spot, inode, name);
                Ok(())
            }
            Err(refusal) => {
                drop(spot);
                drop(inode);
                Err(refusal)
            }
        }
    }

    // The inode at a dentry gets other attributes, and a directory its pin.
    fn set_entry(&mut self, alloc: Global, spot: Spot, inode: Inode) -> Result<(), Refusal>
        requires sound { IsSoundCore self.old }
        requires holds { MayHoldEach self.old.caches (sets spot inode) }
        requires may { MayChange (shown_in self.old) self.old.covers (sets spot inode) }
        ensures changed { ChangesTree (sets spot inode) self.old self.new result }
        ensures numbers { OnOk result (LacksToMake (sets spot inode) (state_of self.old) → ⊥) }
        ensures sound { IsSoundCore self.new }
        ensures counted { self.new.faults ≡ self.old.faults + faults_told (result_err result) }
    {
        has_parts(&inode);
        match self.ready_set(alloc, &spot) {
            Ok(()) => {
                self.put_altered(spot, inode);
                Ok(())
            }
            Err(refusal) => {
                drop(spot);
                drop(inode);
                Err(refusal)
            }
        }
    }

    // The entry at a dentry goes, and with it the directory of this number, if it is one.
    fn remove_entry(&mut self, alloc: Global, spot: Spot, gone: Option<Ino>) -> Result<(), Refusal>
        requires sound { IsSoundCore self.old }
        requires holds { MayHoldEach self.old.caches (removes spot gone) }
        requires may { MayChange (shown_in self.old) self.old.covers (removes spot gone) }
        ensures changed { ChangesTree (removes spot gone) self.old self.new result }
        ensures numbers { OnOk result (LacksToMake (removes spot gone) (state_of self.old) → ⊥) }
        ensures sound { IsSoundCore self.new }
        ensures counted { self.new.faults ≡ self.old.faults + faults_told (result_err result) }
    {
        match self.ready_removal(alloc, &spot.at, gone) {
            Ok(()) => {
                self.leave(spot, gone);
                Ok(())
            }
            Err(refusal) => {
                drop(spot);
                Err(refusal)
            }
        }
    }

    // The entry at a dentry moves to another, where the directory of this number is replaced, if one is.
    fn move_entry(
        &mut self,
        alloc: Global,
        from: Spot,
        to: Spot,
        inode: Inode,
        gone: Option<Ino>,
    ) -> Result<(), Refusal>
        requires sound { IsSoundCore self.old }
        requires holds { MayHoldEach self.old.caches (moves from to inode gone) }
        requires may { MayChange (shown_in self.old) self.old.covers (moves from to inode gone) }
        ensures changed { ChangesTree (moves from to inode gone) self.old self.new result }
        ensures numbers { OnOk result (LacksToMake (moves from to inode gone) (state_of self.old) → ⊥) }
        ensures sound { IsSoundCore self.new }
        ensures counted { self.new.faults ≡ self.old.faults + faults_told (result_err result) }
    {
        match self.ready_move(alloc, &from, &to, gone) {
            Ok(name) => {
                has_records(&self.caches, &from.at);
                self.pass(from, to, inode, name, gone);
                Ok(())
            }
            Err(refusal) => {
                drop(from);
                drop(to);
                drop(inode);
                Err(refusal)
            }
        }
    }
}

// The mode of an inode has 12 bits, a link has a target, and the number has 64 bits.
fn has_parts(inode: &Inode)
    ensures mode { inode.now.mode ≤ 4095 }
    ensures target { HasTarget inode.now.kind }
    ensures number { inode.now.ino.0 < 2 ^ 64 }
{
    has_64_bits(inode.ino);
    let _ = inode.mode.bits();
    if let Kind::Symlink(target) = &inode.kind {
        let _ = target.as_bytes();
    }
}

// The number of an inode has 64 bits.
fn has_64_bits(ino: Ino)
    ensures { ino.0 < 2 ^ 64 }
{}
