//! Inodes, which a directory's entries hold embedded, as CephFS keeps them.
ghost use Rattle.std.specs.Prelude.{◌≡◌, ◌↔◌, IsTrue};
ghost use Rattle.mds_types.specs.Copies.{IsMadeOrLacks, HasLink};

use crate::ids::{Ino, Rank};
use crate::modes::Mode;
use crate::targets::Target;
use std::alloc::AllocError;

/// What an inode is.
#[derive(Clone, Debug, Drop, PartialEq, Eq)]
pub enum Kind {
    File,
    Dir,
    /// A symbolic link, with what it points to.
    Symlink(Target),
}

/// An inode. A directory has size 0, and a link the size of its target.
//
// Fields lie as they are listed, so narrow ones stand together.
#[derive(Clone, Debug, Drop, PartialEq, Eq)]
pub struct Inode {
    pub ino: Ino,
    pub kind: Kind,
    /// Bytes of the file's data, as clients report them.
    pub size: u64,
    /// The time of the last change, in the clients' unit.
    pub mtime: u64,
    /// The owner.
    pub uid: u32,
    /// The group.
    pub gid: u32,
    pub mode: Mode,
    /// The rank that an administrator pins a directory to; nothing else has one.
    pub pin: Option<Rank>,
}

/// What a new inode gets beside its kind and mode.
#[derive(Clone, Copy, Debug, PartialEq, Eq)]
pub struct Birth {
    pub mtime: u64,
    pub uid: u32,
    pub gid: u32,
}

impl Birth {
    /// At time 0, with owner and group 0.
    pub const OF_ROOT: Birth = Birth {
        mtime: 0,
        uid: 0,
        gid: 0,
    };
}

/// The attributes that an operation gives to an inode; those that aren't given stay as they are.
#[derive(Clone, Copy, Debug, PartialEq, Eq)]
pub struct Attributes {
    pub mode: Option<Mode>,
    pub size: Option<u64>,
    pub mtime: Option<u64>,
    pub uid: Option<u32>,
    pub gid: Option<u32>,
}

/// What the inode at a dentry is given: attributes, or another pin or none.
#[derive(Clone, Copy, Debug)]
pub enum Alteration {
    Attributed(Attributes),
    Pinned(Option<Rank>),
}

impl Kind {
    /// A copy. Takes memory for a link's target alone.
    pub fn try_clone(&self) -> Result<Kind, AllocError>
        ensures { IsMadeOrLacks self.now (HasLink self.now) result }
    {
        match self {
            Kind::File => Ok(Kind::File),
            Kind::Dir => Ok(Kind::Dir),
            Kind::Symlink(target) => Ok(Kind::Symlink(target.try_clone()?)),
        }
    }

    /// Whether this is a directory.
    pub fn is_dir(&self) -> bool
        ensures { IsTrue result ↔ (self.now ≡ Kind.Dir) }
    {
        matches!(self, Kind::Dir)
    }
}

impl Inode {
    /// A copy. Takes memory for a link's target alone.
    pub fn try_clone(&self) -> Result<Inode, AllocError>
        ensures { IsMadeOrLacks self.now (HasLink self.now.kind) result }
    {
        Ok(Inode {
            ino: self.ino,
            kind: self.kind.try_clone()?,
            size: self.size,
            mtime: self.mtime,
            uid: self.uid,
            gid: self.gid,
            mode: self.mode,
            pin: self.pin,
        })
    }
}
