//! What a client is told.
ghost use Rattle.mds_types.specs.Copies.{IsMadeOrLacks, OwnsMemory};

use crate::inodes::Inode;
use crate::listings::Listing;
use crate::targets::Target;
use std::alloc::AllocError;

/// The answer to an operation.
#[derive(Clone, Debug, Drop, PartialEq, Eq)]
pub enum Reply {
    /// The inode that the operation found or left at its name.
    Entry(Inode),
    /// Names in order with their inodes, and whether further ones follow.
    Entries { list: Listing, more: bool },
    /// What a link points to.
    Target(Target),
    Done,
    /// The operation doesn't apply, and changed nothing: one of the numbers of this crate.
    Errno(u16),
}

impl Reply {
    /// A copy. Takes memory for a listing that isn't empty and for links' targets alone.
    pub fn try_clone(&self) -> Result<Reply, AllocError>
        ensures { IsMadeOrLacks self.now (OwnsMemory self.now) result }
    {
        match self {
            Reply::Entry(inode) => Ok(Reply::Entry(inode.try_clone()?)),
            Reply::Entries { list, more } => Ok(Reply::Entries {
                list: list.try_clone()?,
                more: *more,
            }),
            Reply::Target(target) => Ok(Reply::Target(target.try_clone()?)),
            Reply::Done => Ok(Reply::Done),
            Reply::Errno(number) => Ok(Reply::Errno(*number)),
        }
    }
}
