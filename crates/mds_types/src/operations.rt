//! What a client asks for.
ghost use Rattle.std.specs.Prelude.{◌≡◌, IfOk};
ghost use Rattle.std.specs.Option.{option_copied};

use crate::dentries::Dentry;
use crate::ids::{Ino, Rank};
use crate::inodes::Birth;
use crate::modes::Mode;
use crate::names::Name;
use crate::packed_attributes::PackedAttributes;
use crate::page_sizes::PageSize;
use crate::targets::Target;
use std::alloc::AllocError;

/// An operation on the tree. Each works in a directory, that of its dentry but for a `Readdir`; a rename leads to
/// another one.
#[derive(Debug, Drop)]
pub enum Op {
    /// The inode at a dentry.
    Lookup(Dentry),
    /// The names greater than `after` (all, if none is given) with their inodes: the first `max` of them.
    Readdir {
        dir: Ino,
        after: Option<Name>,
        max: PageSize,
    },
    /// A new file of size 0.
    Create {
        dentry: Dentry,
        mode: Mode,
        birth: Birth,
    },
    /// A new directory.
    Mkdir {
        dentry: Dentry,
        mode: Mode,
        birth: Birth,
    },
    /// What the link at a dentry points to.
    Readlink(Dentry),
    /// A new symbolic link, of mode 777 and the size of its target.
    Symlink {
        dentry: Dentry,
        target: Target,
        birth: Birth,
    },
    /// Gives the inode at a dentry these attributes; what is not given stays. A size can be given to a file alone.
    Setattr {
        dentry: Dentry,
        attributes: PackedAttributes,
    },
    /// Pins the directory at a dentry to a rank, or takes its pin away.
    SetPin {
        dentry: Dentry,
        pin: Option<Rank>,
    },
    /// Takes away an entry that is no directory.
    Unlink(Dentry),
    /// Takes away an empty directory.
    Rmdir(Dentry),
    /// Moves an entry to another dentry. What stands there is replaced: a directory only by a directory, and only if it
    /// is empty; anything else only by what is no directory.
    Rename {
        from: Dentry,
        to: Dentry,
    },
}

impl Op {
    ghost use Rattle.mds_types.specs.Shape.{main_dentry, source_of, directory_of, destination_of};

    /// The main dentry of the operation: its own, of a rename the destination; a readdir has none.
    pub fn main_dentry(&self) -> Option<&Dentry>
        ensures { option_copied result ≡ main_dentry self.now }
    {
        match self {
            Op::Readdir { .. } => None,
            Op::Lookup(dentry)
            | Op::Create { dentry, .. }
            | Op::Mkdir { dentry, .. }
            | Op::Readlink(dentry)
            | Op::Symlink { dentry, .. }
            | Op::Setattr { dentry, .. }
            | Op::SetPin { dentry, .. }
            | Op::Unlink(dentry)
            | Op::Rmdir(dentry)
            | Op::Rename { to: dentry, .. } => Some(dentry),
        }
    }

    /// The dentry that a rename takes away.
    pub fn source(&self) -> Option<&Dentry>
        ensures { option_copied result ≡ source_of self.now }
    {
        match self {
            Op::Rename { from, .. } => Some(from),
            _ => None,
        }
    }

    /// The number of the directory that the operation works in; of a rename, that of the source.
    pub fn dir(&self) -> Ino
        ensures { result.0 ≡ directory_of self.now }
    {
        match self {
            Op::Rename { from, .. } => from.dir,
            other => other.destination(),
        }
    }

    /// The number of the directory that the operation leads to: of a rename that of the target, otherwise the one that
    /// it works in.
    pub fn destination(&self) -> Ino
        ensures { result.0 ≡ destination_of self.now }
    {
        match self {
            Op::Readdir { dir, .. } => *dir,
            Op::Lookup(dentry)
            | Op::Create { dentry, .. }
            | Op::Mkdir { dentry, .. }
            | Op::Readlink(dentry)
            | Op::Symlink { dentry, .. }
            | Op::Setattr { dentry, .. }
            | Op::SetPin { dentry, .. }
            | Op::Unlink(dentry)
            | Op::Rmdir(dentry)
            | Op::Rename { to: dentry, .. } => dentry.dir,
        }
    }

    /// A copy. Takes memory for its names and its target.
    pub fn try_clone(&self) -> Result<Op, AllocError>
        ensures { IfOk result (λ copy. copy ≡ self.now) }
    {
        match self {
            Op::Lookup(dentry) => Ok(Op::Lookup(dentry.try_clone()?)),
            Op::Readdir { dir, after, max } => Ok(Op::Readdir {
                dir: *dir,
                after: after.clone()?,
                max: *max,
            }),
            Op::Create {
                dentry,
                mode,
                birth,
            } => Ok(Op::Create {
                dentry: dentry.try_clone()?,
                mode: *mode,
                birth: *birth,
            }),
            Op::Mkdir {
                dentry,
                mode,
                birth,
            } => Ok(Op::Mkdir {
                dentry: dentry.try_clone()?,
                mode: *mode,
                birth: *birth,
            }),
            Op::Readlink(dentry) => Ok(Op::Readlink(dentry.try_clone()?)),
            Op::Symlink {
                dentry,
                target,
                birth,
            } => copy_of_symlink(dentry, target, birth),
            Op::Setattr { dentry, attributes } => Ok(Op::Setattr {
                dentry: dentry.try_clone()?,
                attributes: attributes.copy(),
            }),
            Op::SetPin { dentry, pin } => Ok(Op::SetPin {
                dentry: dentry.try_clone()?,
                pin: *pin,
            }),
            Op::Unlink(dentry) => Ok(Op::Unlink(dentry.try_clone()?)),
            Op::Rmdir(dentry) => Ok(Op::Rmdir(dentry.try_clone()?)),
            Op::Rename { from, to } => copy_of_rename(from, to),
        }
    }
}

// A copy of a symbolic link's making.
fn copy_of_symlink(dentry: &Dentry, target: &Target, birth: &Birth) -> Result<Op, AllocError>
    ensures { IfOk result (λ copy. copy ≡ Op.Symlink dentry.now target.now birth.now) }
{
    let dentry = dentry.try_clone()?;
    match target.try_clone() {
        Ok(target) => Ok(Op::Symlink {
            dentry,
            target,
            birth: *birth,
        }),
        Err(refused) => {
            drop(dentry);
            Err(refused)
        }
    }
}

// A copy of a rename.
fn copy_of_rename(from: &Dentry, to: &Dentry) -> Result<Op, AllocError>
    ensures { IfOk result (λ copy. copy ≡ Op.Rename from.now to.now) }
{
    let from = from.try_clone()?;
    match to.try_clone() {
        Ok(to) => Ok(Op::Rename { from, to }),
        Err(refused) => {
            drop(from);
            Err(refused)
        }
    }
}
