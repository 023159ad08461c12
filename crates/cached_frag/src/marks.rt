//! What became of a dirty name.
ghost use Rattle.std.specs.Prelude.{◌≡◌, ◌↔◌, IsTrue};
ghost use Rattle.mds_types.specs.Copies.{IsLinkInode, IsMadeOrLacks};

use mds_types::Inode;
use std::alloc::AllocError;

/// What became of a name since its fragment's last commit.
#[derive(Debug, Drop, PartialEq, Eq)]
pub struct Mark {
    /// The version of the name's last change.
    pub version: u64,
    /// The inode that the name has now; none, where it was removed.
    pub inode: Option<Inode>,
}

impl Mark {
    /// A copy. Takes memory for a link's target alone.
    pub fn try_clone(&self) -> Result<Mark, AllocError>
        ensures { IsMadeOrLacks self.now (IsLinkInode self.now.inode) result }
    {
        let inode = match &self.inode {
            Some(inode) => Some(inode.try_clone()?),
            None => None,
        };
        Ok(Mark {
            version: self.version,
            inode,
        })
    }
}

impl Clone for Mark {
    ghost is_clone = { λ old new. new ≡ old };

    fn clone(&self) -> Result<Mark, AllocError> {
        self.try_clone()
    }
}
