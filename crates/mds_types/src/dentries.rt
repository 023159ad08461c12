//! Dentries: where an entry stands in the tree.
ghost use Rattle.std.specs.Prelude.{◌<◌, length};
ghost use Rattle.mds_types.specs.Copies.{IsMadeOrLacks};
ghost use Rattle.mds_types.specs.OrderLaws.{ino-exact, name-exact, dentry-exact};

use crate::ids::Ino;
use crate::names::Name;
use sorted_map::ExactOrd;
use std::alloc::AllocError;

/// A dentry: a directory, and a name in it. Dentries are ordered by directory and then by name.
#[derive(Clone, Debug, Drop, PartialEq, Eq, PartialOrd, Ord)]
pub struct Dentry {
    pub dir: Ino,
    pub name: Name,
}

impl Dentry {
    /// A copy. A name of more than 22 bytes takes memory, and only then may it be wanting.
    pub fn try_clone(&self) -> Result<Dentry, AllocError>
        ensures { IsMadeOrLacks self.now (22 < length self.now.name) result }
    {
        Ok(Dentry {
            dir: self.dir,
            name: self.name.try_clone()?,
        })
    }
}

impl ExactOrd for Ino {
    ghost exact = { ino-exact };
}

impl ExactOrd for Name {
    ghost exact = { name-exact };
}

impl ExactOrd for Dentry {
    ghost exact = { dentry-exact };
}
