//! What an operation comes to, before it is done.
ghost use Rattle.std.specs.Prelude.{◌≡◌, ◌<◌, true, false, cond, length, None, IfErr, IfOk, OnOk};
ghost use Rattle.mds_types.specs.Copies.{IsMadeOrLacks, OwnsMemory};
ghost use Rattle.mds_types.specs.declared.refusals.Refusal.TheVariants.{NoInodes};
ghost use Rattle.namespace_ops.specs.Changes.{dentry_at, reply_of};

use mds_types::{Dentry, Dirfrag, Ino, Inode, Name, Refusal, Reply};
use std::alloc::AllocError;

/// A dentry where it lies: its name, in a leaf of its directory at the rank that holds the leaf.
#[derive(Debug, Drop)]
pub struct Spot {
    pub at: Dirfrag,
    pub name: Name,
}

impl Spot {
    /// The spot of a dentry that lies there. A name of more than 22 bytes takes memory, and only then may it be wanting.
    pub fn of(dentry: &Dentry, at: Dirfrag) -> Result<Spot, AllocError>
        ensures { IsMadeOrLacks (record { at = at; name = dentry.now.name }) (22 < length dentry.now.name) result }
    {
        let name = dentry.name.try_clone()?;
        Ok(Spot { at, name })
    }

    /// The dentry, as it is kept where leaves and ranks don't matter.
    pub fn into_dentry(self) -> Dentry
        ensures { result ≡ dentry_at self }
    {
        Dentry {
            dir: self.at.dir,
            name: self.name,
        }
    }
}

/// A change of the tree: a name loses its inode, or one gets an inode, or first the one and then the other. It has the
/// spot of each of its names, and the number of the directory that goes with it, so that no step has to find them
/// again.
#[derive(Debug, Drop)]
pub struct Change {
    /// The name that loses its inode.
    pub takes: Option<Spot>,
    /// The name that gets an inode, and that: a new one, the same with other attributes, or the one that the other name
    /// loses.
    pub puts: Option<(Spot, Inode)>,
    /// Whether what is put is new.
    pub comes: bool,
    /// The number of what is taken and not put, or of what is replaced, if that is a directory.
    pub gone: Option<Ino>,
}

impl Change {
    /// What an operation answers that makes this change. Takes memory for a copy of a link's target alone.
    pub fn reply(&self) -> Result<Reply, AllocError>
        ensures { IsMadeOrLacks (reply_of self.now) (OwnsMemory (reply_of self.now)) result }
    {
        match (&self.takes, &self.puts) {
            (None, Some((_, inode))) => Ok(Reply::Entry(inode.try_clone()?)),
            _ => Ok(Reply::Done),
        }
    }

    /// The number that it takes of one that is offered: a new inode's. Refused `NoInodes` exactly where a new inode
    /// comes for which none is offered.
    pub fn number(&self, offered: Option<Ino>) -> Result<Option<Ino>, Refusal>
        ensures taken { IfOk result (λ number. number ≡ cond self.now.comes offered None) }
        ensures given { OnOk result (offered ≡ None → self.now.comes ≡ false) }
        ensures refused { IfErr result (λ reason. (reason ≡ NoInodes) × (offered ≡ None) × (self.now.comes ≡ true)) }
    {
        if !self.comes {
            return Ok(None);
        }
        if offered.is_none() {
            return Err(Refusal::NoInodes);
        }
        Ok(offered)
    }
}

/// What the checks of an operation find.
#[derive(Debug, Drop)]
pub enum Checked {
    /// It changes nothing, and answers this: it reads, answers an errno, or leads to where it is.
    Answers(Reply),
    /// It makes this change.
    Changes(Change),
}
