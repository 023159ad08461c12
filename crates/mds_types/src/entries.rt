//! What a history is made of.
ghost use Rattle.std.specs.Prelude.{◌≡◌, IfOk};

use crate::ids::Ino;
use crate::operations::Op;
use crate::replies::Reply;
use std::alloc::AllocError;

/// A request that was applied, with its reply and the inode number that it took, if it made an inode.
#[derive(Debug, Drop)]
pub struct Entry {
    pub client: u64,
    pub tid: u64,
    pub oldest: u64,
    pub op: Op,
    pub number: Option<Ino>,
    pub reply: Reply,
}

impl Entry {
    /// A copy. Takes memory for names, listings and targets.
    pub fn try_clone(&self) -> Result<Entry, AllocError>
        ensures { IfOk result (λ copy. copy ≡ self.now) }
    {
        let op = self.op.try_clone()?;
        match self.reply.try_clone() {
            Ok(reply) => Ok(Entry {
                client: self.client,
                tid: self.tid,
                oldest: self.oldest,
                op,
                number: self.number,
                reply,
            }),
            Err(refused) => {
                drop(op);
                Err(refused)
            }
        }
    }
}
