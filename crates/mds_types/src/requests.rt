//! What a client sends.
ghost use Rattle.std.specs.Prelude.{◌≡◌, IfOk};

use crate::operations::Op;
use std::alloc::AllocError;

/// An operation with its client and transaction number. A client that heard no reply sends the same pair of numbers
/// again, perhaps to another rank; `oldest` is its least transaction number that still waits for a reply.
#[derive(Debug, Drop)]
pub struct Request {
    pub client: u64,
    pub tid: u64,
    pub oldest: u64,
    pub op: Op,
}

impl Request {
    /// A copy. Takes memory for the operation's names.
    pub fn try_clone(&self) -> Result<Request, AllocError>
        ensures { IfOk result (λ copy. copy ≡ self.now) }
    {
        Ok(Request {
            client: self.client,
            tid: self.tid,
            oldest: self.oldest,
            op: self.op.try_clone()?,
        })
    }
}
