//! Operations that change an object.
ghost use Rattle.std.specs.Prelude.{◌≡◌, IfOk};
ghost use Rattle.objstore.specs.Writes.{nothing};

use crate::key_sets::KeySet;
use crate::pairs::Pairs;
use mds_types::Bytes;
use std::alloc::{AllocError, Global};

/// Changes of one object that are made together: first the clearing, then the header, then what is set, then what is
/// removed. A key that is both set and removed is gone.
#[derive(Debug, Drop)]
pub struct WriteOp {
    /// Whether header and pairs go first.
    pub clear: bool,
    /// The header to write, if any.
    pub header: Option<Bytes>,
    /// The keys that get a value.
    pub set: Pairs,
    /// The keys that go.
    pub remove: KeySet,
}

impl WriteOp {
    /// An operation that changes nothing yet. Takes no memory.
    pub fn new(alloc: Global) -> WriteOp
        ensures { result ≡ nothing }
    {
        WriteOp {
            clear: false,
            header: None,
            set: Pairs::new(alloc),
            remove: KeySet::new(alloc),
        }
    }

    /// A copy. Takes memory for all that it holds.
    pub fn try_clone(&self) -> Result<WriteOp, AllocError>
        ensures { IfOk result (λ copy. copy ≡ self.now) }
    {
        Ok(WriteOp {
            clear: self.clear,
            header: self.header_copy()?,
            set: self.set.try_clone()?,
            remove: self.remove.try_clone()?,
        })
    }

    // A copy of the header to write, if any.
    pub(crate) fn header_copy(&self) -> Result<Option<Bytes>, AllocError>
        ensures { IfOk result (λ copy. copy ≡ self.now.header) }
    {
        self.header.clone()
    }
}
