//! Why a value is no row.
ghost use Rattle.std.specs.Prelude.{◌≡◌};
ghost use Rattle.session_rows.specs.declared.faults.RowFault.TheVariants.{NoMemory};

use std::alloc::AllocError;
use thiserror::Error;

/// Why a row's value can't be read.
#[derive(Clone, Copy, Debug, PartialEq, Eq, Error)]
pub enum RowFault {
    /// The value breaks off, or has bytes behind its end.
    #[error("a row breaks off, or bytes follow its end")]
    Length,
    /// A reply is to a transaction number below the client's mark.
    #[error("a row keeps a reply below its client's mark")]
    BelowMark,
    /// A reply's transaction number isn't greater than the one before it.
    #[error("a row's transaction numbers don't ascend")]
    OutOfOrder,
    /// What was kept as a reply is none.
    #[error("a row keeps bytes that are no reply")]
    NoReply,
    /// A rank's next inode number is neither in its range nor the end of it.
    #[error("a rank's next inode number is outside of its range")]
    OtherRange,
    #[error("out of memory")]
    NoMemory,
}

impl From<AllocError> for RowFault {
    ghost from_gives = { λ _ fault. fault ≡ NoMemory };

    fn from(_error: AllocError) -> RowFault {
        RowFault::NoMemory
    }
}
