//! Why rows can't be restored.
use crate::faults::RowFault;
use mds_types::Rank;
use thiserror::Error;

/// Why the rows that a store keeps can't be restored. A fault names the row.
#[derive(Clone, Copy, Debug, PartialEq, Eq, Error)]
pub enum RowsFault {
    /// A row's key is that of no client and of no rank.
    #[error("a row has a key that is no client's and no rank's")]
    Key,
    /// The value of this client's row can't be read.
    #[error("the session of client {0} is damaged: {1}")]
    Client(u64, RowFault),
    /// The value of this rank's row can't be read.
    #[error("the row of rank {rank} is damaged: {1}", rank = .0.0)]
    Rank(Rank, RowFault),
    #[error("out of memory")]
    NoMemory,
}
