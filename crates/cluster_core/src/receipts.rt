//! Receipts of the replies that were handed out.

use mds_types::Reply;

/// A reply that was handed out: the request that it answers, the place in the history that it names, and whether the
/// request was applied then.
#[derive(Debug, Drop, PartialEq, Eq)]
pub struct Receipt {
    pub client: u64,
    pub tid: u64,
    pub place: usize,
    pub first: bool,
    pub reply: Reply,
}
