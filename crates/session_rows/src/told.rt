//! A reply that is kept.
use mds_types::Reply;

/// What a client was told to one of its transaction numbers.
#[derive(Debug, Drop, PartialEq, Eq)]
pub struct Told {
    pub tid: u64,
    pub reply: Reply,
}
