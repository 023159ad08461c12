//! Where a client's session is kept.

/// Where a client's session is kept, as `Sessions::seen` found it: nowhere for a client of which nothing is known. The
/// calls that follow are given it, so that none of them searches for the client again.
#[derive(Clone, Copy, Debug, PartialEq, Eq)]
pub struct SessionAt {
    pub(crate) client: u64,
    pub(crate) session: Option<usize>,
}
