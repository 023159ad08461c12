//! The refusals' names, as a sentence has them.

use mds_types::Refusal;
use std::fmt;

/// A refusal's name in the library, in words.
#[derive(Clone, Copy)]
pub(crate) struct Named(pub(crate) Refusal);

impl fmt::Display for Named {
    fn fmt<W: fmt::Write>(&self, f: &mut fmt::Formatter<W>) -> fmt::Result {
        let name = name_of(self.0);
        write!(f, "{name}")
    }
}

// The words for a refusal.
fn name_of(refusal: Refusal) -> &'static str {
    match refusal {
        Refusal::NoMemory => "no memory",
        Refusal::StoreFault => "store fault",
        Refusal::NoInodes => "no inodes",
        Refusal::Trimmed => "trimmed",
        Refusal::NotAuthority => "not authority",
        Refusal::Frozen => "frozen",
        Refusal::Pinned => "pinned",
        Refusal::NoSuchFrag => "no such frag",
        Refusal::BadSplit => "bad split",
        Refusal::TooManyFrags => "too many frags",
        Refusal::StaleJob => "stale job",
        Refusal::JobOutstanding => "job outstanding",
        Refusal::WrongExportState => "wrong export state",
        Refusal::InboxEmpty => "inbox empty",
        Refusal::InboxFull => "inbox full",
        Refusal::NothingToEvict => "nothing to evict",
        Refusal::Damaged(_) => "damaged",
        Refusal::NotClean => "not clean",
    }
}
