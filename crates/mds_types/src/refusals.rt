//! Why a step is refused.
ghost use Rattle.std.specs.Prelude.{◌≡◌};
ghost use Rattle.mds_types.specs.Refusal.{refusal_number};

use crate::object_names::ObjName;
use std::alloc::AllocError;
use thiserror::Error;

/// Why a step is refused. A refused step leaves the tree, the history and all else that contracts name as it was.
#[derive(Clone, Copy, Debug, PartialEq, Eq, Error)]
pub enum Refusal {
    /// A growth was refused.
    #[error("out of memory")]
    NoMemory,
    /// The store's count of faults rose in this call.
    #[error("the store failed")]
    StoreFault,
    /// The serving rank's inode numbers, or a 64-bit counter, are used up.
    #[error("no inode number or counter is left")]
    NoInodes,
    /// The transaction number is below its client's mark or below the request's own oldest.
    #[error("the transaction number is too old")]
    Trimmed,
    /// The rank isn't there, isn't the authority, has nothing to grant, or exports to itself.
    #[error("the rank doesn't exist, isn't the authority, or has nothing to grant")]
    NotAuthority,
    /// A fragment concerned is frozen.
    #[error("a fragment is frozen by an export")]
    Frozen,
    /// A fragment concerned is pinned by a grant.
    #[error("a fragment is pinned by a grant")]
    Pinned,
    /// No such directory or leaf, or nothing to merge.
    #[error("no such directory or fragment")]
    NoSuchFrag,
    /// A split by other than 1 to 8 bits, or to more than 24.
    #[error("a fragment is split by 1 to 8 bits, to at most 24")]
    BadSplit,
    /// More than 4096 leaves, a merge of more than 256, or too many dirty names to send.
    #[error("too many fragments or dirty names")]
    TooManyFrags,
    /// No such job, or a foreign or outdated result.
    #[error("no such commit job, or an outdated result")]
    StaleJob,
    /// A job stands for this fragment.
    #[error("a commit of the fragment is under way")]
    JobOutstanding,
    /// No export of this root in the state that the step needs.
    #[error("no export of this fragment in the state that the step needs")]
    WrongExportState,
    /// Nothing to serve, or no such request waits.
    #[error("no such request waits")]
    InboxEmpty,
    /// As many requests wait there as may.
    #[error("the inbox of the rank is full")]
    InboxFull,
    /// Too few cached fragments can go.
    #[error("too few cached fragments are clean")]
    NothingToEvict,
    /// An object outside its format, or other bytes than were sent.
    #[error("object {0} is damaged")]
    Damaged(ObjName),
    /// A flush while an export stands, or a format of a store with objects.
    #[error("an export is under way, or the store has objects")]
    NotClean,
}

impl Refusal {
    /// The number that the script prints: 1 to 18 in the order above.
    pub fn number(self) -> u8
        ensures { result ≡ refusal_number self }
    {
        match self {
            Refusal::NoMemory => 1,
            Refusal::StoreFault => 2,
            Refusal::NoInodes => 3,
            Refusal::Trimmed => 4,
            Refusal::NotAuthority => 5,
            Refusal::Frozen => 6,
            Refusal::Pinned => 7,
            Refusal::NoSuchFrag => 8,
            Refusal::BadSplit => 9,
            Refusal::TooManyFrags => 10,
            Refusal::StaleJob => 11,
            Refusal::JobOutstanding => 12,
            Refusal::WrongExportState => 13,
            Refusal::InboxEmpty => 14,
            Refusal::InboxFull => 15,
            Refusal::NothingToEvict => 16,
            Refusal::Damaged(_) => 17,
            Refusal::NotClean => 18,
        }
    }
}

/// Every want of memory is refused alike.
impl From<AllocError> for Refusal {
    ghost use Rattle.std.specs.Prelude.{◌≡◌};
    ghost use Rattle.mds_types.specs.declared.refusals.Refusal.TheVariants.{NoMemory};

    ghost from_gives = { λ _ refusal. refusal ≡ NoMemory };

    fn from(_error: AllocError) -> Refusal {
        Refusal::NoMemory
    }
}
