//! The events of a cluster, and the answers of its steps.
ghost use Rattle.std.specs.Prelude.{◌≡◌, IfOk};

use cached_frag::{Encoded, Job};
use mds_types::{Bytes, Frag, Ino, Rank, Reply, Request};
use std::alloc::AllocError;

/// One event of the cluster, one atomic step.
#[derive(Debug, Drop)]
pub enum Event {
    /// A request arrives at a rank, and waits at the back of its inbox.
    Arrive {
        rank: Rank,
        request: Request,
    },
    /// A rank serves the request at the front of its inbox.
    Serve {
        rank: Rank,
    },
    /// A rank lets the waiting request of this client and transaction number change the rank's fragments.
    Grant {
        rank: Rank,
        client: u64,
        tid: u64,
    },
    /// A leaf of a directory is split into its children of `bits` more bits.
    Split {
        rank: Rank,
        ino: Ino,
        frag: Frag,
        bits: u8,
    },
    /// The leaves of a directory properly inside the fragment are merged into it.
    Merge {
        rank: Rank,
        ino: Ino,
        frag: Frag,
    },
    /// A commit of a leaf begins, and returns the job with its snapshot.
    CommitBegin {
        rank: Rank,
        ino: Ino,
        frag: Frag,
    },
    /// A commit ends: its encoded job is written to the store.
    CommitEnd(Encoded),
    /// The commit of this job is given up.
    CommitDrop {
        job: u64,
    },
    /// The object of a directory's fragment tree is written or removed.
    CommitTree {
        ino: Ino,
    },
    /// The first object of the purge list is removed from the store.
    Purge,
    /// The least recently used clean fragment of a rank's cache is evicted.
    Evict {
        rank: Rank,
    },
    /// An export of the region of a leaf starts, from the leaf's authority to another rank.
    Start {
        from: Rank,
        ino: Ino,
        frag: Frag,
        to: Rank,
    },
    /// The region of a started export is frozen, and commits in it are given up.
    Freeze {
        ino: Ino,
        frag: Frag,
    },
    /// The importer of a frozen region learns the region's bounds.
    Prep {
        ino: Ino,
        frag: Frag,
    },
    /// A prepared region is sent: the step returns the bytes of all that isn't clean in it.
    Send {
        ino: Ino,
        frag: Frag,
    },
    /// The importer of a sent region takes its bytes, and holds the region from then on.
    Import {
        ino: Ino,
        frag: Frag,
        bytes: Bytes,
    },
    /// The importer of an imported region becomes its authority, and the export ends.
    Finish {
        ino: Ino,
        frag: Frag,
    },
    /// An export that isn't sent yet is cancelled.
    Cancel {
        ino: Ino,
        frag: Frag,
    },
}

/// The answer of a step that isn't refused.
#[derive(Debug, Drop)]
pub enum Answer {
    /// Done, with nothing to tell.
    Nothing,
    /// The request was forwarded to its master, this rank, and waits there.
    Forwarded(Rank),
    /// The request would change fragments that are frozen, or fragments of another rank that hasn't granted them. It
    /// waits behind all others.
    Deferred,
    /// The job of the commit that began, to be encoded.
    Job(Job),
    /// The bytes of a region that was sent.
    Sent(Bytes),
    /// The reply to a request, with its place in the history. `first` tells whether the request was applied in this
    /// step or before.
    Reply {
        client: u64,
        tid: u64,
        place: usize,
        first: bool,
        reply: Reply,
    },
}

impl Event {
    /// A copy. Takes memory for the names of a request, for encoded jobs, and for sent bytes.
    pub fn try_clone(&self) -> Result<Event, AllocError>
        ensures { IfOk result (λ copy. copy ≡ self.now) }
    {
        match self {
            Event::Arrive { rank, request } => Ok(Event::Arrive {
                rank: *rank,
                request: request.try_clone()?,
            }),
            Event::Serve { rank } => Ok(Event::Serve { rank: *rank }),
            Event::Grant { rank, client, tid } => Ok(Event::Grant {
                rank: *rank,
                client: *client,
                tid: *tid,
            }),
            Event::Split {
                rank,
                ino,
                frag,
                bits,
            } => Ok(Event::Split {
                rank: *rank,
                ino: *ino,
                frag: *frag,
                bits: *bits,
            }),
            Event::Merge { rank, ino, frag } => Ok(Event::Merge {
                rank: *rank,
                ino: *ino,
                frag: *frag,
            }),
            Event::CommitBegin { rank, ino, frag } => Ok(Event::CommitBegin {
                rank: *rank,
                ino: *ino,
                frag: *frag,
            }),
            Event::CommitEnd(encoded) => Ok(Event::CommitEnd(encoded.try_clone()?)),
            Event::CommitDrop { job } => Ok(Event::CommitDrop { job: *job }),
            Event::CommitTree { ino } => Ok(Event::CommitTree { ino: *ino }),
            Event::Purge => Ok(Event::Purge),
            Event::Evict { rank } => Ok(Event::Evict { rank: *rank }),
            Event::Start {
                from,
                ino,
                frag,
                to,
            } => Ok(Event::Start {
                from: *from,
                ino: *ino,
                frag: *frag,
                to: *to,
            }),
            Event::Freeze { ino, frag } => Ok(Event::Freeze {
                ino: *ino,
                frag: *frag,
            }),
            Event::Prep { ino, frag } => Ok(Event::Prep {
                ino: *ino,
                frag: *frag,
            }),
            Event::Send { ino, frag } => Ok(Event::Send {
                ino: *ino,
                frag: *frag,
            }),
            Event::Import { ino, frag, bytes } => Ok(Event::Import {
                ino: *ino,
                frag: *frag,
                bytes: bytes.try_clone()?,
            }),
            Event::Finish { ino, frag } => Ok(Event::Finish {
                ino: *ino,
                frag: *frag,
            }),
            Event::Cancel { ino, frag } => Ok(Event::Cancel {
                ino: *ino,
                frag: *frag,
            }),
        }
    }
}
