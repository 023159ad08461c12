//! The parts of a cluster.
ghost use Rattle.std.specs.Prelude.{◌≡◌, ◌<◌, [], length, get_or, replicate, IfOk};
ghost use Rattle.inboxes.specs.Inboxes.{waiting_at};
ghost use Rattle.cluster_core.specs.Serve.{AtFront, HasLeft};
ghost use Rattle.sessions.specs.Rooms.{table};
ghost use Rattle.sessions.specs.Table.{no_table};
ghost use Rattle.cluster_core.specs.State.{no_supply};

use inboxes::{Inboxes, Pins};
use inode_table::Numbers;
use mds_types::{Limit, Rank};
use objstore::Store;
use ranked_tree::RankedTree;
use sessions::{SessionAt, Sessions};
use std::alloc::{AllocError, Global};

/// All parts of a cluster. The cluster's model, a `Core`, doesn't tell where a client's session is kept. Serving looks
/// a session up once and uses its place later, so its functions are methods of the parts. `cluster_of` is the cluster
/// that has these parts.
#[derive(Drop)]
pub(crate) struct Parts<S: Store + Drop> {
    /// The tree, and the authority of each leaf.
    pub(crate) tree: RankedTree<S>,
    /// The requests that wait at each rank, and the grants for them.
    pub(crate) waiting: Waiting,
    /// The inode numbers that each rank has left, and the sessions of clients.
    pub(crate) given: Given,
}

/// The requests that wait at each rank, and the grants for them.
#[derive(Drop)]
pub(crate) struct Waiting {
    pub(crate) inboxes: Inboxes,
    pub(crate) pins: Pins,
}

impl Waiting {
    /// Nothing waits at any of so many ranks. Takes all memory that waiting requests will need.
    pub(crate) fn new(alloc: Global, ranks: u8) -> Result<Waiting, AllocError>
        ensures inboxes { IfOk result (λ waiting. waiting.inboxes ≡ replicate ranks []) }
        ensures pins { IfOk result (λ waiting. waiting.pins ≡ []) }
    {
        Ok(Waiting {
            inboxes: Inboxes::new(alloc, ranks)?,
            pins: Pins::new(alloc),
        })
    }

    /// The request at the front of a rank's inbox, in which one waits, leaves it, and its grants end.
    #[inline(never)]
    pub(crate) fn end_front(&mut self, rank: Rank)
        requires waits { 0 < length (waiting_at self.old.inboxes rank) }
        ensures left { AtFront (HasLeft self.old.inboxes self.new.inboxes self.old.pins self.new.pins rank)
            (waiting_at self.old.inboxes rank) }
    {
        let Some(request) = self.inboxes.take(rank) else {
            unreachable!()
        };
        self.pins.end_pair(request.client, request.tid);
        drop(request);
    }
}

/// What was given out: the inode numbers that each rank has left, and the sessions with the places of each client's
/// replies.
#[derive(Drop)]
pub(crate) struct Given {
    pub(crate) numbers: Vec<Numbers>,
    pub(crate) sessions: Sessions,
}

impl Given {
    /// No reply was given, and these numbers are left.
    pub(crate) fn of(alloc: Global, numbers: Vec<Numbers>) -> Given
        ensures numbers { result.numbers.items ≡ numbers.items }
        ensures sessions { table result.sessions ≡ no_table }
    {
        Given {
            numbers,
            sessions: Sessions::new(alloc),
        }
    }

    /// The inode numbers that an existing rank has left.
    pub(crate) fn supply_of(&self, rank: Rank) -> Numbers
        requires { rank.0 < length self.now.numbers.items }
        ensures { result ≡ get_or self.now.numbers.items rank.0 no_supply }
    {
        self.numbers[usize::from(rank.0)]
    }
}

/// What is known of the new request at the front of its master's inbox: how many entries a directory may have, the
/// numbers that the master has left, and where the client's session is.
#[derive(Drop)]
pub(crate) struct Asked {
    pub(crate) rank: Rank,
    pub(crate) limit: Limit,
    pub(crate) supply: Numbers,
    pub(crate) session: SessionAt,
}
