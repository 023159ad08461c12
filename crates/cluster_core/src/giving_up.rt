//! Giving up a request that waits.
ghost use Rattle.inboxes.specs.Inboxes.{waiting_at};
ghost use Rattle.cluster_core.specs.GivenUp.{GivesUp, GivesUpIn};
ghost use Rattle.cluster_core.specs.Sound.{GoesOnBehind, IsSoundKept};

use crate::books::Book;
use crate::clusters::Cluster;
use mds_types::Rank;
use objstore::Store;

impl<S: Store + Drop> Cluster<S> {
    /// Removes the request at the front of a rank's inbox, with its grants, if one waits there.
    pub(crate) fn give_up(&mut self, rank: Rank)
        ensures { GivesUpIn self.old self.new rank (waiting_at self.old.state.inboxes rank) }
    {
        if self.parts.waiting.inboxes.front(rank).is_some() {
            self.parts.waiting.end_front(rank);
        }
    }
}

/// Gives up the request at the front of a rank's inbox, if one waits there: it leaves with its grants, as if it had
/// never arrived. Nothing else changes, and no reply is given.
pub fn give_up<S: Store + Drop>(book: &mut Book<S>, rank: Rank)
    ensures given { GivesUp book.old book.new rank }
    ensures goes_on { GoesOnBehind book.old book.new }
    ensures sound { IsSoundKept book.new }
{
    book.cluster.give_up(rank);
}
