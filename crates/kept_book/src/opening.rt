//! Opening a cluster over a store, with the sessions that the store keeps.
ghost use Rattle.std.specs.Prelude.{◌≡◌, ◌≤◌, IfErr, IfOk};
ghost use Rattle.keeping.specs.Rows.{SessionRows};
ghost use Rattle.kept_store.specs.Kept.{StoresRows};
ghost use Rattle.mdcache.specs.Mounted.{IsColdTree};
ghost use Rattle.sqlite_trees.specs.View.{IsClean};
ghost use Rattle.cluster_core.specs.KeptSessions.{GoesOnFromRows};
ghost use Rattle.cluster_core.specs.Sound.{IsSoundKept};
ghost use Rattle.cluster_core.specs.State.{shown};
ghost use Rattle.kept_book.specs.Opened.{MayNotOpen};

use cluster_core::laws::stored_sessions_go_on;
use cluster_core::{Book, resume};
use kept_store::Kept;
use mds_types::{Limit, Refusal};
use object_tables::ReadFault;
use session_rows::{Restored, RowsFault, restore};
use sqlite_trees::store::Store as Trees;
use std::alloc::Global;
use thiserror::Error;

/// Why a cluster isn't opened.
#[derive(Clone, Copy, Debug, PartialEq, Eq, Error)]
pub enum Unopened {
    /// The objects have no tree that can be mounted.
    #[error("{0}")]
    Refused(Refusal),
    /// The rows of the sessions can't be read.
    #[error("the table of its sessions can't be read")]
    Unread(ReadFault),
    /// A row of the sessions is damaged.
    #[error("{0}")]
    Damaged(RowsFault),
}

/// Mounts the tree that a store has, and goes on with the sessions and the next inode numbers that the store keeps
/// beside it. A repeat of a request that the last kept flush had answered gets the same reply, or is too old. No inode
/// number that was given before that flush is given again. If a store keeps no sessions, this is a plain mount.
///
/// Fails if the tree can't be mounted, or if a row of the sessions can't be read or is damaged. Then the store is
/// returned as it was.
pub fn open_book<T: Trees + Drop>(
    alloc: Global,
    mut kept: Kept<T>,
    ranks: u8,
    cache: u32,
    limit: Limit,
) -> Result<Book<Kept<T>>, (Unopened, Kept<T>)>
    requires some { 1 ≤ ranks }
    requires ranked { ranks ≤ 16 }
    requires least { 512 ≤ cache }
    requires most { cache ≤ 65536 }
    ensures cold { IfOk result (λ book. IsColdTree kept.objects (shown book.core.state)) }
    ensures goes_on { IfOk result (λ book. ((t : T) → IsClean (T.Store.view t)) → (rows : SessionRows)
        → StoresRows (T.Store.recovers kept.tables) rows → GoesOnFromRows rows book) }
    ensures sound { IfOk result IsSoundKept }
    ensures refused { IfErr result (λ back. MayNotOpen T.Store.view T.Store.recovers kept back.0) }
    ensures left { IfErr result (λ back. back.1.objects ≡ kept.objects) }
{
    stored_sessions_go_on();
    let rows = match kept.session_rows() {
        Ok(rows) => rows,
        Err(fault) => return Err((Unopened::Unread(fault), kept)),
    };
    let Restored { sessions, nexts } = match restore(alloc, &rows) {
        Ok(restored) => restored,
        Err(fault) => return Err((Unopened::Damaged(fault), kept)),
    };
    drop(rows);
    match resume(alloc, kept, ranks, cache, limit, sessions, &nexts) {
        Ok(book) => Ok(book),
        Err((refusal, kept)) => Err((Unopened::Refused(refusal), kept)),
    }
}
