//! A law of a run, the contract of a function that does nothing.
ghost use Rattle.kept_book.specs.Runs.{LeavesAFlush};

use sqlite_trees::store::Store as Trees;

/// What a crash leaves at any moment of a run: the tree and the sessions' rows of the last flush that was kept, or of a
/// flush tried since.
pub fn a_crash_leaves_a_flush<T: Trees + Drop>()
    ensures { LeavesAFlush T.Store.recovers }
{}
