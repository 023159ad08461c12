//! Laws of what a flush ends in, each the contract of a function that does nothing.
ghost use Rattle.mdcache.specs.Flushed.{BegunAreAtHand, BegunLeaveAtHand, EndedAreClean, FlushedIsCold, OthersStayAtHand, PurgedAreExact, PurgedAreFlushed, StepsKeepTree};

/// Where nothing is unsaved, and the tree objects are as the leaves are, the store's cold tree is the shown tree; and
/// once all is purged its objects are exactly those of the leaves and of the trees of several leaves. So it is where
/// the objects of those trees were saved whose leaves were ever set, and then all was purged.
pub fn flushed_is_cold()
    ensures cold { FlushedIsCold }
    ensures exact { PurgedAreExact }
    ensures purged { PurgedAreFlushed }
{}

/// A commit of a fragment that wasn't changed since it began leaves the fragment clean, and other such commits as they
/// are.
pub fn whole_commits_leave_nothing()
    ensures begun { BegunAreAtHand }
    ensures left { BegunLeaveAtHand }
    ensures ended { EndedAreClean }
    ensures others { OthersStayAtHand }
{}

/// What two steps of a flush each keep, both together keep.
pub fn steps_keep_the_tree()
    ensures { StepsKeepTree }
{}
