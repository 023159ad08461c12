//! What ties cached fragments to their objects. A law is its contract: its body does nothing.
ghost use Rattle.dentry_cache.specs.Divided.{ChildrenHaveTheirOwn, NamesAreDivided};
ghost use Rattle.dentry_cache.specs.Standing.{ChangedCanEnd, StandingIsUnclean, TakenCanEnd};
ghost use Rattle.dentry_cache.specs.Ties.{ChangedAreTied, CommittedAreTied, FetchedAreTied, TiedShow};

/// What a cached fragment shows is told by what it has beyond its object, and by the object.
pub fn tied_fragments_show()
    ensures { TiedShow }
{}

/// A fetch ties its fragment to the object, and a change of a name keeps the tie.
pub fn fetches_and_changes_tie()
    ensures fetched { FetchedAreTied }
    ensures changed { ChangedAreTied }
{}

/// A commit leaves an object that spells what the snapshot shows, and the fragment tied to it.
pub fn commits_tie()
    ensures { CommittedAreTied }
{}

/// The commit of a snapshot can end from when it was taken, whatever changes at versions above all of its own; its
/// fragment isn't clean until then.
pub fn snapshots_stand()
    ensures taken { TakenCanEnd }
    ensures changed { ChangedCanEnd }
    ensures unclean { StandingIsUnclean }
{}

/// The children of a fragment divide its names: each name is in one child, and no other, whose hashes contain its own;
/// and no child has a name that the fragment hasn't.
pub fn children_divide()
    ensures divided { NamesAreDivided }
    ensures own { ChildrenHaveTheirOwn }
{}
