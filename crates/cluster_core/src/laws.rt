//! Laws of steps, each as the contract of a function that does nothing.
ghost use Rattle.cluster_core.specs.Checks.{MergesByChecks, SplitsByChecks};
ghost use Rattle.cluster_core.specs.Commits.{JobsKeepObjects, JobsTakeWhatIsShown};
ghost use Rattle.cluster_core.specs.Forgetting.{ABeginningMayGo, AllIsOneHistory, NoneIsNewAgain};
ghost use Rattle.cluster_core.specs.KeptSessions.{KeptStaysTold, NoRowsTellOfANewBook, StepsStayTold, StoredSessionsGoOn, ToldOfStandIns};
ghost use Rattle.cluster_core.specs.Opening.{BeginsAfresh, RestartsAreOneHistory};
ghost use Rattle.cluster_core.specs.Exporting.{ImportsWhatIsTold, TellsOneBytes, TellsWhatSendGave};
ghost use Rattle.cluster_core.specs.Teeth.{OneThreadInventsNothing, OneThreadTellsAll};

use session_rows::laws::sessions_are_spelled_once;

/// While a commit is under way, whatever steps are made, the object of its fragment is the one of the moment at which
/// the job was given out. The end of the commit therefore spells what the fragment showed at that moment.
pub fn jobs_keep_objects()
    ensures { JobsKeepObjects }
{}

/// A job is given out with the entries that its fragment shows.
pub fn jobs_take_what_is_shown()
    ensures { JobsTakeWhatIsShown }
{}

/// The bytes that are told of a sent export are those that its Send gave, and always the same in one state. No Import
/// that gets them is refused for its bytes.
pub fn sent_bytes_are_imported()
    ensures given { TellsWhatSendGave }
    ensures same { TellsOneBytes }
    ensures imported { ImportsWhatIsTold }
{}

/// If nothing was sent, one thread applies nothing and gives no reply.
pub fn one_thread_invents_nothing()
    ensures { OneThreadInventsNothing }
{}

/// If no reply is marked first, one thread applied nothing.
pub fn one_thread_tells_all()
    ensures { OneThreadTellsAll }
{}

/// A refused split is refused by the first of its checks that holds.
pub fn splits_by_checks()
    ensures { SplitsByChecks }
{}

/// A refused merge is refused by the first of its checks that holds.
pub fn merges_by_checks()
    ensures { MergesByChecks }
{}

/// A beginning of the history may be forgotten at any time. All entries, forgotten or not, are one legal history. No
/// request that was applied is new again: if its reply isn't kept any more, it is too old.
pub fn a_beginning_may_be_forgotten()
    ensures whole { AllIsOneHistory }
    ensures forgotten { ABeginningMayGo }
    ensures repeats { NoneIsNewAgain }
{}

/// From an opening with nothing before it, a history is legal exactly if it is legal from the opening's tree. Behind
/// the stand-ins of any opening, it is legal from that tree.
pub fn an_opening_may_be_a_tree()
    ensures { BeginsAfresh }
{}

/// A book that goes on with what was kept of an earlier one continues the earlier history: what it answers after the
/// restart is legal behind all that was answered before. Each request is therefore applied once, and no number is given
/// twice.
pub fn restarts_are_one_history()
    ensures { RestartsAreOneHistory }
{}

/// What a store keeps of sessions is enough to go on from: if rows tell all of a history, then the stand-ins of what
/// they spell continue it. A repeat of a request that the history keeps is answered as before, or is too old. What is
/// legal behind the stand-ins is legal behind the history. And the rows tell all of the stand-ins.
pub fn stored_sessions_go_on()
    ensures goes_on { StoredSessionsGoOn }
    ensures told { ToldOfStandIns }
{
    sessions_are_spelled_once();
}

/// Rows that tell all of a book's sessions but those of the changed clients do so from its beginning on, whatever it
/// does: a store without rows at a new book, any rows behind a step, and the rows that `Book::keep` made.
pub fn rows_stay_told()
    ensures start { NoRowsTellOfANewBook }
    ensures stepped { StepsStayTold }
    ensures kept { KeptStaysTold }
{
    sessions_are_spelled_once();
}
