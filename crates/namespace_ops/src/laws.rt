//! Laws of the operation table, each the contract of a function that does nothing: they say that the definitions mean
//! what they should.
ghost use Rattle.namespace_ops.specs.Laws.{ErrnoLeavesTree, MakingTakesNumber, StepKeepsWellFormed, AboveIsChain, NumbersStay, NumberLeavesErrno, NamesAreListed, PagesMakeUpListing, ChangesLeaveOthers};

/// An operation that answers an errno leaves the tree.
pub fn errno_leaves_tree()
    ensures { ErrnoLeavesTree }
{}

/// Exactly an operation that makes an inode, and succeeds, takes the number that it is offered.
pub fn making_takes_number()
    ensures { MakingTakesNumber }
{}

/// A step keeps the tree well formed, if the number that it takes, where it takes one, is unused.
pub fn step_keeps_well_formed()
    ensures { StepKeepsWellFormed }
{}

/// In a well-formed tree the table's test of what is above is exact: it holds where a chain of entries leads there.
pub fn above_is_a_chain()
    ensures { AboveIsChain }
{}

/// An inode of the tree that a step leaves stood there before, or has the number that the step took.
pub fn numbers_stay()
    ensures { NumbersStay }
{}

/// Whether an operation answers an errno, the number that it is offered has no part in.
pub fn number_leaves_errno()
    ensures { NumberLeavesErrno }
{}

/// A listing has just the directory's names that come after the given one, in the order of their bytes.
pub fn names_are_listed()
    ensures { NamesAreListed }
{}

/// Pages, each listed after the last name of the one before, make up the whole listing.
pub fn pages_make_up_listing()
    ensures { PagesMakeUpListing }
{}

/// A change leaves every leaf that stood and is none of its fragments standing, with the names that it showed.
pub fn changes_leave_others()
    ensures { ChangesLeaveOthers }
{}
