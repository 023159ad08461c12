//! Laws of rounds, each as the contract of a function that does nothing.
ghost use Rattle.asking.specs.Ask.{NewAreIdle};
ghost use Rattle.asking.specs.Drain.{LowestIsFirst, RoundsProgress, StraysAreWaiting};

/// In each round a request at a front is granted what it needs and served. The round answers it, forwards it to its
/// master, or leaves it waiting since memory or the store refused or a rank lacks places.
pub fn rounds_progress()
    ensures { RoundsProgress }
{}

/// The number of waiting requests bounds the number of those that aren't at their master.
pub fn strays_are_waiting()
    ensures { StraysAreWaiting }
{}

/// The front of the lowest rank where something waits is the first waiting copy of its client and number.
pub fn lowest_is_first()
    ensures { LowestIsFirst }
{}

/// Nothing waits in a new book.
pub fn new_are_idle()
    ensures { NewAreIdle }
{}
