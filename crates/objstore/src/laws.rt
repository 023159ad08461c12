//! A law of pages, the contract of a function that does nothing.
ghost use Rattle.objstore.specs.Omap.{PagesMakeUpWhole};

/// Pages, each of the pairs after the last key of the one before, make up the whole.
pub fn pages_make_up_whole()
    ensures { PagesMakeUpWhole }
{}
