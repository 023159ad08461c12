//! Laws of the cold tree: each is the contract of a function that does nothing.
ghost use Rattle.cold_store.specs.ColdTree.{HasOneColdTree};
ghost use Rattle.cold_store.specs.Walked.{WalkedIsTabled};

/// A store has at most one cold tree.
pub fn has_one_cold_tree()
    ensures { HasOneColdTree }
{}

/// What a walk finds is a well-formed tree with the table of its directories.
pub fn walked_is_tabled()
    ensures { WalkedIsTabled }
{}
