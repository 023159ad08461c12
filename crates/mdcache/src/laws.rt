//! Laws of the definitions of changes, each the contract of a function that does nothing.
ghost use Rattle.mdcache.specs.Given.{GivenOverIsRight};
ghost use Rattle.mdcache.specs.Made.{ChangesAreRight};
ghost use Rattle.mdcache.specs.Splits.{MergesAreRight, SplitsAreRight};

/// Whatever change of the tree is made: the state is sound then, its shown tree is the one that the change makes of the
/// tree that was shown, each directory that stands has the leaves that it had, and a leaf that is none of those that
/// the change names shows what it showed.
pub fn changes_are_right()
    ensures { ChangesAreRight }
{}

/// Whatever leaf is split: the state is sound then, its shown tree is the same, and every other leaf shows what it
/// showed.
pub fn splits_are_right()
    ensures { SplitsAreRight }
{}

/// Whatever leaves are merged: the state is sound then, its shown tree is the same, and every other leaf shows what it
/// showed.
pub fn merges_are_right()
    ensures { MergesAreRight }
{}

/// Whatever leaves go from one rank to another for which no job stands: the state is sound then, its shown tree is the
/// same, and every leaf shows what it showed.
pub fn given_over_is_right()
    ensures { GivenOverIsRight }
{}
