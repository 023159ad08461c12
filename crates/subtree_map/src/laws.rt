//! Laws of authorities and regions, for the crates that hold a map of subtrees. A law is its contract: its body does
//! nothing.
ghost use Rattle.std.specs.FinMap as map;
ghost use Rattle.subtree_map.specs.Laws.{EachLeafHasOneRoot, EachLeafHasAuthority, NoLeafHasTwoAuthorities, RegionsDivideLeaves, RootBoundsOneRegion, NewDirectoryKeepsAuthority, NewDirectoryKeepsRoots};

/// Each leaf has one nearest root.
pub fn each_leaf_has_one_nearest_root()
    ensures { EachLeafHasOneRoot }
{}

/// Each leaf has an authority, and no other.
pub fn each_leaf_has_one_authority()
    ensures some { EachLeafHasAuthority }
    ensures one { NoLeafHasTwoAuthorities }
{}

/// The regions of the roots divide the leaves: each leaf is in one of them.
pub fn regions_divide_the_leaves()
    ensures { RegionsDivideLeaves }
{}

/// Each root below the root directory is a bound of one region.
pub fn each_root_bounds_one_region()
    ensures { RootBoundsOneRegion }
{}

/// A new directory changes the authority of no leaf that stood, and its leaf has one.
pub fn new_directory_changes_no_authority()
    ensures authority { NewDirectoryKeepsAuthority }
    ensures valid { NewDirectoryKeepsRoots }
{}
