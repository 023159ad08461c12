//! Laws of trees, picks, splits and merges, for the crates that hold a tree. A law is its contract: its body does
//! nothing.
ghost use Rattle.std.specs.Prelude.{◌≡◌, ◌≢◌, ◌↔◌, ℕ, true, List};
ghost use Rattle.mds_types.specs.Frag.{Fragment, IsFragment, ContainsFragment, IsCover};
ghost use Rattle.fragtree.specs.FragTree.{HasLeaf, IsAscendingCover, IsPick, IsTree, RefusesMerge, RefusesSplit, lies_inside};
ghost use Rattle.mds_types.specs.declared.refusals.Refusal.{Refusal};

/// The leaves of a tree are exactly the fragments by strictly ascending value that cover the hashes.
pub fn tree_is_ascending_cover()
    ensures { (leaves : List Fragment) → IsTree leaves ↔ IsAscendingCover leaves }
{}

/// The leaves of a tree cover the hashes: each lies in exactly one of them.
pub fn tree_covers()
    ensures { (leaves : List Fragment) → IsTree leaves → IsCover leaves }
{}

/// Trees with the same leaves are the same: their order and number follow.
pub fn same_leaves_same_tree()
    ensures { (a b : List Fragment) → IsTree a → IsTree b → ((leaf : Fragment) → HasLeaf a leaf ↔ HasLeaf b leaf)
        → a ≡ b }
{}

/// Every hash has a pick.
pub fn each_hash_has_a_pick()
    ensures { (leaves : List Fragment) (hash : ℕ) → IsTree leaves → (leaf : Fragment) × IsPick leaves hash leaf }
{}

/// A hash has one pick.
pub fn pick_is_unique()
    ensures { (leaves : List Fragment) (hash : ℕ) (f g : Fragment) → IsPick leaves hash f → IsPick leaves hash g
        → f ≡ g }
{}

/// What lies properly inside a fragment is contained in it, and is not the fragment itself.
pub fn inside_is_contained()
    ensures { (f g : Fragment) → IsFragment f → IsFragment g → (lies_inside f g ≡ true)
        ↔ (ContainsFragment f g × (g ≢ f)) }
{}

/// A split is refused for one reason alone, and for want of memory only where it could be made.
pub fn split_is_refused_for_one_reason()
    ensures { (leaves : List Fragment) (f : Fragment) (nb : ℕ) (a b : Refusal) → RefusesSplit leaves f nb a
        → RefusesSplit leaves f nb b → a ≡ b }
{}

/// A merge is refused for one reason alone, and for want of memory only where it could be made.
pub fn merge_is_refused_for_one_reason()
    ensures { (leaves : List Fragment) (f : Fragment) (a b : Refusal) → RefusesMerge leaves f a
        → RefusesMerge leaves f b → a ≡ b }
{}
