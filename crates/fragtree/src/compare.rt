//! Whether two trees have the same leaves.
ghost use Rattle.std.specs.Cmp.{decided, partial_equiv_from_equiv};
ghost use Rattle.std.specs.Cmp.Lexicographic.{pointwise, lists_equiv};
ghost use Rattle.std.specs.Prelude.{◌≡◌, ◌↔◌, IsTrue};
ghost use Rattle.std.proofs.Common.{rules};
ghost use Rattle.fragtree.specs.FragTree.{IsTree};

use crate::tree::FragTree;
use mds_types::Frag;

impl PartialEq for FragTree {
    ghost eq = { pointwise ⟦<Frag as PartialEq>⟧.eq };

    ghost laws = { partial_equiv_from_equiv (lists_equiv (decided _ (λ a b. Prim.search rules))) };

    /// Whether both have the same leaves, by whatever splits.
    fn eq(&self, other: &FragTree) -> bool
        ensures gives { result ≡ pointwise ⟦<Frag as PartialEq>⟧.eq self.now other.now }
        ensures same { IsTrue result ↔ (self.now ≡ other.now) }
    {
        self.len() == other.len() && have_same_leaves(self, other)
    }
}

impl Eq for FragTree {
    ghost laws = { lists_equiv (decided _ (λ a b. Prim.search rules)) };
}

// Whether each leaf of one tree is one of the other.
fn have_same_leaves(tree: &FragTree, other: &FragTree) -> bool
    requires whole { IsTree tree.now }
    requires other_whole { IsTree other.now }
    ensures { IsTrue result ↔ (tree.now ≡ other.now) }
{
    for leaf in tree {
        if !other.has_leaf(leaf) {
            return false;
        }
    }
    true
}
