//! The entries that a readdir answers.
ghost use Rattle.std.specs.Cmp.{partial_equiv_from_equiv, decided};
ghost use Rattle.std.specs.Cmp.Lexicographic.{pointwise, lists_equiv};
ghost use Rattle.std.specs.Prelude.{◌≡◌, ◌==◌, ◌&&◌, List, ℕ, [], IfOk};
ghost use Rattle.std.proofs.Common.{rules};
ghost use Rattle.std.proofs.lemmas.Slice.Eq.{bytes_eq-Decides, slice_eq-Decides};
ghost use Rattle.sorted_map.proofs.Decided.{pair_decides};
ghost use Rattle.mds_types.specs.Copies.{IsMadeOrLacks};
ghost use Rattle.mds_types.specs.InodeLaws.{inode_decides};
ghost use Rattle.mds_types.specs.declared.inodes.Inode.{Inode};

use crate::inodes::Inode;
use crate::names::Name;
use std::alloc::AllocError;
use std::marker::Model;

/// Names with their inodes, in the order in which they were put. Seen by its contents, never by its capacity.
#[derive(Clone, Debug, Drop)]
pub struct Listing {
    items: Vec<(Name, Inode)>,
}

impl Model for Listing {
    ghost use Rattle.std.specs.Prelude.{List, ℕ};
    ghost use Rattle.mds_types.specs.declared.inodes.Inode.{Inode};

    ghost Value = { List (List ℕ × Inode) };

    ghost view = { λ l. l.items.items };
}

impl Listing {
    /// The listing of these entries. Takes no memory.
    pub fn from_vec(items: Vec<(Name, Inode)>) -> Listing
        ensures { result ≡ items.items }
    {
        Listing { items }
    }

    /// The entries, given back. Takes no memory.
    pub fn into_vec(self) -> Vec<(Name, Inode)>
        ensures { result.items ≡ self }
    {
        self.items
    }

    /// The entries.
    pub fn as_slice(&self) -> &[(Name, Inode)]
        ensures { result.now ≡ self.now }
    {
        self.items.as_slice()
    }

    /// A copy. Takes memory for the entries: an empty one takes none, and its copy never fails.
    pub fn try_clone(&self) -> Result<Listing, AllocError>
        ensures { IsMadeOrLacks self.now (self.now ≡ [] → ⊥) result }
    {
        if self.items.is_empty() {
            return Ok(Listing {
                items: Vec::new(*self.items.allocator()),
            });
        }
        self.clone()
    }
}

impl PartialEq for Listing {
    ghost eq = { pointwise (λ (a b : List ℕ × Inode). pointwise ◌==◌ a.0 b.0 && ⟦<Inode as PartialEq>⟧.eq a.1 b.1) };

    ghost laws = { partial_equiv_from_equiv (lists_equiv (decided _ (pair_decides _ _ bytes_eq-Decides inode_decides))) };

    fn eq(&self, other: &Listing) -> bool {
        self.items == other.items
    }
}

impl Eq for Listing {
    ghost laws = { lists_equiv (decided _ (pair_decides _ _ bytes_eq-Decides inode_decides)) };
}
