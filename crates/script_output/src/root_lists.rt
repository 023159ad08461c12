//! The roots of subtrees, and their line.
ghost use Rattle.std.specs.Cmp.{decided, partial_equiv_from_equiv};
ghost use Rattle.std.specs.Cmp.Lexicographic.{lists_equiv, pointwise};
ghost use Rattle.std.specs.List.{flat_map};
ghost use Rattle.std.specs.Prelude.{◌≡◌, Some};
ghost use Rattle.std.proofs.Common.{rules};
ghost use Rattle.script_output.specs.Texts.{root_text, subtrees_text};

use mds_types::{Frag, Ino, Rank};
use std::fmt;
use std::marker::Model;

/// The root of a subtree: a leaf that has a rank of its own.
#[derive(Clone, Copy, Debug, PartialEq, Eq)]
pub struct Root {
    pub ino: Ino,
    pub frag: Frag,
    pub rank: Rank,
}

/// Subtree roots, in the order in which they were put. Seen by its contents, never by its capacity.
#[derive(Debug, Drop)]
pub struct RootList {
    roots: Vec<Root>,
}

impl Model for RootList {
    ghost use Rattle.std.specs.Prelude.{List};
    ghost use Rattle.script_output.specs.declared.root_lists.Root.{Root};

    ghost Value = { List Root };

    ghost view = { λ l. l.roots.items };
}

impl RootList {
    /// The list of these roots. Takes no memory.
    pub fn from_vec(roots: Vec<Root>) -> RootList
        ensures { result ≡ roots.items }
    {
        RootList { roots }
    }

    // The roots.
    fn as_slice(&self) -> &[Root]
        ensures { result.now ≡ self.now }
    {
        self.roots.as_slice()
    }
}

impl PartialEq for RootList {
    ghost eq = { pointwise ⟦<Root as PartialEq>⟧.eq };

    ghost laws = { partial_equiv_from_equiv (lists_equiv (decided _ (λ a b. Prim.search rules))) };

    fn eq(&self, other: &RootList) -> bool {
        self.roots == other.roots
    }
}

impl Eq for RootList {
    ghost laws = { lists_equiv (decided _ (λ a b. Prim.search rules)) };
}

// Each root, behind a space.
#[derive(Clone, Copy)]
struct RootTexts<'a>(&'a RootList);

impl fmt::Display for RootTexts<'_> {
    ghost output = { λ text. Some (flat_map root_text text.0.now) };

    fn fmt<W: fmt::Write>(&self, f: &mut fmt::Formatter<W>) -> fmt::Result {
        for root in self.0.as_slice() {
            let ino = root.ino.0;
            let frag = root.frag;
            let rank = root.rank.0;
            write!(f, " {ino:x}:{frag}:{rank}")?;
        }
        Ok(())
    }
}

/// `subtrees K INO:FRAG:RANK ..`: how many roots, and then each of them with its rank.
impl fmt::Display for RootList {
    ghost output = { λ roots. Some (subtrees_text roots) };

    fn fmt<W: fmt::Write>(&self, f: &mut fmt::Formatter<W>) -> fmt::Result {
        let count = self.as_slice().len();
        let roots = RootTexts(self);
        write!(f, "subtrees {count}{roots}")
    }
}
