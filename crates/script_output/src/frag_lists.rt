//! Leaves of a directory, and their line.
ghost use Rattle.std.specs.Cmp.{decided, partial_equiv_from_equiv};
ghost use Rattle.std.specs.Cmp.Lexicographic.{lists_equiv, pointwise};
ghost use Rattle.std.specs.List.{flat_map};
ghost use Rattle.std.specs.Prelude.{◌≡◌, Some};
ghost use Rattle.std.proofs.Common.{rules};
ghost use Rattle.script_output.specs.Texts.{frags_text, spaced_frag, printed_tree};

use mds_types::Frag;
use std::fmt;
use std::marker::Model;

/// Fragments, in the order in which they were put. Seen by its contents, never by its capacity.
#[derive(Debug, Drop)]
pub struct FragList {
    frags: Vec<Frag>,
}

impl Model for FragList {
    ghost use Rattle.std.specs.Prelude.{List};
    ghost use Rattle.mds_types.specs.Frag.{Fragment};

    ghost Value = { List Fragment };

    ghost view = { λ l. l.frags.items };
}

impl FragList {
    /// The list of these fragments. Takes no memory.
    pub fn from_vec(frags: Vec<Frag>) -> FragList
        ensures { result ≡ frags.items }
    {
        FragList { frags }
    }

    // The fragments.
    fn as_slice(&self) -> &[Frag]
        ensures { result.now ≡ self.now }
    {
        self.frags.as_slice()
    }
}

impl PartialEq for FragList {
    ghost eq = { pointwise ⟦<Frag as PartialEq>⟧.eq };

    ghost laws = { partial_equiv_from_equiv (lists_equiv (decided _ (λ a b. Prim.search rules))) };

    fn eq(&self, other: &FragList) -> bool {
        self.frags == other.frags
    }
}

impl Eq for FragList {
    ghost laws = { lists_equiv (decided _ (λ a b. Prim.search rules)) };
}

// Each fragment, behind a space.
#[derive(Clone, Copy)]
struct LeafTexts<'a>(&'a FragList);

impl fmt::Display for LeafTexts<'_> {
    ghost output = { λ text. Some (flat_map spaced_frag text.0.now) };

    fn fmt<W: fmt::Write>(&self, f: &mut fmt::Formatter<W>) -> fmt::Result {
        for leaf in self.0.as_slice() {
            write!(f, " {leaf}")?;
        }
        Ok(())
    }
}

/// `frags K F ..`: how many fragments, and then each of them.
impl fmt::Display for FragList {
    ghost output = { λ leaves. Some (frags_text leaves) };

    fn fmt<W: fmt::Write>(&self, f: &mut fmt::Formatter<W>) -> fmt::Result {
        let count = self.as_slice().len();
        let leaves = LeafTexts(self);
        write!(f, "frags {count}{leaves}")
    }
}

/// `tree K F ..`: how many fragments, and then each of them, as the leaves of a fragment tree's object.
#[derive(Clone, Copy)]
pub struct TreeText<'a>(pub &'a FragList);

impl fmt::Display for TreeText<'_> {
    ghost output = { λ text. Some (printed_tree text.0.now) };

    fn fmt<W: fmt::Write>(&self, f: &mut fmt::Formatter<W>) -> fmt::Result {
        let count = self.0.as_slice().len();
        let leaves = LeafTexts(self.0);
        write!(f, "tree {count}{leaves}")
    }
}
