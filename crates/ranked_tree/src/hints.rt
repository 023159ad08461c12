//! What ranks last heard of each other's subtree roots. No answer depends on it.
ghost use Rattle.std.specs.Prelude.{◌≡◌, IfErr, IfOk};

use crate::ranked_tree::RankedTree;
use keeping::{Keep, RowEdit, Unkept};
use mds_types::{Dirfrag, Rank};
use objstore::Store;
use std::snapshot::Snapshot;

impl<S: Store + Drop> RankedTree<S> {
    /// Where a rank has a hint on the nearest root of a leaf, it names that root's rank from then on. Takes no memory.
    pub fn correct_hint(&mut self, rank: Rank, at: &Dirfrag)
        ensures { self.new ≡ self.old }
    {
        let roots = &mut self.regions.roots;
        if let Some(root) = roots.find_root_by(rank, self.tree.dirs(), at.dir, at.frag) {
            roots.correct(rank, root.0, root.1);
        }
    }

    /// Each hint of each rank names this rank, be it right or wrong. Takes no memory.
    pub fn set_hints(&mut self, rank: Rank)
        ensures { self.new ≡ self.old }
    {
        self.regions.roots.set_hints(rank);
    }
}

impl<S: Keep + Drop> RankedTree<S> {
    /// Writes what the store has where it outlives the process, with edits of the rows beside it. The results are the
    /// store before and after, for contracts alone. Whatever it returns, the tree is unchanged.
    pub fn keep(&mut self, edits: &[RowEdit]) -> Result<(Snapshot<S>, Snapshot<S>), Unkept>
        ensures same { self.new ≡ self.old }
        ensures taken { IfOk result (λ s. S.Takes s.0.value edits.now s.1.value) }
        ensures objects { IfOk result (λ s. S.objects s.1.value ≡ self.old.tree.objects) }
        ensures failed { IfErr result (λ _. S.may_fail) }
    {
        self.tree.keep(edits)
    }

    /// Leaves what was kept whole in one place, as a run ends. Whatever it answers, all is as it was.
    pub fn settle(&mut self) -> Result<(), Unkept>
        ensures same { self.new ≡ self.old }
        ensures failed { IfErr result (λ _. S.may_fail) }
    {
        self.tree.settle()
    }
}
