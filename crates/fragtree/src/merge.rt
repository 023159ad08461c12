//! How leaves are merged.
ghost use Rattle.std.specs.Prelude.{◌≡◌, ◌≢◌, IfErr, OnErr, OnOk, length};
ghost use Rattle.fragtree.specs.FragTree.{CanMerge, IsMerge, IsTree, RefusesMerge, leaves_inside};
ghost use Rattle.mds_types.specs.declared.refusals.Refusal.TheVariants.{NoMemory};

use crate::closing::close;
use crate::descents::last_hash;
use crate::tree::FragTree;
use mds_types::{Frag, Refusal};

impl FragTree {
    /// Whether leaves can be merged at the fragment, but for want of memory: `NoSuchFrag` where no leaf lies properly
    /// inside it, `TooManyFrags` where more than 256 do. Takes no memory, and the time of a pick for each leaf inside.
    pub fn check_merge(&self, f: Frag) -> Result<(), Refusal>
        ensures can { OnOk result (CanMerge self.now f) }
        ensures refused { IfErr result (RefusesMerge self.now f) }
        ensures memory { IfErr result (λ reason. reason ≢ NoMemory) }
    {
        let inside = self.count_inside(f);
        if inside == 0 {
            return Err(Refusal::NoSuchFrag);
        }
        if inside > FragTree::MAX_MERGED {
            return Err(Refusal::TooManyFrags);
        }
        Ok(())
    }

    /// Replaces the leaves properly inside the fragment, at most 256, by the fragment. Where no descent passes it the
    /// splits round it are written anew; the room for them is taken first, so a refused merge leaves all as it was.
    pub fn merge(&mut self, f: Frag) -> Result<(), Refusal>
        ensures can { OnOk result (CanMerge self.old f) }
        ensures merged { OnOk result (IsMerge self.old self.new f) }
        ensures refused { IfErr result (RefusesMerge self.old f) }
        ensures err { OnErr result (self.new ≡ self.old) }
        ensures valid { IsTree self.new }
    {
        if let Err(refusal) = self.check_merge(f) {
            return Err(refusal);
        }
        let inside = self.count_inside(f);
        self.splits.reserve(2 * usize::from(f.bits()))?;
        close(&mut self.splits, f);
        self.count = self.count - inside + 1;
        Ok(())
    }

    // How many leaves lie properly inside a fragment.
    fn count_inside(&self, f: Frag) -> usize
        ensures { result ≡ length (leaves_inside f self.now) }
    {
        // The contract of `len` is what says here that the leaves are those of a tree.
        let _ = self.len();
        let mut leaf = self.pick(f.value());
        if leaf.bits() <= f.bits() {
            return 0;
        }
        let mut count = 1;
        while last_hash(leaf) < last_hash(f) {
            leaf = self.pick(last_hash(leaf) + 1);
            count += 1;
        }
        count
    }
}
