//! What ranks last heard of each other's roots. No answer depends on it.
ghost use Rattle.std.specs.Prelude.{◌≡◌, IfErr, OnErr};
ghost use Rattle.mds_types.specs.Leaf.{Leaf};
ghost use Rattle.mds_types.specs.declared.refusals.Refusal.TheVariants.{NoMemory};
ghost use Rattle.subtree_map.specs.Authority.{IsBound};

use crate::subtrees::Subtrees;
use inode_table::Dirs;
use mds_types::{Frag, Ino, Rank, Refusal};
use std::alloc::Global;

impl Subtrees {
    /// Where a rank has a hint on a root, it names the root's rank from then on. Takes no memory.
    pub fn correct(&mut self, rank: Rank, dir: Ino, frag: Frag)
        ensures { self.new ≡ self.old }
    {
        self.lists.correct(rank, dir, frag);
    }

    /// A rank hears the bounds of a root's region: it has a hint on each that is another's. Takes memory for the bounds
    /// and the hints. Refused for want of memory alone, and only where there is a bound.
    pub fn tell_bounds(
        &mut self,
        alloc: Global,
        dirs: &Dirs,
        dir: Ino,
        frag: Frag,
        rank: Rank,
    ) -> Result<(), Refusal>
        ensures same { self.new ≡ self.old }
        ensures err { IfErr result (λ reason. reason ≡ NoMemory) }
        ensures memory { OnErr result
            ((bound : Leaf) × IsBound self.old.roots dirs.now.homes dirs.now.trees (dir, frag) bound) }
    {
        let Ok(bounds) = self.bounds(alloc, dirs, dir, frag) else {
            return Err(Refusal::NoMemory);
        };
        if bounds.is_empty() {
            return Ok(());
        }
        self.lists.learn(rank, &bounds)
    }

    /// The rank that a rank's hint on a leaf names; none where it has none. It may be wrong.
    pub fn hint(&self, rank: Rank, dir: Ino, frag: Frag) -> Option<Rank> {
        self.lists.hint(rank, dir, frag)
    }

    /// Each hint of each rank names this rank, be it right or wrong. Takes no memory.
    pub fn set_hints(&mut self, rank: Rank)
        ensures { self.new ≡ self.old }
    {
        self.lists.set_hints(rank);
    }
}
