//! Roots that are promised to other ranks.
ghost use Rattle.std.specs.Prelude.{◌≡◌, ◌+◌, ◌≤◌, Some, IsSome, IfErr, OnOk, OnErr};
ghost use Rattle.std.specs.FinMap as map;
ghost use Rattle.mds_types.specs.declared.ids.Rank.{Rank as RankNumber};
ghost use Rattle.mds_types.specs.declared.refusals.Refusal.TheVariants.{NoMemory};
ghost use Rattle.subtree_map.specs.Changes.{IsHanded};

use crate::subtrees::Subtrees;
use mds_types::{Frag, Ino, Rank, Refusal};

impl Subtrees {
    /// Promises a root to a rank, in place of any earlier promise of it, so that `hand` can't fail. Changes no
    /// authority. Refused for want of memory alone, and then all is left as it was.
    pub fn promise(&mut self, dir: Ino, frag: Frag, rank: Rank) -> Result<(), Refusal>
        ensures ok { OnOk result (self.new.promises ≡ map.insert self.old.promises (dir, frag) rank) }
        ensures roots { self.new.roots ≡ self.old.roots }
        ensures room { self.new.room ≡ self.old.room }
        ensures err { IfErr result (λ reason. reason ≡ NoMemory) }
        ensures left { OnErr result (self.new ≡ self.old) }
    {
        self.lists.promise(dir, frag, rank)
    }

    /// The rank that a root is promised to.
    pub fn promised(&self, dir: Ino, frag: Frag) -> Option<Rank>
        ensures { result ≡ map.get self.now.promises (dir, frag) }
    {
        self.lists.promised(dir, frag)
    }

    /// Takes up the promise of a root: the root has the rank that it was promised to, and with it the leaves of its
    /// region. All others keep theirs. Takes no memory.
    pub fn hand(&mut self, dir: Ino, frag: Frag)
        requires is_root { IsSome (map.get self.old.roots (dir, frag)) }
        requires promised { IsSome (map.get self.old.promises (dir, frag)) }
        ensures roots { (rank : RankNumber) → map.get self.old.promises (dir, frag) ≡ Some rank
            → self.new.roots ≡ map.insert self.old.roots (dir, frag) rank }
        ensures authority { (rank : RankNumber) → map.get self.old.promises (dir, frag) ≡ Some rank
            → IsHanded self.old.roots self.new.roots (dir, frag) rank }
        ensures promises { self.new.promises ≡ map.remove self.old.promises (dir, frag) }
        ensures room { self.new.room ≡ self.old.room }
    {
        if let Some(rank) = self.lists.promised(dir, frag) {
            self.lists.keep_promise(dir, frag, rank);
        }
    }

    /// Takes back the promise of a root, if there is one. Changes no authority, and takes no memory.
    pub fn withdraw(&mut self, dir: Ino, frag: Frag)
        ensures promises { self.new.promises ≡ map.remove self.old.promises (dir, frag) }
        ensures roots { self.new.roots ≡ self.old.roots }
        ensures room { self.new.room ≡ self.old.room }
    {
        self.lists.withdraw(dir, frag);
    }
}
