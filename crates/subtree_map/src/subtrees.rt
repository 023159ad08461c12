//! The subtree roots, and the calls that read and change single ones.
ghost use Rattle.std.specs.Prelude.{◌≡◌, ◌+◌, ◌-◌, ◌<◌, ◌≤◌, if◌then◌else◌, false, is_some, None, IsOk, OnOk, OnErr, IsTrue, IfErr, IfOk};
ghost use Rattle.std.specs.FinMap as map;
ghost use Rattle.mds_types.specs.Leaf.{Leaf};
ghost use Rattle.mds_types.specs.declared.refusals.Refusal.TheVariants.{NoMemory};
ghost use Rattle.inode_table.specs.Dirs.{Homes, Covers, IsLive};
ghost use Rattle.subtree_map.specs.Authority.{IsSubtrees};
ghost use Rattle.subtree_map.specs.Changes.{IsCutOff};

use crate::lists::Lists;
use crate::roots::Roots;
use mds_types::{Frag, Ino, Rank, Refusal};
use std::alloc::{AllocError, Global};
use std::marker::Model;

/// The subtree roots: leaves that have a rank of their own. Every other leaf has the rank of the leaf that holds the
/// dentry of its directory. Each rank has a list of its own: the roots that are its own, what it last heard of others,
/// and what is promised to it.
#[derive(Debug, Drop)]
pub struct Subtrees {
    pub(crate) lists: Lists,
}

impl Model for Subtrees {
    ghost use Rattle.std.specs.Coded.{codes};
    ghost use Rattle.std.specs.FinMap as map;
    ghost use Rattle.subtree_map.specs.Changes.{Subtrees};

    ghost Value = { Subtrees };

    ghost coded = { Prim.hlevel (codes, map.code) };

    ghost view = { λ s. s.lists };
}

impl Subtrees {
    /// No roots, and a list for each of so many ranks. Takes memory for the lists.
    pub fn new(alloc: Global, ranks: u8) -> Result<Subtrees, AllocError>
        ensures roots { IfOk result (λ subtrees. subtrees.roots ≡ map.empty) }
        ensures promises { IfOk result (λ subtrees. subtrees.promises ≡ map.empty) }
        ensures room { IfOk result (λ subtrees. subtrees.room ≡ 0) }
    {
        let lists = Lists::new(alloc, ranks)?;
        Ok(Subtrees { lists })
    }

    /// The rank of a root; none for a leaf that is no root.
    pub fn get(&self, dir: Ino, frag: Frag) -> Option<Rank>
        ensures { result ≡ map.get self.now.roots (dir, frag) }
    {
        self.lists.get(dir, frag)
    }

    /// The same as `get`, where a rank asks: it looks into its own list first, and takes a hint of it where the rank
    /// that the hint names has that root.
    pub fn get_by(&self, rank: Rank, dir: Ino, frag: Frag) -> Option<Rank>
        ensures { result ≡ map.get self.now.roots (dir, frag) }
    {
        self.lists.get_by(rank, dir, frag)
    }

    /// Whether some rank knows of a leaf of a directory: where none does none of them is a root. Where one is promised, or
    /// a hint of one is left, none may be a root either. Takes no memory, and a search in the list of each rank.
    pub fn knows_of(&self, dir: Ino) -> bool
        ensures { result ≡ false → (leaf : Leaf) → leaf.0.0 ≡ dir.0 → map.get self.now.roots leaf ≡ None }
    {
        self.lists.knows_of(dir)
    }

    /// Whether a leaf is a root.
    pub fn is_root(&self, dir: Ino, frag: Frag) -> bool
        ensures { result ≡ is_some (map.get self.now.roots (dir, frag)) }
    {
        self.lists.contains(dir, frag)
    }

    /// The roots with their ranks, by directory and then as fragments. Takes no memory.
    pub fn iter(&self) -> Roots<'_>
        ensures { result ≡ map.entries self.now.roots }
    {
        self.lists.iter()
    }

    /// Makes room for so many more roots, so that changes that make no more of them can't fail. Where the room is there
    /// already nothing is done. Refused for want of memory alone, and then all is left as it was.
    pub fn reserve(&mut self, additional: usize) -> Result<(), Refusal>
        ensures ok { OnOk result (additional ≤ self.new.room) }
        ensures roots { self.new.roots ≡ self.old.roots }
        ensures promises { self.new.promises ≡ self.old.promises }
        ensures grows { self.old.room ≤ self.new.room }
        ensures ready { additional ≤ self.old.room → IsOk result × (self.new ≡ self.old) }
        ensures err { IfErr result (λ reason. reason ≡ NoMemory) }
        ensures left { OnErr result (self.new ≡ self.old) }
    {
        self.lists.reserve(additional)
    }

    /// Makes a leaf a root of a rank, or gives a root another rank. There has to be room. Takes no memory.
    pub fn set(&mut self, dir: Ino, frag: Frag, rank: Rank)
        requires { 0 < self.old.room }
        ensures roots { self.new.roots ≡ map.insert self.old.roots (dir, frag) rank }
        ensures authority { IsCutOff self.old.roots self.new.roots (dir, frag) }
        ensures valid { (homes : Homes) (covers : Covers) → IsSubtrees self.old.roots homes covers
            → IsLive homes covers (dir, frag) → IsSubtrees self.new.roots homes covers }
        ensures promises { self.new.promises ≡ self.old.promises }
        ensures room { self.old.room ≤ self.new.room + 1 }
    {
        self.lists.insert(dir, frag, rank);
    }
}
