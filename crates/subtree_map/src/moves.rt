//! The roots where a directory moves.
ghost use Rattle.std.specs.Prelude.{◌≡◌, ◌+◌, ◌^◌, ◌<◌, ◌≤◌, IsSome, length};
ghost use Rattle.mds_types.specs.Frag.{IsFragment, span};
ghost use Rattle.inode_table.specs.declared.dirs.Home.{Home};
ghost use Rattle.inode_table.specs.Dirs.{Covers, Homes, IsTable, MayMove, leaves_of};
ghost use Rattle.subtree_map.specs.Authority.{IsSubtrees};
ghost use Rattle.subtree_map.specs.Changes.{AreFilled};
ghost use Rattle.subtree_map.specs.Moves.{IsLostRank, KeepsRanksOf, MovesSoundly};
ghost use Rattle.subtree_map.specs.Rows.{IsFilled};

use crate::lists::Lists;
use crate::subtrees::Subtrees;
use inode_table::Dirs;
use mds_types::{Frag, Ino, Rank};

impl Subtrees {
    /// A directory has moved to another place, and keeps its leaves. `lost` is the rank that they inherited, if they
    /// would inherit another there (`IsLostRank`): those of them that are no roots become roots of it then, so that the
    /// move changed the authority of no leaf. There has to be room for them. Takes no memory.
    ///
    /// `dirs` is the table after the move, of which the directory's leaves are asked.
    pub fn after_rename(&mut self, dirs: &Dirs, dir: Ino, lost: Option<Rank>)
        requires room { IsSome lost → length (leaves_of dirs.now.trees dir.0) ≤ self.old.room }
        ensures roots { (homes : Homes) (covers : Covers) (home : Home)
            → leaves_of covers dir.0 ≡ leaves_of dirs.now.trees dir.0 → MayMove homes dir.0 home
            → IsLostRank self.old.roots homes covers dir.0 home lost
            → KeepsRanksOf self.old.roots self.new.roots homes covers dir.0 home }
        ensures authority { (homes : Homes) (covers : Covers) (home : Home)
            → leaves_of covers dir.0 ≡ leaves_of dirs.now.trees dir.0 → MayMove homes dir.0 home
            → IsLostRank self.old.roots homes covers dir.0 home lost → IsTable homes covers
            → IsSubtrees self.old.roots homes covers
            → MovesSoundly self.old.roots self.new.roots homes covers dir.0 home }
        ensures promises { self.new.promises ≡ self.old.promises }
        ensures room { self.old.room ≤ self.new.room + length (leaves_of dirs.now.trees dir.0) }
    {
        if let Some(rank) = lost {
            fill(&mut self.lists, dirs, dir, rank);
        }
    }
}

// Makes each leaf of a directory that is no root one of this rank.
pub(crate) fn fill(roots: &mut Lists, dirs: &Dirs, dir: Ino, rank: Rank)
    requires room { length (leaves_of dirs.now.trees dir.0) ≤ roots.old.room }
    ensures filled { AreFilled roots.old.roots roots.new.roots dir.0 (leaves_of dirs.now.trees dir.0) rank }
    ensures room { roots.old.room ≤ roots.new.room + length (leaves_of dirs.now.trees dir.0) }
    ensures promises { roots.new.promises ≡ roots.old.promises }
{
    dirs.is_table();
    let mut hash = 0;
    while hash < 1 << Frag::MAX_BITS {
        let leaf = dirs.pick(dir, hash);
        put_absent(roots, dir, leaf, rank);
        hash = end_of(leaf);
    }
}

// Makes a leaf that is no root one of this rank.
fn put_absent(roots: &mut Lists, dir: Ino, leaf: Frag, rank: Rank)
    requires { 0 < roots.old.room }
    ensures filled { IsFilled roots.old.roots roots.new.roots (dir, leaf) rank }
    ensures room { roots.old.room ≤ roots.new.room + 1 }
    ensures promises { roots.new.promises ≡ roots.old.promises }
{
    if !roots.contains(dir, leaf) {
        roots.insert(dir, leaf, rank);
    }
}

/// Where a fragment ends: the hash after its last.
pub fn end_of(f: Frag) -> u32
    ensures end { result ≡ f.value + span f.bits }
    ensures low { result ≤ 2 ^ 24 }
    ensures valid { IsFragment f }
{
    f.value() + hashes(f.bits())
}

// How many hashes a fragment of so many bits contains.
fn hashes(bits: u8) -> u32
    requires { bits ≤ 24 }
    ensures { result ≡ span bits }
{
    1 << (Frag::MAX_BITS - bits)
}
