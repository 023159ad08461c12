//! The way up from a leaf: along the dentries of directories to the nearest root.
ghost use Rattle.std.specs.Prelude.{◌≡◌, ◌↔◌, true, false, None, Some, IsTrue, MatchOption};
ghost use Rattle.std.specs.Option.{option_copied};
ghost use Rattle.std.specs.FinMap as map;
ghost use Rattle.mds_types.specs.Leaf.{Leaf};
ghost use Rattle.inode_table.specs.Dirs.{IsLive, is_known};
ghost use Rattle.subtree_map.specs.Authority.{HasAuthority, HoldsDentry, LocatesLeaf, IsSubtrees, NearestRoot};
ghost use Rattle.mds_types.specs.declared.ids.Rank.{Rank as RankNumber};
ghost use Rattle.subtree_map.specs.Climb.{FindsAbove, FindsRow, IsTop};

use crate::subtrees::Subtrees;
use inode_table::{Dirs, Home};
use mds_types::{Frag, Ino, Name, Rank};
use namehash::rjenkins;

impl Subtrees {
    /// The authority of a leaf: the rank of its nearest root. Takes no memory, and a look-up and a hash for each
    /// directory on the way to that root.
    pub fn authority(&self, dirs: &Dirs, dir: Ino, frag: Frag) -> Rank
        requires leaf { IsLive dirs.now.homes dirs.now.trees (dir, frag) }
        requires valid { IsSubtrees self.now.roots dirs.now.homes dirs.now.trees }
        ensures { HasAuthority self.now.roots dirs.now.homes dirs.now.trees (dir, frag) result }
    {
        dirs.is_table();
        match self.find_authority(dirs, dir, frag) {
            Some(rank) => rank,
            None => unreachable!(),
        }
    }

    /// The nearest root of a leaf: itself where it is one, otherwise that of the leaf that holds the dentry of its
    /// directory. Takes no memory, and a look-up and a hash for each directory on the way to that root.
    pub fn root_of(&self, dirs: &Dirs, dir: Ino, frag: Frag) -> (Ino, Frag)
        requires leaf { IsLive dirs.now.homes dirs.now.trees (dir, frag) }
        requires valid { IsSubtrees self.now.roots dirs.now.homes dirs.now.trees }
        ensures { NearestRoot self.now.roots dirs.now.homes dirs.now.trees (dir, frag) result }
    {
        dirs.is_table();
        match self.find_root(dirs, dir, frag) {
            Some(root) => root,
            None => unreachable!(),
        }
    }

    /// The authority of a leaf, of whatever map and fragment: none where no root is on the way up. Takes no memory.
    pub fn find_authority(&self, dirs: &Dirs, dir: Ino, frag: Frag) -> Option<Rank>
        ensures { MatchOption result
            ((rank : RankNumber) → HasAuthority self.now.roots dirs.now.homes dirs.now.trees (dir, frag) rank → ⊥)
            (HasAuthority self.now.roots dirs.now.homes dirs.now.trees (dir, frag)) }
    {
        let (_, rank) = self.climb(dirs, (dir, frag), dirs.get(dir), &None)?;
        Some(rank)
    }

    /// The nearest root of a leaf, of whatever map and fragment: none where no root is on the way up. Takes no memory.
    pub fn find_root(&self, dirs: &Dirs, dir: Ino, frag: Frag) -> Option<(Ino, Frag)>
        ensures { MatchOption result
            ((root : Leaf) → NearestRoot self.now.roots dirs.now.homes dirs.now.trees (dir, frag) root → ⊥)
            (NearestRoot self.now.roots dirs.now.homes dirs.now.trees (dir, frag)) }
    {
        let (root, _) = self.climb(dirs, (dir, frag), dirs.get(dir), &None)?;
        Some(root)
    }

    /// The same as `find_root`, where a rank asks: it looks into its own list first, and takes a hint of it where the
    /// rank that the hint names has that root. Takes no memory.
    pub fn find_root_by(&self, rank: Rank, dirs: &Dirs, dir: Ino, frag: Frag) -> Option<(Ino, Frag)>
        ensures { MatchOption result
            ((root : Leaf) → NearestRoot self.now.roots dirs.now.homes dirs.now.trees (dir, frag) root → ⊥)
            (NearestRoot self.now.roots dirs.now.homes dirs.now.trees (dir, frag)) }
    {
        let (root, _) = self.climb(dirs, (dir, frag), dirs.get(dir), &Some(rank))?;
        Some(root)
    }

    /// The same as `authority_from`, where a rank asks: it looks into its own list first. Takes no memory.
    pub fn authority_by<'a>(
        &self,
        rank: Rank,
        dirs: &'a Dirs,
        leaf: (Ino, Frag),
        home: Option<&'a Home>,
    ) -> Rank
        requires leaf { IsLive dirs.now.homes dirs.now.trees leaf }
        requires home { option_copied home ≡ map.get dirs.now.homes leaf.0.0 }
        requires valid { IsSubtrees self.now.roots dirs.now.homes dirs.now.trees }
        ensures { HasAuthority self.now.roots dirs.entry.now.homes dirs.entry.now.trees leaf result }
    {
        dirs.is_table();
        match self.climb(dirs, leaf, home, &Some(rank)) {
            Some((_, rank)) => rank,
            None => unreachable!(),
        }
    }

    /// The leaf of a directory that a hash picks, and the leaf's authority; none exactly where there is no such
    /// directory. Takes no memory, and a look-up and a hash for each directory on the way to the leaf's nearest root.
    pub fn locate(&self, dirs: &Dirs, dir: Ino, hash: u32) -> Option<(Frag, Rank)>
        requires valid { IsSubtrees self.now.roots dirs.now.homes dirs.now.trees }
        ensures { MatchOption result (is_known dirs.now.homes dir.0 ≡ false)
            (λ at. LocatesLeaf self.now.roots dirs.now.homes dirs.now.trees dir hash at.0 at.1) }
    {
        let Some(at) = dirs.leaf_at(dir, hash) else {
            return None;
        };
        Some((at.frag, self.authority_from(dirs, (dir, at.frag), at.home)))
    }

    /// The authority of a leaf whose directory stands there. Takes no memory, and a look-up and a hash for each
    /// directory on the way to the leaf's nearest root.
    pub fn authority_from<'a>(
        &self,
        dirs: &'a Dirs,
        leaf: (Ino, Frag),
        home: Option<&'a Home>,
    ) -> Rank
        requires leaf { IsLive dirs.now.homes dirs.now.trees leaf }
        requires home { option_copied home ≡ map.get dirs.now.homes leaf.0.0 }
        requires valid { IsSubtrees self.now.roots dirs.now.homes dirs.now.trees }
        ensures { HasAuthority self.now.roots dirs.entry.now.homes dirs.entry.now.trees leaf result }
    {
        dirs.is_table();
        match self.climb(dirs, leaf, home, &None) {
            Some((_, rank)) => rank,
            None => unreachable!(),
        }
    }

    /// Whether a leaf would be in the region of another, if that were a root: whether the way up from it comes to the
    /// other before it comes to a root. Takes no memory, and a look-up and a hash for each directory on the way.
    pub fn is_under(&self, dirs: &Dirs, root: &(Ino, Frag), leaf: &(Ino, Frag)) -> bool
        ensures { (rank : RankNumber) → IsTrue result ↔ NearestRoot
            (map.insert self.now.roots root.now rank) dirs.now.homes dirs.now.trees leaf.now root.now }
    {
        dirs.is_table();
        let mut at = *leaf;
        while let Some(home) = self.above_but(dirs, root, &at) {
            at = holder_of(dirs, home);
        }
        is_one(&at, root)
    }

    // Where the directory of a leaf stands that is no root, and not this one.
    fn above_but<'a>(
        &self,
        dirs: &'a Dirs,
        root: &(Ino, Frag),
        leaf: &(Ino, Frag),
    ) -> Option<&'a Home>
        ensures { (rank : RankNumber)
            → MatchOption result (IsTop (map.insert self.now.roots root.now rank) dirs.entry.now.homes leaf.now)
            (λ home. (map.get (map.insert self.now.roots root.now rank) leaf.now ≡ None)
            × (map.get dirs.entry.now.homes leaf.now.0.0 ≡ Some home.now)) }
    {
        if is_one(leaf, root) {
            return None;
        }
        self.above(dirs, leaf)
    }

    // Where the directory of a leaf that is no root stands.
    fn above<'a>(&self, dirs: &'a Dirs, leaf: &(Ino, Frag)) -> Option<&'a Home>
        ensures { MatchOption result (IsTop self.now.roots dirs.entry.now.homes leaf.now)
            (λ home. (map.get self.now.roots leaf.now ≡ None)
            × (map.get dirs.entry.now.homes leaf.now.0.0 ≡ Some home.now)) }
    {
        if self.lists.contains(leaf.0, leaf.1) {
            return None;
        }
        dirs.get(leaf.0)
    }

    /// The nearest root of the leaf that holds a dentry, and its rank: none where no root is on the way up. The
    /// dentry's directory stands.
    pub(crate) fn root_above(
        &self,
        dirs: &Dirs,
        parent: Ino,
        name: &Name,
    ) -> Option<((Ino, Frag), Rank)>
        requires known { is_known dirs.now.homes parent.0 ≡ true }
        ensures { FindsAbove self.now.roots dirs.now.homes dirs.now.trees
            (record { parent = parent; name = name.now }) result }
    {
        let Some(at) = dirs.leaf_at(parent, rjenkins(name.as_bytes())) else {
            unreachable!()
        };
        self.climb(dirs, (parent, at.frag), at.home, &None)
    }

    // The rank of a root, where a rank asks or none does.
    fn rank_for(&self, by: &Option<Rank>, dir: Ino, frag: Frag) -> Option<Rank>
        ensures { result ≡ map.get self.now.roots (dir, frag) }
    {
        match by {
            Some(rank) => self.lists.get_by(*rank, dir, frag),
            None => self.lists.get(dir, frag),
        }
    }

    // The nearest root of a leaf whose directory stands there, and its rank: one search of the table and one of the
    // roots for each directory on the way. A rank that asks looks into its own list first.
    fn climb<'a>(
        &self,
        dirs: &'a Dirs,
        leaf: (Ino, Frag),
        home: Option<&'a Home>,
        by: &Option<Rank>,
    ) -> Option<((Ino, Frag), Rank)>
        requires home { option_copied home ≡ map.get dirs.now.homes leaf.0.0 }
        ensures { FindsRow self.now.roots dirs.entry.now.homes dirs.entry.now.trees leaf result }
    {
        dirs.is_table();
        let mut leaf = leaf;
        let mut home = home;
        loop {
            if let Some(rank) = self.rank_for(by, leaf.0, leaf.1) {
                return Some((leaf, rank));
            }
            let above = home?;
            let Some(at) = dirs.leaf_at(above.parent, rjenkins(above.name.as_bytes())) else {
                return None;
            };
            leaf = (above.parent, at.frag);
            home = at.home;
        }
    }
}

// The leaf that holds the dentry of a directory that stands there: the one of its parent's leaves that the hash of its
// name picks.
fn holder_of(dirs: &Dirs, home: &Home) -> (Ino, Frag)
    ensures { HoldsDentry dirs.now.trees home.now result }
{
    (
        home.parent,
        dirs.pick(home.parent, rjenkins(home.name.as_bytes())),
    )
}

// Whether two leaves are one.
fn is_one(one: &(Ino, Frag), other: &(Ino, Frag)) -> bool
    ensures { IsTrue result ↔ (one.now ≡ other.now) }
{
    one.0 == other.0 && one.1 == other.1
}
