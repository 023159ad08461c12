//! The directory table.
ghost use Rattle.std.specs.Prelude.{◌≡◌, ◌≢◌, ◌+◌, ◌-◌, ◌<◌, ◌≤◌, ◌↔◌, ◌^◌, is_some, ◌∷◌, [], length, true, IsOk, IsSome, IsTrue, IfOk, OnOk, OnErr, IfErr, IfSome, MatchOption, false, slice_get, ℕ};
ghost use Rattle.std.specs.Option.{option_copied, option_map};
ghost use Rattle.std.specs.FinMap as map;
ghost use Rattle.mds_types.specs.declared.refusals.Refusal.TheVariants.{NoMemory};
ghost use Rattle.mds_types.specs.Frag.{root_fragment};
ghost use Rattle.fragtree.specs.FragTree.{CanMerge, CanSplit, IsPick, IsSplit, IsTree, RefusesMerge, RefusesSplit};
ghost use Rattle.mds_types.specs.declared.ids.Ino.{Ino};
ghost use Rattle.inode_table.specs.Order.{dirs_after, trees_after};
ghost use Rattle.inode_table.specs.Rows.{leaves_of_row};
ghost use Rattle.inode_table.specs.declared.dirs.Directory.{Directory as Row};
ghost use Rattle.inode_table.specs.Dirs.{IsAncestor, IsLeafAt, IsLive, IsTable, MayCome, MayGo, MayMove, RefusesLeaves, count_of, is_known, leaves_of, one_less, one_more, or_whole, pinned_at};

use crate::boxed_tree::BoxedTree;
use crate::set_leaves::{check_split_of, picked, split_in, tree_of};
use crate::settings::Settings;
use fragtree::FragTree;
use mds_types::{Frag, Ino, Name, Rank, Refusal};
use sorted_map::{Finger, SortedMap};
use std::alloc::{AllocError, Global};
use std::cell::Cell;
use std::marker::Model;

/// Where a directory stands: its parent, and its name there.
#[derive(Debug, Drop, PartialEq, Eq)]
pub struct Home {
    pub parent: Ino,
    pub name: Name,
}

/// Where a hash falls in a directory: the leaf that it picks. `home` is where the directory itself stands, and none of
/// the root; `entries` is how many entries it has, and `leaves` are all its leaves, if they were ever set.
#[derive(Clone, Copy, Debug)]
pub struct LeafAt<'a> {
    pub frag: Frag,
    pub home: Option<&'a Home>,
    pub entries: u64,
    pub leaves: Option<&'a FragTree>,
}

/// What the table keeps of a directory below the root: where it stands, how many entries it has, and what it was given:
/// its leaves and its pin.
#[derive(Debug, Drop)]
pub(crate) struct Directory {
    home: Home,
    entries: u64,
    pub(crate) settings: Settings,
}

/// For each directory its parent and its name there, its leaves, how many entries it has, and the rank that it is
/// pinned to, if it is. The root directory is always there, and has neither parent nor name nor pin.
///
/// The counts and the pins are what its owner makes them: an entry that comes or goes, and a pin that is set, is told
/// here.
///
/// Of every table it holds that each directory reaches the root by finitely many parents, and that only directories
/// have leaves of their own, which cover every hash exactly once. A directory whose leaves were never set has the one
/// leaf `*`, and takes no memory for it.
#[derive(Debug, Drop)]
pub struct Dirs {
    pub(crate) root: Option<BoxedTree>,
    in_root: u64,
    pub(crate) below: SortedMap<u64, Directory>,
    // where the two rows were that were asked for last: a change of one of them finds it again there
    near: Cell<Finger>,
}

impl Model for Dirs {
    ghost use Rattle.std.specs.Ordering.{nat_cmp};
    ghost use Rattle.std.specs.Coded.{codes};
    ghost use Rattle.std.specs.FinMap as map;
    ghost use Rattle.sorted_map.specs.SortedMap.{contents};
    ghost use Rattle.inode_table.specs.Dirs.{DirTable, IsTable};
    ghost use Rattle.inode_table.specs.Rows.{counts_with_root, covers_of, homes_of, pins_of};

    ghost Value = { DirTable };

    ghost coded = { Prim.hlevel (codes, map.code) };

    ghost view = { λ d. record {
      homes = homes_of (contents nat_cmp d.below);
      trees = covers_of d.root (contents nat_cmp d.below);
      counts = counts_with_root d.in_root (contents nat_cmp d.below);
      pins = pins_of (contents nat_cmp d.below);
      room = d.below.room;
    } };

    ghost invariant = { λ d. IsTable (homes_of (contents nat_cmp d.below))
        (covers_of d.root (contents nat_cmp d.below)) };
}

impl Dirs {
    /// The table of the root alone, with the one leaf `*`. Takes no memory.
    pub fn new(alloc: Global) -> Dirs
        ensures homes { result.homes ≡ map.empty }
        ensures trees { result.trees ≡ map.empty }
        ensures counts { result.counts ≡ map.insert map.empty 1 0 }
        ensures pins { result.pins ≡ map.empty }
    {
        Dirs {
            root: None,
            in_root: 0,
            below: SortedMap::new(alloc),
            near: Cell::new(Finger::none()),
        }
    }

    /// Tells what every table keeps: each directory reaches the root, and the leaves of each cover every hash once.
    pub fn is_table(&self)
        ensures { IsTable self.now.homes self.now.trees }
    {
        let _ = &self.root;
    }

    /// Where a directory stands; none for the root, which takes no search, and for what is no directory.
    pub fn get(&self, dir: Ino) -> Option<&Home>
        ensures { option_copied result ≡ map.get self.now.homes dir.0 }
    {
        self.is_table();
        if dir == Ino::ROOT {
            return None;
        }
        Some(&self.below.get_near(&self.near.get(), &dir.0)?.home)
    }

    /// Whether this is the number of a directory: the root, or one that was adopted. Takes no memory, and one search;
    /// calls for the same directory that follow find its row where it is.
    pub fn contains(&self, dir: Ino) -> bool
        ensures known { result ≡ is_known self.now.homes dir.0 }
        ensures valid { IsTable self.now.homes self.now.trees }
    {
        dir == Ino::ROOT || self.below.get_near_noting(&self.near, &dir.0).is_some()
    }

    /// The leaves of a directory, as a copy that its changes don't touch. Takes memory for leaves that were set, and
    /// none for the one leaf `*` of a directory whose leaves never were.
    pub fn tree(&self, alloc: Global, dir: Ino) -> Result<FragTree, AllocError>
        ensures leaves { IfOk result (λ tree. tree ≡ leaves_of self.now.trees dir.0) }
        ensures memory { OnErr result (IsSome (map.get self.now.trees dir.0)) }
    {
        match self.leaves(dir) {
            Some(tree) => tree.try_clone(),
            None => Ok(FragTree::whole(alloc)),
        }
    }

    /// How many leaves a directory has. Takes no memory.
    pub fn leaf_count(&self, dir: Ino) -> usize
        ensures { result ≡ length (leaves_of self.now.trees dir.0) }
    {
        match self.leaves(dir) {
            Some(tree) => tree.len(),
            None => 1,
        }
    }

    /// The leaf of a directory that a hash picks: the one that contains it. Takes no memory, and logarithmic time.
    pub fn pick(&self, dir: Ino, hash: u32) -> Frag
        ensures pick { IsPick (leaves_of self.now.trees dir.0) hash result }
        ensures valid { IsTable self.now.homes self.now.trees }
    {
        picked(self.leaves(dir), hash)
    }

    /// The leaf of a directory that a hash picks, and what else its row tells; none exactly where there is no such
    /// directory. Takes no memory, and one search.
    pub fn leaf_at(&self, dir: Ino, hash: u32) -> Option<LeafAt<'_>>
        ensures at { MatchOption result (is_known self.now.homes dir.0
            ≡ false) (λ at. IsLeafAt self.now.homes self.now.trees dir.0 hash at.frag (option_copied at.home)) }
        ensures entries { IfSome result (λ at. at.entries ≡ count_of self.now.counts dir.0) }
        ensures leaves { IfSome result (λ at. or_whole (option_copied at.leaves) ≡ leaves_of self.now.trees dir.0) }
    {
        if dir == Ino::ROOT {
            let leaves = tree_of(&self.root);
            return Some(LeafAt {
                frag: picked(leaves, hash),
                home: None,
                entries: self.in_root,
                leaves,
            });
        }
        let row = self.below.get_near_noting(&self.near, &dir.0)?;
        let leaves = row.settings.leaves();
        Some(LeafAt {
            frag: picked(leaves, hash),
            home: Some(&row.home),
            entries: row.entries,
            leaves,
        })
    }

    /// How many entries a directory has, as they were told; of what is no directory 0. Takes no memory, and one search.
    pub fn count(&self, dir: Ino) -> u64
        ensures { result ≡ count_of self.now.counts dir.0 }
    {
        if dir == Ino::ROOT {
            return self.in_root;
        }
        match self.below.get_near_noting(&self.near, &dir.0) {
            Some(row) => row.entries,
            None => 0,
        }
    }

    /// The rank that a directory is pinned to; none where it isn't, and of what is no directory. Takes no memory, and
    /// one search.
    pub fn pin(&self, dir: Ino) -> Option<Rank>
        ensures { result ≡ map.get self.now.pins dir.0 }
    {
        self.below.get(&dir.0)?.settings.pin()
    }

    /// The first directory after one, or of all, in order: the root, then the others by number. None after the last.
    /// Takes no memory, and one search.
    pub fn next_dir(&self, after: Option<Ino>) -> Option<Ino>
        ensures { option_map (λ (d : Ino). d.0) result ≡ slice_get (dirs_after self.now.homes after) 0 }
    {
        let Some(last) = after else {
            return Some(Ino::ROOT);
        };
        if last == Ino::ROOT {
            return Some(Ino(self.below.first()?.0));
        }
        Some(Ino(self.below.iter_after(&last.0).next()?.0))
    }

    /// Whether there is such a directory, and it has this leaf. Takes no memory, and one search.
    pub fn has_leaf(&self, dir: Ino, frag: Frag) -> bool
        ensures { IsTrue result ↔ IsLive self.now.homes self.now.trees (dir, frag) }
    {
        // a leaf contains the hash that its value is, and no other leaf does
        match self.leaf_at(dir, frag.value()) {
            Some(at) => at.frag == frag,
            None => false,
        }
    }

    /// A leaf of a directory that can be split by so many bits, and what else the directory's row tells. Takes no
    /// memory, and one search.
    ///
    /// Refused `NoSuchFrag` where there is no such directory, and where it is there as the split of its leaf is.
    pub fn check_split(&self, dir: Ino, frag: Frag, bits: u8) -> Result<LeafAt<'_>, Refusal>
        ensures known { OnOk result (is_known self.now.homes dir.0 ≡ true) }
        ensures can { OnOk result (CanSplit (leaves_of self.now.trees dir.0) frag bits) }
        ensures frag { IfOk result (λ at. at.frag ≡ frag) }
        ensures home { IfOk result (λ at. option_copied at.home ≡ map.get self.now.homes dir.0) }
        ensures entries { IfOk result (λ at. at.entries ≡ count_of self.now.counts dir.0) }
        ensures leaves { IfOk result (λ at. or_whole (option_copied at.leaves) ≡ leaves_of self.now.trees dir.0) }
        ensures err { IfErr result
            (RefusesLeaves (RefusesSplit (leaves_of self.now.trees dir.0) frag bits) self.now.homes dir) }
    {
        let Some(at) = self.leaf_at(dir, frag.value()) else {
            return Err(Refusal::NoSuchFrag);
        };
        if let Err(refusal) = check_split_of(at.leaves, frag, bits) {
            return Err(refusal);
        }
        Ok(LeafAt { frag, ..at })
    }

    /// Whether leaves of a directory can be merged into a fragment. Refused as the merge is where they can't be. Takes
    /// no memory.
    pub fn check_merge(&self, dir: Ino, frag: Frag) -> Result<(), Refusal>
        ensures ok { OnOk result (CanMerge (leaves_of self.now.trees dir.0) frag) }
        ensures err { IfErr result (λ reason. RefusesMerge (leaves_of self.now.trees dir.0) frag reason) }
        ensures memory { IfErr result (λ reason. reason ≢ NoMemory) }
    {
        match self.leaves(dir) {
            Some(tree) => tree.check_merge(frag),
            None => Err(Refusal::NoSuchFrag),
        }
    }

    /// Makes room for one more directory, so that the next `adopt` can't fail. Where the room is there already nothing
    /// is done. Refused for want of memory alone, and then all is left as it was.
    pub fn reserve(&mut self) -> Result<(), Refusal>
        ensures ok { OnOk result (0 < self.new.room) }
        ensures homes { self.new.homes ≡ self.old.homes }
        ensures trees { self.new.trees ≡ self.old.trees }
        ensures counts { self.new.counts ≡ self.old.counts }
        ensures pins { self.new.pins ≡ self.old.pins }
        ensures ready { 0 < self.old.room → IsOk result × (self.new ≡ self.old) }
        ensures err { IfErr result (λ reason. reason ≡ NoMemory) }
        ensures left { OnErr result (self.new ≡ self.old) }
    {
        self.below.reserve(1)?;
        Ok(())
    }

    /// Gives a directory these leaves. Takes no memory.
    pub fn set_tree(&mut self, dir: Ino, tree: BoxedTree)
        requires known { is_known self.old.homes dir.0 ≡ true }
        ensures trees { self.new.trees ≡ map.insert self.old.trees dir.0 tree }
        ensures homes { self.new.homes ≡ self.old.homes }
        ensures counts { self.new.counts ≡ self.old.counts }
        ensures pins { self.new.pins ≡ self.old.pins }
        ensures room { self.new.room ≡ self.old.room }
    {
        // of a tree that is lent its leaves are known to cover every hash
        let _ = tree.as_tree();
        if dir == Ino::ROOT {
            self.root = Some(tree);
            return;
        }
        let near = self.near.get();
        let Some(row) = self.below.get_mut_near(&near, &dir.0) else {
            unreachable!()
        };
        row.settings.set_leaves(tree);
    }

    /// Splits a leaf of a directory that can be split by so many bits. Takes memory, and one search. Refused for want
    /// of memory alone, and then all is left as it was.
    pub fn split(&mut self, alloc: Global, dir: Ino, frag: Frag, bits: u8) -> Result<(), Refusal>
        requires known { is_known self.old.homes dir.0 ≡ true }
        requires can { CanSplit (leaves_of self.old.trees dir.0) frag bits }
        ensures split { OnOk result
            (IsSplit (leaves_of self.old.trees dir.0) (leaves_of self.new.trees dir.0) frag bits) }
        ensures others { OnOk result (self.new
            ≡ record self.old { trees = map.insert self.old.trees dir.0 (leaves_of self.new.trees dir.0) }) }
        ensures left { OnErr result (self.new ≡ self.old) }
        ensures refused { IfErr result (λ reason. reason ≡ NoMemory) }
        ensures valid { IsTable self.new.homes self.new.trees }
    {
        if dir == Ino::ROOT {
            return split_in(alloc, &mut self.root, frag, bits);
        }
        let near = self.near.get();
        let Some(row) = self.below.get_mut_near(&near, &dir.0) else {
            unreachable!()
        };
        row.settings.split(alloc, frag, bits)
    }

    /// An entry comes to a directory. Takes no memory, and one search.
    pub fn entry_comes(&mut self, dir: Ino)
        requires known { is_known self.old.homes dir.0 ≡ true }
        requires few { count_of self.old.counts dir.0 < 2 ^ 64 - 1 }
        ensures { self.new ≡ record self.old { counts = one_more self.old.counts dir.0 } }
    {
        if dir == Ino::ROOT {
            self.in_root += 1;
            return;
        }
        let near = self.near.get();
        let Some(row) = self.below.get_mut_near(&near, &dir.0) else {
            unreachable!()
        };
        row.entries += 1;
    }

    /// An entry of a directory goes; there is one fewer then, of none there is none. Takes no memory, and one search.
    pub fn entry_goes(&mut self, dir: Ino)
        requires { is_known self.old.homes dir.0 ≡ true }
        ensures { self.new ≡ record self.old { counts = one_less self.old.counts dir.0 } }
    {
        if dir == Ino::ROOT {
            self.in_root = self.in_root.saturating_sub(1);
            return;
        }
        let near = self.near.get();
        let Some(row) = self.below.get_mut_near(&near, &dir.0) else {
            unreachable!()
        };
        row.entries = row.entries.saturating_sub(1);
    }

    /// A directory below the root gets another pin, or none. Takes no memory, and one search.
    pub fn set_pin(&mut self, dir: Ino, pin: Option<Rank>)
        requires { is_some (map.get self.old.homes dir.0) ≡ true }
        ensures { self.new ≡ record self.old { pins = pinned_at self.old.pins dir.0 pin } }
    {
        let near = self.near.get();
        let Some(row) = self.below.get_mut_near(&near, &dir.0) else {
            unreachable!()
        };
        row.settings.set_pin(pin);
    }

    /// A new directory with the one leaf `*`, no entry and no pin, for which there is room. Takes no memory.
    pub fn adopt(&mut self, dir: Ino, home: Home)
        requires room { 0 < self.old.room }
        requires may { MayCome self.old.homes dir.0 home }
        ensures homes { self.new.homes ≡ map.insert self.old.homes dir.0 home }
        ensures trees { self.new.trees ≡ self.old.trees }
        ensures whole { leaves_of self.new.trees dir.0 ≡ root_fragment ∷ [] }
        ensures counts { self.new.counts ≡ map.insert self.old.counts dir.0 0 }
        ensures pins { self.new.pins ≡ self.old.pins }
        ensures room { self.old.room ≤ self.new.room + 1 }
        ensures valid { IsTable self.new.homes self.new.trees }
    {
        let row = Directory {
            home,
            entries: 0,
            settings: Settings::none(),
        };
        let _ = self.below.insert(dir.0, row);
    }

    /// A directory goes to another parent, or takes another name, and keeps its leaves, its entries and its pin. Takes
    /// no memory.
    pub fn relocate(&mut self, dir: Ino, home: Home)
        requires { MayMove self.old.homes dir.0 home }
        ensures homes { self.new.homes ≡ map.insert self.old.homes dir.0 home }
        ensures trees { self.new.trees ≡ self.old.trees }
        ensures counts { self.new.counts ≡ self.old.counts }
        ensures pins { self.new.pins ≡ self.old.pins }
        ensures room { self.new.room ≡ self.old.room }
        ensures valid { IsTable self.new.homes self.new.trees }
    {
        let near = self.near.get();
        let Some(row) = self.below.get_mut_near(&near, &dir.0) else {
            unreachable!()
        };
        row.home = home;
    }

    /// A directory goes that is no one's parent and not the root, and its count and its pin with it. Its leaves are
    /// given back, if they were ever set. Takes no memory.
    pub fn drop(&mut self, dir: Ino) -> Option<BoxedTree>
        requires { MayGo self.old.homes dir.0 }
        ensures leaves { result ≡ map.get self.old.trees dir.0 }
        ensures homes { self.new.homes ≡ map.remove self.old.homes dir.0 }
        ensures trees { self.new.trees ≡ map.remove self.old.trees dir.0 }
        ensures counts { self.new.counts ≡ map.remove self.old.counts dir.0 }
        ensures pins { self.new.pins ≡ map.remove self.old.pins dir.0 }
        ensures room { self.old.room ≤ self.new.room }
        ensures valid { IsTable self.new.homes self.new.trees }
    {
        let near = self.near.get();
        leaves_left(self.below.remove_near(&near, &dir.0))
    }

    /// Whether a directory is above another: a chain of one or more parents leads from `below` to `dir`. Takes no
    /// memory, and one look-up for each directory on the way to the root.
    pub fn is_above(&self, dir: Ino, below: Ino) -> bool
        ensures { IsTrue result ↔ IsAncestor self.now.homes dir.0 below.0 }
    {
        self.is_table();
        let mut at = below;
        while let Some(home) = self.get(at) {
            if home.parent == dir {
                return true;
            }
            at = home.parent;
        }
        false
    }

    // The leaves of a directory if they were ever set. The root's take no search.
    fn leaves(&self, dir: Ino) -> Option<&FragTree>
        ensures set { option_copied result ≡ map.get self.now.trees dir.0 }
        ensures valid { IsTable self.now.homes self.now.trees }
    {
        if dir == Ino::ROOT {
            return tree_of(&self.root);
        }
        let row = self.below.get_near(&self.near.get(), &dir.0)?;
        row.settings.leaves()
    }
}

// The leaves of a row that was taken out, if they were ever set.
fn leaves_left(row: Option<(u64, Directory)>) -> Option<BoxedTree>
    ensures { result ≡ leaves_of_row (option_map (λ (r : ℕ × Row). r.1) row) }
{
    let Some((_, row)) = row else {
        return None;
    };
    let Directory { home, settings, .. } = row;
    drop(home);
    settings.into_leaves()
}
