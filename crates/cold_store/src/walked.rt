//! What a walk found.
ghost use Rattle.std.specs.Prelude.{◌≡◌, ◌<◌};
ghost use Rattle.std.specs.FinMap as map;
ghost use Rattle.sorted_map.specs.SortedMap.{contents};
ghost use Rattle.mds_types.specs.Tree.{dentry_cmp};
ghost use Rattle.inode_table.specs.TreeTable.{IsCounted, IsTabled};
ghost use Rattle.cold_store.specs.Numbers.{IsNextNumber, passed};

use crate::found::Found;
use inode_table::{Dirs, Numbers, count_entries};
use mds_types::{Dentry, Inode, ObjText, Rank};
use sorted_map::SortedMap;

/// What a walk found: all entries, where each directory stands, its leaves, how many entries it has and its pin, and
/// the names of the objects that weren't reached.
#[derive(Drop)]
pub struct Walked {
    pub entries: SortedMap<Dentry, Inode>,
    pub dirs: Dirs,
    pub left: SortedMap<ObjText, ()>,
}

impl Walked {
    // What was found, and what is left. No entry is counted yet.
    pub(crate) fn of(found: Found, left: SortedMap<ObjText, ()>) -> Walked
        ensures entries { contents dentry_cmp result.entries ≡ found.shape.tree }
        ensures homes { result.dirs.homes ≡ found.shape.homes }
        ensures trees { result.dirs.trees ≡ found.covers }
        ensures left { result.left ≡ left }
        ensures none { IsCounted map.empty result.dirs.counts result.dirs.pins }
    {
        let (entries, dirs) = found.into_parts();
        Walked {
            entries,
            dirs,
            left,
        }
    }

    // Counts the entries of each directory, and notes its pin.
    pub(crate) fn counted(mut self) -> Walked
        requires tabled { IsTabled (contents dentry_cmp self.entries) self.dirs.homes }
        requires none { IsCounted map.empty self.dirs.counts self.dirs.pins }
        ensures entries { result.entries ≡ self.entries }
        ensures homes { result.dirs.homes ≡ self.dirs.homes }
        ensures trees { result.dirs.trees ≡ self.dirs.trees }
        ensures left { result.left ≡ self.left }
        ensures counted { IsCounted (contents dentry_cmp result.entries) result.dirs.counts result.dirs.pins }
    {
        count_entries(&mut self.dirs, &self.entries);
        self
    }

    /// The numbers that a rank hands out from now on: those after the greatest of its range that an entry has, or all
    /// of the range. One step for each entry.
    pub fn numbers(&self, rank: Rank) -> Numbers
        requires { rank.0 < 16 }
        ensures rank { result.rank ≡ rank.0 }
        ensures next { IsNextNumber (contents dentry_cmp self.now.entries) result }
    {
        let mut next = Numbers::first_of(rank).0;
        let end = next + PER_RANK;
        let mut rows = self.entries.iter();
        while let Some((_, inode)) = rows.next() {
            next = passed(next, end, inode.ino.0);
        }
        Numbers::from(rank, next)
    }
}

// How many numbers a rank's range has.
const PER_RANK: u64 = 1 << 40;

// The next number, once an inode has this one.
fn passed(next: u64, end: u64, number: u64) -> u64
    ensures { result ≡ passed next end number }
{
    if next <= number && number < end {
        number + 1
    } else {
        next
    }
}
