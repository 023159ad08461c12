//! The counts and the pins of a table that was made beside a tree.
ghost use Rattle.std.specs.Prelude.{◌≡◌, ◌-◌, ◌<◌, ◌^◌, true, is_some};
ghost use Rattle.std.specs.FinMap as map;
ghost use Rattle.sorted_map.specs.SortedMap.{contents};
ghost use Rattle.mds_types.specs.Tree.{dentry_cmp, is_dir_kind};
ghost use Rattle.inode_table.specs.Dirs.{count_of, is_known, one_more};
ghost use Rattle.inode_table.specs.TreeTable.{IsCounted, IsTabled, with_dir_pin};

use crate::dirs::Dirs;
use mds_types::{Dentry, Inode};
use sorted_map::SortedMap;

/// Counts the entries of each directory of a tree, and notes the pins, in a table that has its directories and so far
/// neither. Takes no memory, and for each entry one search, or two where it is a directory.
pub fn count_entries(dirs: &mut Dirs, entries: &SortedMap<Dentry, Inode>)
    requires tabled { IsTabled (contents dentry_cmp entries.now) dirs.old.homes }
    requires none { IsCounted map.empty dirs.old.counts dirs.old.pins }
    ensures counted { IsCounted (contents dentry_cmp entries.now) dirs.new.counts dirs.new.pins }
    ensures left { dirs.new ≡ record dirs.old { counts = dirs.new.counts; pins = dirs.new.pins } }
{
    // of a map that is asked for its length it is known that this has 64 bits, and so has each count
    let _ = entries.len();
    let mut rest = entries.iter();
    while let Some(entry) = rest.next() {
        count_entry(dirs, &entry.0, &entry.1);
    }
}

// Counts one entry, and notes its pin, if it is a directory.
fn count_entry(dirs: &mut Dirs, dentry: &Dentry, inode: &Inode)
    requires known { is_known dirs.old.homes dentry.now.dir.0 ≡ true }
    requires few { count_of dirs.old.counts dentry.now.dir.0 < 2 ^ 64 - 1 }
    requires listed { is_dir_kind inode.now.kind ≡ true → is_some (map.get dirs.old.homes inode.now.ino.0) ≡ true }
    ensures { dirs.new ≡ record dirs.old {
      counts = one_more dirs.old.counts dentry.now.dir.0;
      pins = with_dir_pin dirs.old.pins inode.now;
    } }
{
    dirs.entry_comes(dentry.dir);
    if inode.kind.is_dir() {
        dirs.set_pin(inode.ino, inode.pin);
    }
}
