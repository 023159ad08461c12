//! The directories whose leaves were set, one after the other.
ghost use Rattle.std.specs.Prelude.{◌≡◌, slice_get};
ghost use Rattle.std.specs.Option.{option_map};
ghost use Rattle.inode_table.specs.Order.{trees_after};
ghost use Rattle.inode_table.specs.Rows.{set_in};

use crate::dirs::{Directory, Dirs};
use crate::set_leaves::tree_of;
use mds_types::Ino;
use sorted_map::Iter;

impl Dirs {
    /// The first directory after one, or of all, whose leaves were ever set: the root, then the others by number. None
    /// after the last. Takes no memory, and looks at each directory on the way, with one search.
    pub fn next_tree(&self, after: Option<Ino>) -> Option<Ino>
        ensures { option_map (λ (d : Ino). d.0) result ≡ slice_get (trees_after self.now.homes self.now.trees after) 0 }
    {
        let Some(last) = after else {
            if tree_of(&self.root).is_some() {
                return Some(Ino::ROOT);
            }
            return first_set(self.below.iter());
        };
        if last == Ino::ROOT {
            return first_set(self.below.iter());
        }
        first_set(self.below.iter_after(&last.0))
    }
}

// The first directory of rows in order whose leaves were set.
fn first_set(rows: Iter<'_, u64, Directory>) -> Option<Ino>
    ensures { option_map (λ (d : Ino). d.0) result ≡ slice_get (set_in rows.entry) 0 }
{
    let mut rows = rows;
    while let Some(row) = rows.next() {
        if row.1.settings.leaves().is_some() {
            return Some(Ino(row.0));
        }
    }
    None
}
