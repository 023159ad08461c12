//! The directories that have a pin, one after the other.
ghost use Rattle.std.specs.Prelude.{◌≡◌, T};
ghost use Rattle.std.specs.FinMap.{is_sorted};
ghost use Rattle.std.specs.Ordering.{nat_cmp};
ghost use Rattle.inode_table.specs.Pinned.{IsFirstPinned, IsNextPinned};

use crate::dirs::{Directory, Dirs};
use mds_types::Ino;
use sorted_map::Iter;

impl Dirs {
    /// The first directory with a pin after one, or of all, by number. Takes no memory, and looks at each directory on
    /// the way.
    pub fn next_pinned(&self, after: Option<Ino>) -> Option<Ino>
        ensures { IsNextPinned self.now.pins after result }
    {
        match after {
            Some(last) => first_pinned(self.below.iter_after(&last.0)),
            None => first_pinned(self.below.iter()),
        }
    }
}

// The first directory with a pin of rows in order.
fn first_pinned(rows: Iter<'_, u64, Directory>) -> Option<Ino>
    requires { T (is_sorted nat_cmp rows) }
    ensures { IsFirstPinned rows.entry result }
{
    let mut rows = rows;
    while let Some(row) = rows.next() {
        if row.1.settings.pin().is_some() {
            return Some(Ino(row.0));
        }
    }
    None
}
