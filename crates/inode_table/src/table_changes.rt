//! Changes of a directory table beside a tree: what becomes of it where an inode comes, goes or moves.
//!
//! None takes memory. A table that is asked for them stays that of its tree, by the lemmas of `TableLaws` and
//! `MoveLaws`.
ghost use Rattle.std.specs.Prelude.{◌≡◌, ◌==◌, ◌-◌, ◌<◌, ◌^◌, true, false, Some};
ghost use Rattle.std.specs.Option.{option_copied};
ghost use Rattle.mds_types.specs.declared.inodes.Inode.{Inode as Node};
ghost use Rattle.mds_types.specs.Tree.{is_dir_kind};
ghost use Rattle.inode_table.specs.Dirs.{IsTable, MayCome, MayGo, MayMove, count_of, is_known};
ghost use Rattle.inode_table.specs.TreeTable.{counts_moved, home_at, with_count, with_home, without_cover, without_home, without_row};

use crate::dirs::{Dirs, Home};
use mds_types::{Dentry, Ino, Inode, Name};

/// Notes in the table the new inode at a dentry, if it is a directory: it has its home there, the one leaf `*`,
/// no entry and no pin. Of a file the table takes no note.
///
/// `spare` has the name of the dentry where the inode is a directory, and there is room for one more.
pub fn adopt_dir(dirs: &mut Dirs, spare: &mut Option<Name>, dentry: &Dentry, inode: &Inode)
    requires ready { is_dir_kind inode.now.kind ≡ true → (0 < dirs.old.room) × (spare.old ≡ Some dentry.now.name) }
    requires may { is_dir_kind inode.now.kind ≡ true → MayCome dirs.old.homes inode.now.ino.0 (home_at dentry.now) }
    ensures homes { dirs.new.homes ≡ with_home dirs.old.homes dentry.now inode.now }
    ensures trees { dirs.new.trees ≡ dirs.old.trees }
    ensures counts { dirs.new.counts ≡ with_count dirs.old.counts inode.now }
    ensures pins { dirs.new.pins ≡ dirs.old.pins }
    ensures valid { IsTable dirs.old.homes dirs.old.trees → IsTable dirs.new.homes dirs.new.trees }
{
    if !inode.kind.is_dir() {
        return;
    }
    let Some(name) = spare.take() else {
        unreachable!()
    };
    dirs.adopt(
        inode.ino,
        Home {
            parent: dentry.dir,
            name,
        },
    );
}

/// Notes in the table the dentry that an inode went to, if it is a directory: it has its home there, and keeps its
/// leaves. Of a file the table takes no note.
///
/// `spare` has the name of the dentry.
pub fn relocate_dir(dirs: &mut Dirs, spare: &mut Option<Name>, dentry: &Dentry, inode: &Inode)
    requires ready { spare.old ≡ Some dentry.now.name }
    requires may { is_dir_kind inode.now.kind ≡ true → MayMove dirs.old.homes inode.now.ino.0 (home_at dentry.now) }
    ensures homes { dirs.new.homes ≡ with_home dirs.old.homes dentry.now inode.now }
    ensures trees { dirs.new.trees ≡ dirs.old.trees }
    ensures counts { dirs.new.counts ≡ dirs.old.counts }
    ensures pins { dirs.new.pins ≡ dirs.old.pins }
    ensures valid { IsTable dirs.old.homes dirs.old.trees → IsTable dirs.new.homes dirs.new.trees }
{
    if !inode.kind.is_dir() {
        return;
    }
    let Some(name) = spare.take() else {
        unreachable!()
    };
    dirs.relocate(
        inode.ino,
        Home {
            parent: dentry.dir,
            name,
        },
    );
}

/// Forgets in the table the inode that goes, if there is one and it is a directory: its home, its leaves, its count
/// and its pin.
pub fn drop_dir(dirs: &mut Dirs, inode: Option<&Inode>)
    requires { (gone : Node) → option_copied inode ≡ Some gone → is_dir_kind gone.kind ≡ true
        → MayGo dirs.old.homes gone.ino.0 }
    ensures homes { dirs.new.homes ≡ without_home dirs.old.homes (option_copied inode.entry) }
    ensures trees { dirs.new.trees ≡ without_cover dirs.old.trees (option_copied inode.entry) }
    ensures counts { dirs.new.counts ≡ without_row dirs.old.counts (option_copied inode.entry) }
    ensures pins { dirs.new.pins ≡ without_row dirs.old.pins (option_copied inode.entry) }
    ensures valid { IsTable dirs.old.homes dirs.old.trees → IsTable dirs.new.homes dirs.new.trees }
{
    if let Some(inode) = inode {
        if inode.kind.is_dir() {
            drop(dirs.drop(inode.ino));
        }
    }
}

/// Counts an entry that moved from one directory to another, where something stood at its new name, or nothing.
pub fn count_move(dirs: &mut Dirs, from: Ino, to: Ino, stood: bool)
    requires from { is_known dirs.old.homes from.0 ≡ true }
    requires to { is_known dirs.old.homes to.0 ≡ true }
    requires few { stood ≡ false → (from.0 == to.0) ≡ false → count_of dirs.old.counts to.0 < 2 ^ 64 - 1 }
    ensures { dirs.new ≡ record dirs.old { counts = counts_moved dirs.old.counts from.0 to.0 stood } }
{
    if stood {
        dirs.entry_goes(from);
    } else if from != to {
        dirs.entry_goes(from);
        dirs.entry_comes(to);
    }
}
