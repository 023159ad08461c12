//! Changes of the plain fragments: of the entries and, where a directory comes, goes or moves, of the directory table.
ghost use Rattle.std.specs.Prelude.{◌≡◌, ◌<◌, true, MatchBool, Some};
ghost use Rattle.std.specs.FinMap as map;
ghost use Rattle.sorted_map.specs.SortedMap.{contents};
ghost use Rattle.mds_types.specs.Tree.{dentry_cmp, is_dir_kind};
ghost use Rattle.mds_types.specs.Step.{IsMove, with_moved};
ghost use Rattle.inode_table.specs.TreeChanges.{KeepLeaves, MayAdd, MaySet, MayRemove};
ghost use Rattle.inode_table.specs.TreeTable.{IsTabled};

use inode_table::{Dirs, adopt_dir, drop_dir, relocate_dir};
use mds_types::{Dentry, Inode, Name};
use sorted_map::SortedMap;

/// Puts an inode at a dentry: a new one, or the one that stands there with other attributes. `spare` has the name of
/// the dentry where a new one is a directory.
pub fn put_entry(
    entries: &mut SortedMap<Dentry, Inode>,
    dirs: &mut Dirs,
    spare: &mut Option<Name>,
    dentry: Dentry,
    inode: Inode,
    comes: bool,
)
    requires tabled { IsTabled (contents dentry_cmp entries.old) dirs.old.homes }
    requires ready { comes ≡ true → (0 < entries.old.room) ×
        (is_dir_kind inode.kind ≡ true → (0 < dirs.old.room) × (spare.old ≡ Some dentry.name)) }
    requires may { MatchBool comes (MayAdd (contents dentry_cmp entries.old) dentry inode)
        (MaySet (contents dentry_cmp entries.old) dentry inode) }
    ensures tree { contents dentry_cmp entries.new ≡ map.insert (contents dentry_cmp entries.old) dentry inode }
    ensures tabled { IsTabled (contents dentry_cmp entries.new) dirs.new.homes }
    ensures leaves { KeepLeaves (contents dentry_cmp entries.new) dirs.old.trees dirs.new.trees }
{
    if comes {
        add_entry(entries, dirs, spare, dentry, inode);
    } else {
        set_entry(entries, dirs, &dentry, inode);
    }
}

// Puts a new inode at a dentry. `spare` has the name of the dentry where the inode is a directory.
fn add_entry(
    entries: &mut SortedMap<Dentry, Inode>,
    dirs: &mut Dirs,
    spare: &mut Option<Name>,
    dentry: Dentry,
    inode: Inode,
)
    requires tabled { IsTabled (contents dentry_cmp entries.old) dirs.old.homes }
    requires room { 0 < entries.old.room }
    requires ready { is_dir_kind inode.kind ≡ true → (0 < dirs.old.room) × (spare.old ≡ Some dentry.name) }
    requires may { MayAdd (contents dentry_cmp entries.old) dentry inode }
    ensures tree { contents dentry_cmp entries.new ≡ map.insert (contents dentry_cmp entries.old) dentry inode }
    ensures tabled { IsTabled (contents dentry_cmp entries.new) dirs.new.homes }
    ensures leaves { KeepLeaves (contents dentry_cmp entries.new) dirs.old.trees dirs.new.trees }
{
    adopt_dir(dirs, spare, &dentry, &inode);
    let _ = entries.insert(dentry, inode);
}

// Gives the inode at a dentry other attributes.
fn set_entry(entries: &mut SortedMap<Dentry, Inode>, dirs: &Dirs, dentry: &Dentry, inode: Inode)
    requires tabled { IsTabled (contents dentry_cmp entries.old) dirs.now.homes }
    requires may { MaySet (contents dentry_cmp entries.old) dentry.now inode }
    ensures tree { contents dentry_cmp entries.new ≡ map.insert (contents dentry_cmp entries.old) dentry.now inode }
    ensures tabled { IsTabled (contents dentry_cmp entries.new) dirs.now.homes }
{
    let _ = entries.replace(dentry, inode);
}

/// Takes the entry at a dentry away.
pub fn remove_entry(entries: &mut SortedMap<Dentry, Inode>, dirs: &mut Dirs, dentry: &Dentry)
    requires tabled { IsTabled (contents dentry_cmp entries.old) dirs.old.homes }
    requires may { MayRemove (contents dentry_cmp entries.old) dentry.now }
    ensures tree { contents dentry_cmp entries.new ≡ map.remove (contents dentry_cmp entries.old) dentry.now }
    ensures tabled { IsTabled (contents dentry_cmp entries.new) dirs.new.homes }
    ensures leaves { KeepLeaves (contents dentry_cmp entries.new) dirs.old.trees dirs.new.trees }
{
    drop_dir(dirs, entries.get(dentry));
    let _ = entries.remove(dentry);
}

/// Moves the inode at a dentry to another. `spare` has the name of that.
pub fn move_entry(
    entries: &mut SortedMap<Dentry, Inode>,
    dirs: &mut Dirs,
    spare: &mut Option<Name>,
    from: &Dentry,
    to: Dentry,
    inode: Inode,
)
    requires tabled { IsTabled (contents dentry_cmp entries.old) dirs.old.homes }
    requires room { 0 < entries.old.room }
    requires ready { spare.old ≡ Some to.name }
    requires may { IsMove (contents dentry_cmp entries.old) from.now to inode }
    ensures tree { contents dentry_cmp entries.new ≡ with_moved (contents dentry_cmp entries.old) from.now to inode }
    ensures tabled { IsTabled (contents dentry_cmp entries.new) dirs.new.homes }
    ensures leaves { KeepLeaves (contents dentry_cmp entries.new) dirs.old.trees dirs.new.trees }
{
    drop(entries.remove(from));
    relocate_dir(dirs, spare, &to, &inode);
    drop_dir(dirs, entries.get(&to));
    drop(entries.insert(to, inode));
}
