//! Whether a directory may take a further entry.
ghost use Rattle.std.specs.Prelude.{◌≡◌, ◌<◌, ◌^◌, false, nat_le, None};
ghost use Rattle.std.specs.Option.{option_copied};
ghost use Rattle.mds_types.specs.Tree.{Tree, entries_in};
ghost use Rattle.mds_types.specs.Step.{HasSpace};
ghost use Rattle.mds_types.specs.Step.{room_errno as errno_of_room};

use mds_types::{Dentry, ENOSPC, Inode, Limit};

/// Whether a directory that has so many entries has as many as it may have, or more.
pub fn is_full(limit: Limit, entries: u64) -> bool
    ensures told { result ≡ nat_le limit entries }
    ensures space { result ≡ false → entries < 2 ^ 20 }
{
    entries >= u64::from(limit.entries())
}

/// The errno for a move to where nothing stands, in another directory, which has so many entries and is full.
pub fn room_errno(
    limit: Limit,
    from: &Dentry,
    to: &Dentry,
    entries: u64,
    replaced: Option<&Inode>,
) -> Option<u16>
    ensures told { (tree : Tree) → entries ≡ entries_in tree to.now.dir.0
        → result ≡ errno_of_room limit tree from.now to.now (option_copied replaced.entry) }
    ensures space { (tree : Tree) → entries ≡ entries_in tree to.now.dir.0 → result ≡ None
        → HasSpace tree from.now to.now (option_copied replaced.entry) }
{
    match replaced {
        Some(_) => None,
        None => {
            if from.dir != to.dir && is_full(limit, entries) {
                Some(ENOSPC)
            } else {
                None
            }
        }
    }
}
