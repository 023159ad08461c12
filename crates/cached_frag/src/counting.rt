//! Entry counts, kept as names change.
ghost use Rattle.std.specs.Prelude.{◌≡◌, ◌+◌, ◌<◌, ◌≤◌, ◌^◌, option_copied};
ghost use Rattle.cached_frag.specs.Counted.{counted};

use crate::bases::EntryCounts;
use mds_types::Inode;

/// What an inode counts as; nothing, if there is none.
pub(crate) fn counted(inode: Option<&Inode>) -> EntryCounts
    ensures counted { result ≡ counted (option_copied inode.entry) }
    ensures one { result.files + result.dirs ≤ 1 }
{
    let (files, dirs) = match inode {
        Some(inode) if inode.kind.is_dir() => (0, 1),
        Some(_) => (1, 0),
        None => (0, 0),
    };
    EntryCounts { files, dirs }
}

/// The counts once a name counts as this, and no longer as it did before.
pub(crate) fn recounted(counts: EntryCounts, before: EntryCounts, after: EntryCounts) -> EntryCounts
    requires files { before.files ≤ counts.files }
    requires dirs { before.dirs ≤ counts.dirs }
    requires one { after.files + after.dirs ≤ 1 }
    requires room { counts.files + counts.dirs + 1 < 2 ^ 64 }
    ensures files { result.files + before.files ≡ counts.files + after.files }
    ensures dirs { result.dirs + before.dirs ≡ counts.dirs + after.dirs }
{
    EntryCounts {
        files: counts.files - before.files + after.files,
        dirs: counts.dirs - before.dirs + after.dirs,
    }
}
