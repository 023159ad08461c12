//! The law of commits. A law is its contract: its body does nothing.
ghost use Rattle.std.specs.Prelude.{IfSome};
ghost use Rattle.dirfrag_codec.specs.EntryRecord.{IsRecordable};
ghost use Rattle.cached_frag.specs.Commit.{CommitIsRight};
ghost use Rattle.cached_frag.specs.Marks.{IsDirtyName};

use crate::dirty_names::is_dirty;
use crate::marks::Mark;
use mds_types::Name;

/// The object that a commit's write leaves spells what the snapshot shows, one version higher.
pub fn commit_is_right()
    ensures { CommitIsRight }
{}

/// What became of a name is something that a commit can write, if a record allows its inode.
pub fn dirty_names_are_recorded(name: &Name, mark: &Mark)
    requires { IfSome mark.now.inode IsRecordable }
    ensures { IsDirtyName name.now mark.now }
{
    is_dirty(name, mark);
}
