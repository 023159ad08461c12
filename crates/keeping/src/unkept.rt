//! Why objects aren't kept.
ghost use Rattle.std.specs.Prelude.{◌≡◌};
ghost use Rattle.keeping.specs.Unkept.{unkept_word};

use thiserror::Error;

/// Why objects could not be brought where they outlive the process. Whatever the reason, the objects in memory are as
/// they were, and the next `keep` that answers Ok brings what this one didn't.
#[derive(Clone, Copy, Debug, PartialEq, Eq, Error)]
pub enum Unkept {
    /// Memory ran out. Another try may succeed.
    #[error("out of memory")]
    NoMemory,
    /// There is no room on the disk, or the file has as many pages as it can. Another try may succeed once there is room.
    #[error("the disk is full")]
    Full,
    /// The disk failed to read or to write. Another try may succeed.
    #[error("the disk failed to read or write")]
    Io,
    /// A page of the file doesn't read as it was written.
    #[error("a page of the file is damaged")]
    Corrupt,
    /// An earlier failure left open what the disk has, as a sync that failed does: only another run can look.
    #[error("the file is shut since an earlier failure: only another run can open it again")]
    Shut,
}

impl Unkept {
    /// The reason in one word, as the script prints it behind `unsaved`.
    pub fn word(self) -> &'static str
        ensures { result.now ≡ unkept_word self }
    {
        match self {
            Unkept::NoMemory => "memory",
            Unkept::Full => "full",
            Unkept::Io => "io",
            Unkept::Corrupt => "corrupt",
            Unkept::Shut => "shut",
        }
    }
}
