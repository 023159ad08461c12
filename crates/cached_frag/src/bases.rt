//! What a fragment's object is to it, and how many entries it has.
ghost use Rattle.std.specs.Prelude.{◌≡◌, ◌+◌, ◌<◌, ◌^◌, ◌-◌};
ghost use Rattle.cached_frag.specs.Snap.{IsBelowEnd, is_fresh, next_version};

/// What the object of a fragment is to it.
#[derive(Clone, Copy, Debug, PartialEq, Eq)]
pub enum Base {
    /// No commit yet: whatever lies there doesn't count.
    Fresh,
    /// The object spells the fragment as it was at this commit version.
    Stored(u64),
}

impl Base {
    /// Whether no object counts.
    pub fn is_fresh(self) -> bool
        ensures { result ≡ is_fresh self }
    {
        matches!(self, Base::Fresh)
    }

    /// The version that a commit writes: one more than the base's, 1 where there is no base.
    pub fn next_version(self) -> u64
        requires { IsBelowEnd self }
        ensures { result ≡ next_version self }
    {
        match self {
            Base::Fresh => 1,
            Base::Stored(version) => version + 1,
        }
    }
}

/// How many entries a fragment shows.
#[derive(Clone, Copy, Debug, PartialEq, Eq)]
pub struct EntryCounts {
    /// Those that aren't directories: files and links.
    pub files: u64,
    /// Those that are directories.
    pub dirs: u64,
}

impl EntryCounts {
    // What holds of all counts, by their type.
    pub(crate) fn have_64_bits(&self)
        ensures files { self.now.files < 2 ^ 64 }
        ensures dirs { self.now.dirs < 2 ^ 64 }
    {
        has_64_bits(self.files);
        has_64_bits(self.dirs);
    }
}

// What holds of each number, by its type.
pub(crate) fn has_64_bits(number: u64)
    ensures { number < 2 ^ 64 }
{
    let _ = number;
}
