//! How many entries one listing may have.
ghost use Rattle.std.specs.Prelude.{◌≡◌, ◌≤◌, SomeIff};

use std::marker::Model;

/// The most entries of one readdir: 1 to 1024.
#[derive(Clone, Copy, Debug, PartialEq, Eq)]
pub struct PageSize {
    entries: u16,
}

impl Model for PageSize {
    ghost use Rattle.std.specs.Prelude.{ℕ, ◌≤◌};

    ghost Value = { ℕ };

    ghost view = { λ p. p.entries };

    ghost invariant = { λ p. (1 ≤ p.entries) × (p.entries ≤ 1024) };

    ghost inverse = { λ n. record { entries = n } };
}

impl PageSize {
    /// The largest.
    pub const MAX: PageSize = PageSize { entries: 1024 };

    /// The page size of so many entries, if it is 1 to 1024.
    pub fn new(entries: u16) -> Option<PageSize>
        ensures { SomeIff result ((1 ≤ entries) × (entries ≤ 1024)) entries }
    {
        if 1 <= entries && entries <= PageSize::MAX.entries {
            Some(PageSize { entries })
        } else {
            None
        }
    }

    /// The number of entries.
    pub fn entries(self) -> u16
        ensures entries { result ≡ self }
        ensures some { 1 ≤ self }
        ensures few { self ≤ 1024 }
    {
        self.entries
    }
}
