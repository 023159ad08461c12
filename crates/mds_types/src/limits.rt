//! How many entries a directory may have.
ghost use Rattle.std.specs.Prelude.{◌≡◌, ◌≤◌, SomeIff};

use std::marker::Model;

/// The most entries of one directory: 1 to 1,048,576.
#[derive(Clone, Copy, Debug, PartialEq, Eq)]
pub struct Limit {
    entries: u32,
}

impl Model for Limit {
    ghost use Rattle.std.specs.Prelude.{ℕ, ◌≤◌};

    ghost Value = { ℕ };

    ghost view = { λ l. l.entries };

    ghost invariant = { λ l. (1 ≤ l.entries) × (l.entries ≤ 1048576) };

    ghost inverse = { λ n. record { entries = n } };
}

impl Limit {
    /// The largest.
    pub const MAX: Limit = Limit { entries: 1_048_576 };

    /// The limit of so many entries, if it is 1 to 1,048,576.
    pub fn new(entries: u32) -> Option<Limit>
        ensures { SomeIff result ((1 ≤ entries) × (entries ≤ 1048576)) entries }
    {
        if 1 <= entries && entries <= Limit::MAX.entries {
            Some(Limit { entries })
        } else {
            None
        }
    }

    /// The number of entries.
    pub fn entries(self) -> u32
        ensures entries { result ≡ self }
        ensures some { 1 ≤ self }
        ensures few { self ≤ 1048576 }
    {
        self.entries
    }
}
