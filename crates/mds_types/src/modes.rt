//! The mode of an inode.
ghost use Rattle.std.specs.Prelude.{◌≡◌, ◌≤◌, SomeIff};

use std::marker::Model;

/// Permission bits and set-id bits: at most octal 7777. A mode is stored and not judged.
#[derive(Clone, Copy, Debug, PartialEq, Eq)]
pub struct Mode {
    bits: u16,
}

impl Model for Mode {
    ghost use Rattle.std.specs.Prelude.{ℕ, ◌≤◌};

    ghost Value = { ℕ };

    ghost view = { λ m. m.bits };

    ghost invariant = { λ m. m.bits ≤ 4095 };

    ghost inverse = { λ n. record { bits = n } };
}

impl Mode {
    /// The mode of a symbolic link, which no call changes: octal 777.
    pub const LINK: Mode = Mode { bits: 0o777 };

    /// The mode of these bits, if there are no others than those of octal 7777.
    pub fn new(bits: u16) -> Option<Mode>
        ensures { SomeIff result (bits ≤ 4095) bits }
    {
        if bits <= 0o7777 {
            Some(Mode { bits })
        } else {
            None
        }
    }

    /// The bits.
    pub fn bits(self) -> u16
        ensures bits { result ≡ self }
        ensures valid { self ≤ 4095 }
    {
        self.bits
    }
}
