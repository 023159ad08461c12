//! The supply of inode numbers of a rank.
ghost use Rattle.std.specs.Prelude.{◌≡◌, ◌+◌, ◌<◌, ◌≤◌};
ghost use Rattle.inode_table.specs.Numbers.{Supply, IsSupply, Draws, first_number, end_number, offer};

use mds_types::{Ino, Rank, Refusal};
use std::marker::Model;

/// How many numbers each rank hands out.
const PER_RANK: u64 = 1 << 40;

/// The inode numbers of a rank: rank `r` hands out `(r + 1) << 40` and the `2^40 - 1` after it, one by one in ascending
/// order. A copy is a supply of its own, so a draw on a copy looks ahead.
#[derive(Clone, Copy, Debug, PartialEq, Eq)]
pub struct Numbers {
    rank: u8,
    next: u64,
}

impl Model for Numbers {
    ghost use Rattle.inode_table.specs.Numbers.{Supply, IsSupply};

    ghost Value = { Supply };

    ghost view = { λ n. record { rank = n.rank; next = n.next } };

    ghost invariant = { λ n. IsSupply (record { rank = n.rank; next = n.next }) };

    ghost inverse = { λ s. record { rank = s.rank; next = s.next } };
}

impl Numbers {
    /// The first number that a rank hands out.
    pub fn first_of(rank: Rank) -> Ino
        requires { rank.0 < 16 }
        ensures { result.0 ≡ first_number rank.0 }
    {
        Ino((u64::from(rank.0) + 1) * PER_RANK)
    }

    /// The supply of a rank that hands out `next` next: a number of its range, or the range's end if all are used up.
    pub fn from(rank: Rank, next: u64) -> Numbers
        requires ranked { rank.0 < 16 }
        requires started { first_number rank.0 ≤ next }
        requires ended { next ≤ end_number rank.0 }
        ensures { result ≡ record { rank = rank.0; next = next } }
    {
        Numbers { rank: rank.0, next }
    }

    /// The number that a draw would give; none where the range is used up.
    pub fn peek(self) -> Option<Ino>
        ensures { result ≡ offer self }
    {
        if self.next < (u64::from(self.rank) + 2) * PER_RANK {
            Some(Ino(self.next))
        } else {
            None
        }
    }

    /// The next number, handed out; `NoInodes` where the range is used up. Takes no memory.
    pub fn draw(&mut self) -> Result<Ino, Refusal>
        ensures drawn { Draws self.old self.new result }
        ensures valid { IsSupply self.new }
    {
        if self.next == (u64::from(self.rank) + 2) * PER_RANK {
            return Err(Refusal::NoInodes);
        }
        let number = Ino(self.next);
        self.next += 1;
        Ok(number)
    }
}
