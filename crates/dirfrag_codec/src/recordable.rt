//! Which inodes a record allows.
ghost use Rattle.std.specs.Prelude.{◌≡◌, ◌*◌, ◌^◌, ◌&&◌, ◌↔◌, IsTrue, nat_le, nat_lt};
ghost use Rattle.mds_types.specs.Tree.{HasPinOf, HasSize};
ghost use Rattle.dirfrag_codec.specs.EntryRecord.{HasTarget, IsRankNumber, IsRecordable};

use mds_types::{Inode, Kind, Rank};

// The least of the numbers that ranks hand out, and the number behind the greatest.
const LEAST_NUMBER: u64 = 1 << 40;

const END_OF_NUMBERS: u64 = 17 << 40;

/// How many ranks there are at most.
pub(crate) const RANKS: u8 = 16;

/// Whether a record allows this inode: its number is one that a rank hands out, its size is 0 for a directory and the
/// target's length for a link, and a pin is one of 16 ranks, on a directory.
pub fn is_recordable(inode: &Inode) -> bool
    ensures { IsTrue result ↔ IsRecordable inode.now }
{
    // a mode's call tells that it has 12 bits
    let _ = inode.mode.bits();
    is_rank_number(inode.ino.0)
        && has_size(&inode.kind, inode.size)
        && has_pin(&inode.kind, inode.pin)
}

/// Whether this is a number that a rank hands out.
pub(crate) fn is_rank_number(number: u64) -> bool
    ensures value { result ≡ (nat_le (2 ^ 40) number && nat_lt number (17 * 2 ^ 40)) }
    ensures rank { IsTrue result ↔ IsRankNumber number }
{
    LEAST_NUMBER <= number && number < END_OF_NUMBERS
}

// Whether this is a size that the kind prescribes. A link's target is one by its type.
fn has_size(kind: &Kind, size: u64) -> bool
    ensures size { IsTrue result ↔ HasSize kind.now size }
    ensures target { HasTarget kind.now }
{
    match kind {
        Kind::File => true,
        Kind::Dir => size == 0,
        Kind::Symlink(target) => size == target.as_bytes().len() as u64,
    }
}

// Whether this is a pin that the kind allows.
fn has_pin(kind: &Kind, pin: Option<Rank>) -> bool
    ensures { IsTrue result ↔ HasPinOf kind.now pin }
{
    match (kind, pin) {
        (_, None) => true,
        (Kind::Dir, Some(rank)) => rank.0 < RANKS,
        (Kind::File | Kind::Symlink(_), Some(_)) => false,
    }
}
