//! The rows of ranks.
ghost use Rattle.std.specs.Prelude.{◌≡◌};
ghost use Rattle.byteorder.specs.Endian.{little_bytes};
ghost use Rattle.session_rows.specs.RankRows.{ReadsRank};

use crate::faults::RowFault;
use byteorder::{ByteOrder, LittleEndian};
use dirfrag_codec::fields::u64_at;
use mds_types::{Ino, Rank};

// How many numbers a rank hands out.
const PER_RANK: u64 = 1 << 40;

/// The value of the row of a rank that hands out this number next.
pub fn encode_rank(next: Ino) -> [u8; 8]
    ensures { result ≡ little_bytes 8 next.0 }
{
    let mut value = [0; 8];
    LittleEndian::write_u64(&mut value, next.0);
    value
}

/// The inode number that a rank hands out next, or the end of its range, where it has handed out all.
pub fn decode_rank(rank: Rank, bytes: &[u8]) -> Result<Ino, RowFault>
    ensures { ReadsRank rank bytes.now result }
{
    let Some((next, [])) = u64_at(bytes) else {
        return Err(RowFault::Length);
    };
    let first = (u64::from(rank.0) + 1) * PER_RANK;
    if next < first || first + PER_RANK < next {
        return Err(RowFault::OtherRange);
    }
    Ok(Ino(next))
}
