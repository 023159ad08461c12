//! The keys of rows.
ghost use Rattle.std.specs.Prelude.{◌≡◌};
ghost use Rattle.dirfrag_codec.specs.Grammar.{Decodes};
ghost use Rattle.session_rows.specs.Keys.{SpellsRowKey, client_bytes, rank_bytes};

use byteorder::{BigEndian, ByteOrder};
use mds_types::Rank;

// How many ranks there are at most.
const RANKS: u8 = 16;

/// What a row's key names.
#[derive(Clone, Copy, Debug, PartialEq, Eq)]
pub enum Key {
    Client(u64),
    Rank(Rank),
}

/// The key of a client's row.
pub fn client_key(client: u64) -> [u8; 8]
    ensures { result ≡ client_bytes client }
{
    let mut key = [0; 8];
    BigEndian::write_u64(&mut key, client);
    key
}

/// The key of a rank's row.
pub fn rank_key(rank: Rank) -> [u8; 1]
    ensures { result ≡ rank_bytes rank }
{
    [rank.0]
}

/// What a key names; none, where it is the key of no row: it has 8 bytes or 1, and there are 16 ranks.
pub fn key_of(bytes: &[u8]) -> Option<Key>
    ensures { Decodes SpellsRowKey bytes.now result }
{
    match bytes {
        [rank] if *rank < RANKS => Some(Key::Rank(Rank(*rank))),
        _ if bytes.len() == 8 => Some(Key::Client(BigEndian::read_u64(bytes))),
        _ => None,
    }
}
