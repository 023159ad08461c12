//! Sessions and next inode numbers, restored from the rows that a store kept.
ghost use Rattle.std.specs.Prelude.{◌≡◌, ◌<◌, ◌≤◌, None, true, is_some, IfErr, IfOk, OnOk};
ghost use Rattle.std.specs.FinMap as map;
ghost use Rattle.sessions.specs.Restored.{TakesClient, TakesReply};
ghost use Rattle.sessions.specs.Rooms.{table};
ghost use Rattle.sessions.specs.Table.{kept_in, mark_in};
ghost use Rattle.session_rows.specs.ClientRows.{IsRow, SpellsRow};
ghost use Rattle.session_rows.specs.Keys.{client_bytes, rank_bytes};
ghost use Rattle.session_rows.specs.Restoring.{MayRead, MayTake, ReadsMore, RefusesRow, RestoresRows, RestoresRow};

use crate::client_rows::{ClientRow, decode_client};
use crate::faults::RowFault;
use crate::keys::{Key, key_of};
use crate::rank_rows::decode_rank;
use crate::rows_faults::RowsFault;
use crate::told::Told;
use mds_types::{Ino, Rank};
use objstore::Pairs;
use sessions::{Sessions, Unfit};
use std::alloc::{AllocError, Global};

/// The sessions that rows keep, and by rank the inode number that it hands out next: 0 for a rank without a row.
#[derive(Debug, Drop)]
pub struct Restored {
    pub sessions: Sessions,
    pub nexts: [u64; 16],
}

/// Restores the sessions and the next inode numbers that these rows keep. Refused where a row is damaged: the fault
/// names that row. Takes memory for the sessions alone. No client counts as changed.
pub fn restore(alloc: Global, rows: &Pairs) -> Result<Restored, RowsFault>
    ensures { RestoresRows rows.now result }
{
    let mut restored = Restored {
        sessions: Sessions::new(alloc),
        nexts: [0; 16],
    };
    for (key, value) in rows.iter() {
        restored.read_row(alloc, key.as_slice(), value.as_slice())?;
    }
    Ok(restored)
}

impl Restored {
    // Reads a row.
    fn read_row(&mut self, alloc: Global, key: &[u8], value: &[u8]) -> Result<(), RowsFault>
        requires { MayRead key.now self.old }
        ensures read { OnOk result (ReadsMore key.now value.now self.old self.new) }
        ensures refused { IfErr result (RefusesRow key.now value.now) }
    {
        match key_of(key) {
            Some(Key::Client(client)) => self.read_client(alloc, client, value),
            Some(Key::Rank(rank)) => self.read_rank(rank, value),
            None => Err(RowsFault::Key),
        }
    }

    // Reads the row of a client.
    fn read_client(&mut self, alloc: Global, client: u64, value: &[u8]) -> Result<(), RowsFault>
        requires { MayRead (client_bytes client) self.old }
        ensures read { OnOk result (ReadsMore (client_bytes client) value.now self.old self.new) }
        ensures refused { IfErr result (RefusesRow (client_bytes client) value.now) }
    {
        let row = client_row(alloc, client, value)?;
        if take_row(&mut self.sessions, alloc, client, row).is_err() {
            return Err(RowsFault::NoMemory);
        }
        Ok(())
    }

    // Reads the row of a rank.
    fn read_rank(&mut self, rank: Rank, value: &[u8]) -> Result<(), RowsFault>
        requires { rank.0 < 16 }
        ensures read { OnOk result (ReadsMore (rank_bytes rank) value.now self.old self.new) }
        ensures refused { IfErr result (RefusesRow (rank_bytes rank) value.now) }
    {
        match decode_rank(rank, value) {
            Ok(Ino(next)) => {
                self.nexts[usize::from(rank.0)] = next;
                Ok(())
            }
            Err(fault) => Err(RowsFault::Rank(rank, fault)),
        }
    }
}

// The row of a client.
fn client_row(alloc: Global, client: u64, value: &[u8]) -> Result<ClientRow, RowsFault>
    ensures read { IfOk result (SpellsRow value.now) }
    ensures refused { IfErr result (RefusesRow (client_bytes client) value.now) }
{
    match decode_client(alloc, value) {
        Ok(row) => Ok(row),
        Err(RowFault::NoMemory) => Err(RowsFault::NoMemory),
        Err(fault) => Err(RowsFault::Client(client, fault)),
    }
}

// Takes a client over, which isn't there yet, and its replies.
fn take_row(
    sessions: &mut Sessions,
    alloc: Global,
    client: u64,
    row: ClientRow,
) -> Result<(), AllocError>
    requires absent { MayTake client (table sessions.old) }
    requires known { IsRow row }
    ensures taken { OnOk result (RestoresRow client row (table sessions.old) (table sessions.new)) }
    ensures changed { sessions.new.changed ≡ sessions.old.changed }
{
    take_client(sessions, alloc, client, row.mark())?;
    for told in row.into_replies() {
        take_told(sessions, client, told)?;
    }
    Ok(())
}

// Takes a client over, which isn't there yet.
fn take_client(
    sessions: &mut Sessions,
    alloc: Global,
    client: u64,
    mark: u64,
) -> Result<(), AllocError>
    requires { map.get (table sessions.old).rows client ≡ None }
    ensures taken { OnOk result (TakesClient (table sessions.old) (table sessions.new) client mark) }
    ensures changed { sessions.new.changed ≡ sessions.old.changed }
{
    match sessions.restore_client(alloc, client, mark) {
        Ok(()) => Ok(()),
        Err(Unfit::NoMemory) => Err(AllocError),
        Err(Unfit::ClientTwice | Unfit::NoClient | Unfit::BelowMark | Unfit::ReplyTwice) => {
            unreachable!()
        }
    }
}

// Takes a reply over, to a client that is there and a transaction number that has none yet.
fn take_told(sessions: &mut Sessions, client: u64, told: Told) -> Result<(), AllocError>
    requires known { is_some (map.get (table sessions.old).rows client) ≡ true }
    requires marked { mark_in (table sessions.old) client ≤ told.tid }
    requires absent { kept_in (table sessions.old) client told.tid ≡ None }
    ensures taken { OnOk result (TakesReply (table sessions.old) (table sessions.new) client told.tid told.reply) }
    ensures changed { sessions.new.changed ≡ sessions.old.changed }
{
    match sessions.restore_reply(client, told.tid, told.reply) {
        Ok(()) => Ok(()),
        Err(Unfit::NoMemory) => Err(AllocError),
        Err(Unfit::ClientTwice | Unfit::NoClient | Unfit::BelowMark | Unfit::ReplyTwice) => {
            unreachable!()
        }
    }
}
