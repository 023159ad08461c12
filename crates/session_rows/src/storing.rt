//! Edits of rows that store the changed sessions and the next inode numbers.
ghost use Rattle.std.specs.Prelude.{◌≡◌, ◌++◌, [], List, Some, map, IfOk};
ghost use Rattle.byteorder.specs.Endian.{little_bytes};
ghost use Rattle.mds_types.specs.declared.entries.Entry.{Entry as Applied};
ghost use Rattle.sessions.specs.Aside.{AreSetAside};
ghost use Rattle.sessions.specs.Rooms.{table};
ghost use Rattle.sessions.specs.Table.{IsTableOf};
ghost use Rattle.session_rows.specs.ClientRows.{Ascend, SpellsRow};
ghost use Rattle.session_rows.specs.Keys.{client_bytes, rank_bytes};
ghost use Rattle.session_rows.specs.Sessions.{AreNextInos, IsStorable, WritesSessions, client_value, kept_row, told_entry};

use crate::keys::{client_key, rank_key};
use crate::rank_rows::encode_rank;
use crate::writer::RowWriter;
use keeping::RowEdit;
use mds_types::{Bytes, Entry, Ino, Rank};
use sessions::{ClientKept, Sessions};
use std::alloc::{AllocError, Global};

/// The edits that store the session of each changed client, in the order of `changed`, and then the inode number that
/// each of the first ranks hands out next. Rows of other clients and ranks stay. `history` has the entries that aren't
/// forgotten. Takes memory for the edits.
pub fn edits_of(
    alloc: Global,
    sessions: &Sessions,
    history: &[Entry],
    nexts: &[u64],
) -> Result<Vec<RowEdit>, AllocError>
    requires tabled { (past : List Applied) × IsTableOf (past ++ history.now) (table sessions.now)
        × AreSetAside past history.now (table sessions.now) }
    requires numbers { AreNextInos nexts.now }
    ensures { IfOk result
        (λ edits. WritesSessions history.now (table sessions.now) sessions.now.changed nexts.now edits.items) }
{
    let mut edits = client_edits(alloc, sessions, history)?;
    for rank in 0..nexts.len() {
        edits.push(rank_edit(alloc, Rank(rank as u8), Ino(nexts[rank]))?)?;
    }
    Ok(edits)
}

// The edits that store the session of each changed client.
fn client_edits(
    alloc: Global,
    sessions: &Sessions,
    history: &[Entry],
) -> Result<Vec<RowEdit>, AllocError>
    requires { (past : List Applied) × IsTableOf (past ++ history.now) (table sessions.now)
        × AreSetAside past history.now (table sessions.now) }
    ensures { IfOk result
        (λ edits. WritesSessions history.now (table sessions.now) sessions.now.changed [] edits.items) }
{
    let mut edits = Vec::new(alloc);
    for client in sessions.changed() {
        edits.push(client_edit(alloc, sessions, history, *client)?)?;
    }
    Ok(edits)
}

// The edit that stores a client's session: it writes the client's row, or removes it where the client isn't there.
fn client_edit(
    alloc: Global,
    sessions: &Sessions,
    history: &[Entry],
    client: u64,
) -> Result<RowEdit, AllocError>
    requires { (past : List Applied) × IsTableOf (past ++ history.now) (table sessions.now)
        × AreSetAside past history.now (table sessions.now) }
    ensures key { IfOk result (λ edit. edit.key ≡ client_bytes client) }
    ensures value { IfOk result
        (λ edit. edit.value ≡ client_value (kept_row history.now (table sessions.now) client)) }
    ensures storable { IfOk result (λ _. IsStorable client (kept_row history.now (table sessions.now) client)) }
{
    let value = match sessions.kept(history, client) {
        Some(kept) => Some(row_value(alloc, kept)?),
        None => None,
    };
    let key = Bytes::from_slice(alloc, &client_key(client))?;
    Ok(RowEdit { key, value })
}

// The value of the row of a client with this mark and these replies.
fn row_value(alloc: Global, kept: ClientKept<'_>) -> Result<Bytes, AllocError>
    requires { Ascend kept.mark (map told_entry kept.replies) }
    ensures { IfOk result
        (λ value. SpellsRow value (record { mark = kept.entry.mark; replies = map told_entry kept.entry.replies })) }
{
    let mut row = RowWriter::new(alloc, kept.mark)?;
    for (tid, reply) in kept.replies {
        row.push(tid, reply)?;
    }
    Bytes::from_vec(alloc, row.done())
}

// The edit that stores the inode number that a rank hands out next.
fn rank_edit(alloc: Global, rank: Rank, next: Ino) -> Result<RowEdit, AllocError>
    ensures key { IfOk result (λ edit. edit.key ≡ rank_bytes rank) }
    ensures value { IfOk result (λ edit. edit.value ≡ Some (little_bytes 8 next.0)) }
{
    let key = Bytes::from_slice(alloc, &rank_key(rank))?;
    let value = Bytes::from_slice(alloc, &encode_rank(next))?;
    Ok(RowEdit {
        key,
        value: Some(value),
    })
}
