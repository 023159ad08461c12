//! The value of a client's row, written reply by reply.
ghost use Rattle.std.specs.Prelude.{◌≡◌, ◌++◌, ◌≤◌, IfOk, OnOk, OnErr};
ghost use Rattle.byteorder.specs.Endian.{little_bytes};
ghost use Rattle.session_rows.specs.declared.told.Told.{Told as Kept};
ghost use Rattle.session_rows.specs.ClientRows.{IsTold, StoredClient, SpellsRow, next_number, no_replies, told_bytes, with_next_told};

use dirfrag_codec::fields::{put_u32, put_u64};
use mds_types::Reply;
use reply_codec::encode_reply;
use std::alloc::{AllocError, Global};
use std::marker::Model;

/// The value of a client's row, so far. Replies are pushed in ascending order of their transaction numbers, each at or
/// above the client's mark. Seen as its bytes.
#[derive(Debug, Drop)]
pub struct RowWriter {
    bytes: Vec<u8>,
}

impl Model for RowWriter {
    ghost use Rattle.std.specs.Prelude.{List, ℕ};

    ghost Value = { List ℕ };

    ghost view = { λ w. w.bytes.items };
}

impl RowWriter {
    /// The value of the row of a client with this mark, of which no reply is kept.
    pub fn new(alloc: Global, mark: u64) -> Result<RowWriter, AllocError>
        ensures bytes { IfOk result (λ row. row ≡ little_bytes 8 mark) }
        ensures row { IfOk result (λ row. SpellsRow row (no_replies mark)) }
    {
        let mut bytes = Vec::new(alloc);
        put_u64(&mut bytes, mark)?;
        Ok(RowWriter { bytes })
    }

    /// Adds the reply to a transaction number, which is at or above the mark and greater than the one before. Refused
    /// for want of memory, which stands for a reply of 4 GiB too: the value is as it was then.
    pub fn push(&mut self, tid: u64, reply: &Reply) -> Result<(), AllocError>
        ensures told { OnOk result (IsTold (record { tid = tid; reply = reply.now })) }
        ensures bytes { OnOk result (self.new ≡ self.old ++ told_bytes (record { tid = tid; reply = reply.now })) }
        ensures row { OnOk result ((row : StoredClient) → SpellsRow self.old row → next_number row ≤ tid
            → SpellsRow self.new (with_next_told row (record { tid = tid; reply = reply.now }))) }
        ensures left { OnErr result (self.new ≡ self.old) }
    {
        let told = encode_told(*self.bytes.allocator(), tid, reply)?;
        self.bytes.extend_from_slice(&told)
    }

    /// The value.
    pub fn done(self) -> Vec<u8>
        ensures { result.items ≡ self }
    {
        self.bytes
    }
}

// The bytes of a reply that is kept.
fn encode_told(alloc: Global, tid: u64, reply: &Reply) -> Result<Vec<u8>, AllocError>
    ensures told { OnOk result (IsTold (record { tid = tid; reply = reply.now })) }
    ensures bytes { IfOk result (λ bytes. bytes.items ≡ told_bytes (record { tid = tid; reply = reply.now })) }
{
    let text = encode_reply(alloc, reply)?;
    let Ok(len) = u32::try_from(text.len()) else {
        return Err(AllocError);
    };
    let mut told = Vec::new(alloc);
    put_u64(&mut told, tid)?;
    put_u32(&mut told, len)?;
    told.extend_from_slice(&text)?;
    Ok(told)
}
