//! The rows of clients, read.
ghost use Rattle.std.specs.Prelude.{◌≡◌, ◌<◌, ◌≤◌, ◌↔◌, IfOk, IfErr, IsTrue, OnOk};
ghost use Rattle.dirfrag_codec.specs.Reading.{Gives};
ghost use Rattle.reply_codec.specs.Reading.{counted_at};
ghost use Rattle.session_rows.specs.ClientRows.{IsNotRead, ReadsRow, ReadsTold, next_number, told_at, with_next_told};

use crate::faults::RowFault;
use crate::told::Told;
use dirfrag_codec::fields::{u32_at, u64_at};
use reply_codec::decode_reply;
use std::alloc::{AllocError, Global};
use std::marker::Model;

/// What is kept of a client: its mark, and the replies to its transaction numbers at or above the mark, in ascending
/// order of these.
#[derive(Debug, Drop)]
pub struct ClientRow {
    mark: u64,
    replies: Vec<Told>,
}

impl Model for ClientRow {
    ghost use Rattle.session_rows.specs.ClientRows.{StoredClient};

    ghost Value = { StoredClient };

    ghost view = { λ row. record { mark = row.mark; replies = row.replies.items } };
}

impl ClientRow {
    /// The client's mark.
    pub fn mark(&self) -> u64
        ensures { result ≡ self.now.mark }
    {
        self.mark
    }

    /// The replies that are kept.
    pub fn replies(&self) -> &[Told]
        ensures { result.now ≡ self.now.replies }
    {
        self.replies.as_slice()
    }

    /// The replies that are kept, given back. Takes no memory.
    pub fn into_replies(self) -> Vec<Told>
        ensures { result.items ≡ self.replies }
    {
        self.replies
    }

    // Reads a further reply, and gives the bytes after it.
    fn read_next<'a>(&mut self, bytes: &'a [u8]) -> Result<&'a [u8], RowFault>
        ensures ok { IfOk result (λ rest. ReadsTold self.old bytes.now self.new rest.now) }
        ensures err { IfErr result (IsNotRead self.old bytes.now) }
    {
        let Some((tid, text, rest)) = told_at(bytes) else {
            return Err(RowFault::Length);
        };
        if tid < self.mark {
            return Err(RowFault::BelowMark);
        }
        if !self.may_follow(tid) {
            return Err(RowFault::OutOfOrder);
        }
        let Some(reply) = decode_reply(*self.replies.allocator(), text)? else {
            return Err(RowFault::NoReply);
        };
        self.keep(Told { tid, reply })?;
        Ok(rest)
    }

    // Whether a transaction number that isn't below the mark is greater than the last one.
    fn may_follow(&self, tid: u64) -> bool
        ensures { self.now.mark ≤ tid → IsTrue result ↔ (next_number self.now ≤ tid) }
    {
        match self.replies.last() {
            Some(last) => last.tid < tid,
            None => true,
        }
    }

    // Adds a reply.
    fn keep(&mut self, told: Told) -> Result<(), AllocError>
        ensures { OnOk result (self.new ≡ with_next_told self.old told) }
    {
        self.replies.push(told)?;
        Ok(())
    }
}

/// The row of a client whose value these bytes are, or why they are none. Takes memory for the replies.
pub fn decode_client(alloc: Global, bytes: &[u8]) -> Result<ClientRow, RowFault>
    ensures { ReadsRow bytes.now result }
{
    let Some((mark, mut rest)) = u64_at(bytes) else {
        return Err(RowFault::Length);
    };
    let mut row = ClientRow {
        mark,
        replies: Vec::new(alloc),
    };
    'replies: while !rest.is_empty() {
        rest = row.read_next(rest)?;
    }
    Ok(row)
}

// A transaction number, the bytes of a reply behind their length, and the bytes after them.
#[tactic(auto, unfolding(crate::specs::ClientRows::told_at))]
fn told_at(bytes: &[u8]) -> Option<(u64, &[u8], &[u8])>
    ensures { Gives (λ x. (x.0, x.1.now, x.2.now)) result (told_at bytes.now) }
{
    let (tid, rest) = u64_at(bytes)?;
    let (text, rest) = text_at(rest)?;
    Some((tid, text, rest))
}

// Bytes behind a length of 4 bytes, and the bytes after them.
fn text_at(bytes: &[u8]) -> Option<(&[u8], &[u8])>
    ensures { Gives (λ x. (x.0.now, x.1.now)) result (counted_at 4 bytes.now) }
{
    let (len, rest) = u32_at(bytes)?;
    let len = len as usize;
    if rest.len() < len {
        return None;
    }
    Some(rest.split_at(len))
}
