//! Sessions that begin again from what was stored: the clients, and behind each its replies.
ghost use Rattle.std.specs.Prelude.{◌≡◌, ◌<◌, false, IfErr, OnErr, OnOk};
ghost use Rattle.std.specs.FinMap as map;
ghost use Rattle.sessions.specs.Restored.{IsUnfitClient, IsUnfitReply, TakesClient, TakesReply, marked_row};
ghost use Rattle.sessions.specs.Rooms.{table};

use crate::clients::Client;
use crate::session_table::{MOST_FORGOTTEN, Sessions, add};
use mds_types::Reply;
use std::alloc::{AllocError, Global};

/// Why what was stored isn't taken.
#[derive(Clone, Copy, Debug, PartialEq, Eq)]
pub enum Unfit {
    /// The client is there already.
    ClientTwice,
    /// The reply is one to a client that isn't there.
    NoClient,
    /// The reply's transaction number is below its client's mark.
    BelowMark,
    /// There is a reply to the transaction number already.
    ReplyTwice,
    /// Memory was refused, or 2^62 entries are forgotten.
    NoMemory,
}

impl From<AllocError> for Unfit {
    ghost use Rattle.std.specs.Prelude.{◌≡◌};
    ghost use Rattle.sessions.specs.declared.restoring.Unfit.TheVariants.{NoMemory};

    ghost from_gives = { λ _ reason. reason ≡ NoMemory };

    fn from(_error: AllocError) -> Unfit {
        Unfit::NoMemory
    }
}

impl Sessions {
    /// Adds a client with the mark that was stored. It may not be there yet. It doesn't count as changed.
    pub fn restore_client(&mut self, alloc: Global, client: u64, mark: u64) -> Result<(), Unfit>
        ensures taken { OnOk result (TakesClient (table self.old) (table self.new) client mark) }
        ensures same { OnErr result (table self.new ≡ table self.old) }
        ensures changed { self.new.changed ≡ self.old.changed }
        ensures unfit { IfErr result (IsUnfitClient (table self.old) client) }
    {
        if self.indices.contains(&client) {
            return Err(Unfit::ClientTwice);
        }
        if self.forgotten == MOST_FORGOTTEN {
            return Err(Unfit::NoMemory);
        }
        self.indices.reserve(1)?;
        // One for the client, and one for that which is made ready.
        self.sessions.reserve(2)?;
        let i = self.sessions.len();
        self.sessions.push_reserved(Client::marked(alloc, mark));
        add(&mut self.indices, client, i);
        if mark > 0 {
            self.forgotten += 1;
        }
        Ok(())
    }

    /// Adds a reply that was stored, of a client that is there: to a transaction number at or above the client's mark,
    /// which has no reply yet. The client doesn't count as changed.
    pub fn restore_reply(&mut self, client: u64, tid: u64, reply: Reply) -> Result<(), Unfit>
        ensures taken { OnOk result (TakesReply (table self.old) (table self.new) client tid reply) }
        ensures same { OnErr result (table self.new ≡ table self.old) }
        ensures changed { self.new.changed ≡ self.old.changed }
        ensures unfit { IfErr result (IsUnfitReply (table self.old) client tid) }
    {
        let Some(i) = self.find(client).session else {
            drop(reply);
            return Err(Unfit::NoClient);
        };
        if self.forgotten == MOST_FORGOTTEN {
            drop(reply);
            return Err(Unfit::NoMemory);
        }
        self.sessions[i].restore(tid, self.forgotten, reply)?;
        self.forgotten += 1;
        Ok(())
    }
}
