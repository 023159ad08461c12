//! The laws of the table that sees a history grow and be forgotten. A law is its contract: its body does nothing.
ghost use Rattle.std.specs.Prelude.{◌≡◌, [], ℕ, true, List};
ghost use Rattle.std.specs.FinMap.{is_sorted};
ghost use Rattle.std.specs.Ordering.{nat_cmp};
ghost use Rattle.mds_types.specs.declared.entries.Entry.{Entry as Applied};
ghost use Rattle.sessions.specs.Replies.{kept_replies};
ghost use Rattle.sessions.specs.Restored.{IsRestored, IsStoredBut, IsStoredOf};
ghost use Rattle.sessions.specs.Stored.{Stored, stand_ins};
ghost use Rattle.sessions.specs.Table.{Table, no_table, trimmed};
ghost use Rattle.sessions.specs.Laws.{TableFollowsHistory, ApplyingKeepsAside, ForgettingSetsAside, RestoringClientFollows, RestoringReplyFollows, RestoredRepliesAreKept, RestoredAnswerAlike, KeptRepliesAreHistorys, RowsTellHistory, ApplyingKeepsStored, WritingStoresChanged};

/// The table of a history, in which the reply of one more entry was kept and that entry's client trimmed, is the table
/// of the history with that entry: what `keep` and then `trim` leave.
pub fn table_follows_history()
    ensures { TableFollowsHistory }
{}

/// A beginning of the history may be forgotten at any time: the table stays that of the whole history, and what was
/// kept of the beginning is set aside, as `forget` leaves it; and so it stays where a new request is applied.
pub fn forgotten_replies_stay()
    ensures applied { ApplyingKeepsAside }
    ensures forgotten { ForgettingSetsAside }
{}

/// The table that begins with no sessions, and takes clients, and behind each of them its replies, is that of what was
/// stored: what `restore_client` and `restore_reply` leave. A reply is kept there where one was stored, and what was
/// stored is what the stand-in entries keep.
pub fn restored_sessions_follow()
    ensures start { IsRestored [] no_table }
    ensures client { RestoringClientFollows }
    ensures reply { RestoringReplyFollows }
    ensures kept { RestoredRepliesAreKept }
    ensures stored { (stored : List Stored) (table : Table) → IsRestored stored table
        → IsStoredOf (stand_ins stored) stored }
{}

/// Where what was stored is what a history keeps, each request is to the stand-in entries what it is to that history, and
/// one that is kept has the same reply.
pub fn restored_sessions_answer_alike()
    ensures { RestoredAnswerAlike }
{}

/// What is kept of a client are the replies that the history keeps, in the order of their transaction numbers: that of
/// each pair which isn't below the client's mark. So what is stored of each client that is there is what the history
/// keeps.
pub fn kept_replies_are_the_histories()
    ensures replies { KeptRepliesAreHistorys }
    ensures order { (history : List Applied) (table : Table) (client : ℕ)
        → is_sorted nat_cmp (kept_replies history table client) ≡ true }
    ensures stored { RowsTellHistory }
{}

/// What is stored of a client that isn't changed is what the history keeps of it, whichever request is applied. Once what
/// is kept of the changed clients is stored, this holds of each client.
pub fn unchanged_clients_stay_stored()
    ensures none { (history : List Applied) (stored : List Stored) → IsStoredOf history stored
        → IsStoredBut history [] stored }
    ensures applied { ApplyingKeepsStored }
    ensures written { WritingStoresChanged }
{}
