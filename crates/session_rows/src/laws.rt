//! The laws of the formats. A law is its contract: its body does nothing.
ghost use Rattle.std.specs.Prelude.{◌≡◌, ◌⊎◌, ◌^◌, ◌<◌, [], List, Result, replicate, ℕ};
ghost use Rattle.std.specs.Cmp.Lexicographic.{slice_cmp};
ghost use Rattle.std.specs.FinMap as map;
ghost use Rattle.std.specs.Ordering.{nat_cmp};
ghost use Rattle.dirfrag_codec.specs.Grammar.{HasOneMeaning, HasOneSpelling};
ghost use Rattle.keeping.specs.Rows.{SessionRows};
ghost use Rattle.mds_types.specs.declared.entries.Entry.{Entry as Applied};
ghost use Rattle.mds_types.specs.declared.ids.Ino.{Ino};
ghost use Rattle.mds_types.specs.declared.ids.Rank.{Rank};
ghost use Rattle.sessions.specs.Restored.{IsStoredOf};
ghost use Rattle.sessions.specs.Stored.{Stored, stored_of};
ghost use Rattle.session_rows.specs.declared.faults.RowFault.{RowFault};
ghost use Rattle.session_rows.specs.declared.faults.RowFault.TheVariants.{NoMemory};
ghost use Rattle.session_rows.specs.declared.restoring.Restored.{Restored};
ghost use Rattle.session_rows.specs.declared.rows_faults.RowsFault.{RowsFault};
ghost use Rattle.session_rows.specs.declared.rows_faults.RowsFault.TheVariants.{NoMemory as OutOfMemory};
ghost use Rattle.session_rows.specs.ClientRows.{IsNoRow, ReadsRow, StoredClient, SpellsRow};
ghost use Rattle.session_rows.specs.Keys.{SpellsRowKey, client_bytes};
ghost use Rattle.session_rows.specs.RankRows.{ReadsRank, SpellsRank};
ghost use Rattle.session_rows.specs.Restoring.{IsRestoredOf, RefusesRows};
ghost use Rattle.session_rows.specs.Sessions.{SpellsSessions};

/// A key names at most one thing, and what it names has one key. The keys of clients are in the order of their numbers.
pub fn keys_are_spelled_once()
    ensures meaning { HasOneMeaning SpellsRowKey }
    ensures spelling { HasOneSpelling SpellsRowKey }
    ensures order { (a b : ℕ) → a < 2 ^ 64 → b < 2 ^ 64
        → slice_cmp nat_cmp (client_bytes a) (client_bytes b) ≡ nat_cmp a b }
{}

/// Bytes spell at most one row of a client, and a row has one spelling. Bytes that are no row for a reason spell none,
/// and the reason is one. So what was written is read again, unless memory is wanting.
pub fn rows_are_spelled_once()
    ensures meaning { HasOneMeaning SpellsRow }
    ensures spelling { HasOneSpelling SpellsRow }
    ensures broken { (bytes : List ℕ) (fault : RowFault) (row : StoredClient) → IsNoRow bytes fault
        → SpellsRow bytes row → ⊥ }
    ensures reason { (bytes : List ℕ) (a b : RowFault) → IsNoRow bytes a → IsNoRow bytes b → a ≡ b }
    ensures again { (bytes : List ℕ) (row : StoredClient) (answer : Result StoredClient RowFault) → SpellsRow bytes row
        → ReadsRow bytes answer → (answer ≡ Ok row) ⊎ (answer ≡ Err NoMemory) }
{}

/// Bytes spell at most one next number of a rank, and the number has one spelling. What was written is read again.
pub fn rank_rows_are_spelled_once()
    ensures meaning { (rank : Rank) → HasOneMeaning (SpellsRank rank) }
    ensures spelling { (rank : Rank) → HasOneSpelling (SpellsRank rank) }
    ensures again { (rank : Rank) (bytes : List ℕ) (next : Ino) (answer : Result Ino RowFault)
        → SpellsRank rank bytes next → ReadsRank rank bytes answer → answer ≡ Ok next }
{}

/// Rows have one meaning: they tell how each client is stored, and each rank's next number. Where there are no rows
/// nothing is stored. Rows that were written are restored unless memory is wanting, and then the sessions are those of
/// the history that was stored.
pub fn sessions_are_spelled_once()
    ensures content { (rows : SessionRows) (a b : List Stored) (m n : List ℕ) → SpellsSessions rows a m
        → SpellsSessions rows b n → (client : ℕ) → stored_of a client ≡ stored_of b client }
    ensures nexts { (rows : SessionRows) (a b : List Stored) (m n : List ℕ) → SpellsSessions rows a m
        → SpellsSessions rows b n → m ≡ n }
    ensures empty { SpellsSessions map.empty [] (replicate 16 0) }
    ensures again { (rows : SessionRows) (stored : List Stored) (nexts : List ℕ) (fault : RowsFault)
        → SpellsSessions rows stored nexts → RefusesRows rows fault → fault ≡ OutOfMemory }
    ensures history { (history : List Applied) (rows : SessionRows) (stored : List Stored) (nexts : List ℕ)
        (read : Restored) → SpellsSessions rows stored nexts → IsStoredOf history stored → (r : IsRestoredOf rows read)
        → IsStoredOf history r.stored }
{}
