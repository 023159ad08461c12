//! Edits of a row of chunks at a place among all its pairs.
ghost use Rattle.std.specs.Prelude.{◌≡◌, ◌+◌, ◌-◌, ◌<◌, ◌≤◌, ◌∷◌, [], length, slice_index_or, slice_set, insert, remove};
ghost use Rattle.sorted_map.specs.Chunks.{flat, load, items_before, room_in, AllSome};

use crate::chunks::chunk::{FILLED, HALF, JOINED, MOST};
use crate::chunks::row::Chunks;

/// Puts a pair in at a place of chunk `home`, for which there is room. Takes no memory, and at most one of the room.
#[inline(always)]
pub fn put_new<K: Drop, V: Drop>(chunks: &mut Chunks<K, V>, home: usize, at: usize, pair: (K, V))
    requires some { AllSome chunks.old.lists }
    requires home { 0 < length chunks.old.lists → home < length chunks.old.lists }
    requires within { at ≤ length (slice_index_or chunks.old.lists home []) }
    requires room { 0 < room_in chunks.old }
    ensures items { flat chunks.new.lists ≡ insert (flat chunks.old.lists) (items_before chunks.old.lists home + at) pair }
    ensures some { AllSome chunks.new.lists }
    ensures room { room_in chunks.old ≤ room_in chunks.new + 1 }
{
    if chunks.row().is_empty() {
        put_first(chunks, pair);
        return;
    }
    let row = chunks.row();
    let (len, behind) = (row[home].len(), row.len() - home);
    if FILLED <= len && at == len && behind == 1 {
        put_behind(chunks, home, pair);
        return;
    }
    if len < MOST {
        put_within(chunks, home, at, pair);
        return;
    }
    put_apart(chunks, home, at, pair);
    join(chunks, home + 1);
    if 0 < home {
        join(chunks, home - 1);
    }
}

// Puts the first pair in.
#[inline(never)]
fn put_first<K: Drop, V: Drop>(chunks: &mut Chunks<K, V>, pair: (K, V))
    requires none { length chunks.old.lists ≡ 0 }
    requires room { 0 < room_in chunks.old }
    ensures items { flat chunks.new.lists ≡ pair ∷ [] }
    ensures some { AllSome chunks.new.lists }
    ensures room { room_in chunks.old ≤ room_in chunks.new + 1 }
{
    chunks.open();
    chunks.put_at(0, 0, pair);
}

// Puts a pair behind all others, in a chunk of its own. The last chunk is more than half full, and stays as it is.
#[inline(never)]
fn put_behind<K: Drop, V: Drop>(chunks: &mut Chunks<K, V>, home: usize, pair: (K, V))
    requires some { AllSome chunks.old.lists }
    requires last { home + 1 ≡ length chunks.old.lists }
    requires half { 32 ≤ length (slice_index_or chunks.old.lists home []) }
    requires room { 0 < room_in chunks.old }
    ensures items { flat chunks.new.lists
        ≡ insert (flat chunks.old.lists)
        (items_before chunks.old.lists home + length (slice_index_or chunks.old.lists home [])) pair }
    ensures some { AllSome chunks.new.lists }
    ensures room { room_in chunks.old ≤ room_in chunks.new + 1 }
{
    let next = chunks.row().len();
    chunks.open();
    chunks.put_at(next, 0, pair);
}

// Puts a pair into a chunk that isn't full.
#[inline(always)]
fn put_within<K: Drop, V: Drop>(chunks: &mut Chunks<K, V>, home: usize, at: usize, pair: (K, V))
    requires some { AllSome chunks.old.lists }
    requires home { home < length chunks.old.lists }
    requires within { at ≤ length (slice_index_or chunks.old.lists home []) }
    requires few { length (slice_index_or chunks.old.lists home []) < 64 }
    ensures items { flat chunks.new.lists ≡ insert (flat chunks.old.lists) (items_before chunks.old.lists home + at) pair }
    ensures some { AllSome chunks.new.lists }
    ensures room { room_in chunks.old ≤ room_in chunks.new + 1 }
    ensures load { load chunks.new.lists ≤ load chunks.old.lists + 1 }
    ensures spare { chunks.new.spare ≡ chunks.old.spare }
{
    chunks.put_at(home, at, pair);
}

// Puts a pair into one of the halves of a full chunk.
#[inline(never)]
fn put_apart<K: Drop, V: Drop>(chunks: &mut Chunks<K, V>, home: usize, at: usize, pair: (K, V))
    requires some { AllSome chunks.old.lists }
    requires home { home < length chunks.old.lists }
    requires within { at ≤ 64 }
    requires full { length (slice_index_or chunks.old.lists home []) ≡ 64 }
    requires room { 0 < room_in chunks.old }
    ensures items { flat chunks.new.lists ≡ insert (flat chunks.old.lists) (items_before chunks.old.lists home + at) pair }
    ensures some { AllSome chunks.new.lists }
    ensures room { room_in chunks.old ≤ room_in chunks.new + 1 }
{
    chunks.split(home);
    if at <= HALF {
        put_within(chunks, home, at, pair);
    } else {
        put_within(chunks, home + 1, at - HALF, pair);
    }
}

/// Puts a value at a place of chunk `home`, and returns the one that was there. The key stays, and the room too.
pub fn put_value<K, V>(chunks: &mut Chunks<K, V>, home: usize, at: usize, value: V) -> V
    requires some { AllSome chunks.old.lists }
    requires home { home < length chunks.old.lists }
    requires within { at < length (slice_index_or chunks.old.lists home []) }
    ensures items { (d : K × V) → flat chunks.new.lists
        ≡ slice_set (flat chunks.old.lists) (items_before chunks.old.lists home + at)
        ((slice_index_or (flat chunks.old.lists) (items_before chunks.old.lists home + at) d).0, value) }
    ensures value { (d : K × V)
        → result ≡ (slice_index_or (flat chunks.old.lists) (items_before chunks.old.lists home + at) d).1 }
    ensures some { AllSome chunks.new.lists }
    ensures room { room_in chunks.new ≡ room_in chunks.old }
{
    chunks.replaced(home, at, value)
}

/// Takes the pair at a place of chunk `home` out. No chunk is left empty in the row. Takes no memory, and none of the
/// room.
pub fn take_out<K: Drop, V: Drop>(chunks: &mut Chunks<K, V>, home: usize, at: usize) -> (K, V)
    requires some { AllSome chunks.old.lists }
    requires home { home < length chunks.old.lists }
    requires within { at < length (slice_index_or chunks.old.lists home []) }
    ensures value { (d : K × V) → result ≡ slice_index_or (flat chunks.old.lists) (items_before chunks.old.lists home + at) d }
    ensures items { flat chunks.new.lists ≡ remove (flat chunks.old.lists) (items_before chunks.old.lists home + at) }
    ensures some { AllSome chunks.new.lists }
    ensures room { room_in chunks.old ≤ room_in chunks.new }
{
    let pair = chunks.take_at(home, at);
    tidy(chunks, home);
    pair
}

// Keeps a chunk as room if it is empty, or joins it with a neighbour if they fit into one, with places to spare.
fn tidy<K: Drop, V: Drop>(chunks: &mut Chunks<K, V>, home: usize)
    requires home { home < length chunks.old.lists }
    requires others { AllSome (remove chunks.old.lists home) }
    ensures items { flat chunks.new.lists ≡ flat chunks.old.lists }
    ensures some { AllSome chunks.new.lists }
    ensures room { room_in chunks.old ≤ room_in chunks.new }
{
    if chunks.row()[home].len() == 0 {
        chunks.set_aside(home);
        return;
    }
    join(chunks, home);
    if 0 < home {
        join(chunks, home - 1);
    }
}

// Joins a chunk with the next if they fit into one, with places to spare.
#[inline(always)]
fn join<K: Drop, V: Drop>(chunks: &mut Chunks<K, V>, home: usize)
    requires some { AllSome chunks.old.lists }
    ensures items { flat chunks.new.lists ≡ flat chunks.old.lists }
    ensures some { AllSome chunks.new.lists }
    ensures room { room_in chunks.old ≤ room_in chunks.new }
{
    let row = chunks.row();
    if home < row.len().saturating_sub(1) && row[home].len() + row[home + 1].len() <= JOINED {
        chunks.move_down(home);
    }
}
