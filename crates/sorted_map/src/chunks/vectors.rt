//! Edits of vectors that take no memory.
ghost use Rattle.std.specs.Prelude.{◌≡◌, ◌+◌, ◌<◌, ◌≤◌, ◌++◌, [], drop, reverse, slice_set, slice_index_or, insert, vec_len, vec_capacity};

use std::mem;

/// Puts an item in at a place, where there is room.
#[inline(always)]
pub fn put_at<T: Drop>(items: &mut Vec<T>, at: usize, item: T)
    requires within { at ≤ vec_len items.old }
    requires room { vec_len items.old < vec_capacity items.old }
    ensures items { items.new.items ≡ insert items.old.items at item }
    ensures len { vec_len items.new ≡ vec_len items.old + 1 }
    ensures capacity { vec_capacity items.new ≡ vec_capacity items.old }
{
    // what comes in order goes to the end, where nothing has to move
    if at == items.len() {
        items.push_reserved(item);
        return;
    }
    put_between(items, at, item);
}

// Puts an item in before the one at a place.
#[inline(never)]
fn put_between<T: Drop>(items: &mut Vec<T>, at: usize, item: T)
    requires within { at ≤ vec_len items.old }
    requires room { vec_len items.old < vec_capacity items.old }
    ensures items { items.new.items ≡ insert items.old.items at item }
    ensures len { vec_len items.new ≡ vec_len items.old + 1 }
    ensures capacity { vec_capacity items.new ≡ vec_capacity items.old }
{
    let _ = items.insert(at, item);
}

/// Puts a value at a place, and returns the one that was there.
pub fn replaced<K, V>(pairs: &mut Vec<(K, V)>, at: usize, value: V) -> V
    requires { at < vec_len pairs.old }
    ensures items { (d : K × V) → pairs.new.items
        ≡ slice_set pairs.old.items at ((slice_index_or pairs.old.items at d).0, value) }
    ensures value { (d : K × V) → result ≡ (slice_index_or pairs.old.items at d).1 }
    ensures len { vec_len pairs.new ≡ vec_len pairs.old }
    ensures capacity { vec_capacity pairs.new ≡ vec_capacity pairs.old }
{
    let pair = &mut pairs[at];
    mem::replace(&mut pair.1, value)
}

/// Drops so many items from the front: mostly it is one.
pub fn drop_front<T: Drop>(items: &mut Vec<T>, count: usize)
    requires { count ≤ vec_len items.old }
    ensures items { items.new.items ≡ drop count items.old.items }
    ensures len { vec_len items.new + count ≡ vec_len items.old }
    ensures capacity { vec_capacity items.new ≡ vec_capacity items.old }
{
    if count == 1 {
        drop(items.remove(0));
        return;
    }
    drop(items.drain(..count));
}

/// Moves so many items from the end of a vector to an empty one, the last first.
pub(crate) fn move_back<T: Drop>(from: &mut Vec<T>, to: &mut Vec<T>, count: usize)
    requires within { count ≤ vec_len from.old }
    requires empty { to.old.items ≡ [] }
    requires room { count ≤ vec_capacity to.old }
    ensures whole { from.new.items ++ reverse to.new.items ≡ from.old.items }
    ensures len { vec_len from.new + count ≡ vec_len from.old }
    ensures count { vec_len to.new ≡ count }
    ensures capacity { vec_capacity from.new ≡ vec_capacity from.old }
    ensures to_capacity { vec_capacity to.new ≡ vec_capacity to.old }
{
    for _ in 0..count {
        to.push_reserved(from.take_last());
    }
}
