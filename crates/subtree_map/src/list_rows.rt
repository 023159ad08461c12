//! The rows of one rank's list, and of the lists of all ranks.
ghost use Rattle.std.specs.Prelude.{◌≡◌, ◌<◌, true, length};
ghost use Rattle.subtree_map.specs.Lists.{AreEach, HaveRoom, Hears, IsPut, claimed, entry_at, first_told, heard, home_of, adds_row, promised, said};

use crate::entries::{Entry, News, claimed, heard};
use mds_types::{Frag, Ino, Rank};
use sorted_map::SortedMap;

/// A rank's list.
pub(crate) type Rows = SortedMap<(Ino, Frag), Entry>;

/// The rank that claims a leaf: the lists are asked from the first on.
pub(crate) fn claim_in(lists: &[Rows], leaf: &(Ino, Frag)) -> Option<Rank>
    ensures { result ≡ first_told claimed lists.now leaf.now }
{
    for rows in lists {
        if let Some(rank) = claim_by(rows, leaf) {
            return Some(rank);
        }
    }
    None
}

/// The rank that a leaf is promised to.
pub(crate) fn promise_in(lists: &[Rows], leaf: &(Ino, Frag)) -> Option<Rank>
    ensures { result ≡ first_told promised lists.now leaf.now }
{
    for rows in lists {
        if let Some(rank) = promise_by(rows, leaf) {
            return Some(rank);
        }
    }
    None
}

/// The rank that a list claims a leaf for.
pub(crate) fn claim_by(rows: &Rows, leaf: &(Ino, Frag)) -> Option<Rank>
    ensures { result ≡ said claimed (entry_at rows.now leaf.now) }
{
    match rows.get(leaf) {
        Some(entry) => claimed(entry),
        None => None,
    }
}

// The rank that a list holds a promise for.
fn promise_by(rows: &Rows, leaf: &(Ino, Frag)) -> Option<Rank>
    ensures { result ≡ said promised (entry_at rows.now leaf.now) }
{
    match rows.get(leaf) {
        Some(entry) => entry.promised,
        None => None,
    }
}

/// Tells all lists the news of a leaf. It names the rank whose list has this place. Takes no memory.
pub(crate) fn tell(lists: &mut [Rows], leaf: (Ino, Frag), home: usize, news: News)
    requires { HaveRoom leaf home news lists.old }
    ensures { AreEach (Hears leaf home news) lists.old lists.new }
{
    for i in 0..lists.len() {
        let rows = &mut lists[i];
        let row = heard(rows.get(&leaf).copied(), i == home, news);
        put_row(rows, leaf, row);
    }
}

// Gives a leaf this row, or none. Where one comes in there has to be room.
fn put_row(rows: &mut Rows, leaf: (Ino, Frag), row: Option<Entry>)
    requires { adds_row (entry_at rows.old leaf) row ≡ true → 0 < rows.old.room }
    ensures { IsPut leaf row rows.old rows.new }
{
    match row {
        Some(entry) => {
            let _ = rows.insert(leaf, entry);
        }
        None => {
            let _ = rows.remove(&leaf);
        }
    }
}

/// The place of the list of a rank: its own, or the last one where it has none.
pub(crate) fn home_of(lists: usize, rank: Rank) -> usize
    requires { 0 < lists }
    ensures home { result ≡ home_of lists rank.0 }
    ensures within { result < lists }
{
    let index = usize::from(rank.0);
    if index < lists { index } else { lists - 1 }
}
