//! Changes of all ranks' lists that no news of one leaf makes: room, the rows of a directory, hints.
ghost use Rattle.std.specs.Prelude.{◌≡◌, ◌<◌, false, length, None, Some, OnOk, OnErr, IfSome, MatchOption, IsSome};
ghost use Rattle.sorted_map.specs.SortedMap.{contents, is_from};
ghost use Rattle.mds_types.specs.Leaf.{Leaf, leaf_cmp};
ghost use Rattle.subtree_map.specs.Lists.{AreEach, Corrects, IsCorrected, HasDropped, HasGrown, HasHints, HasSame, claimed, corrected, entry_at, first_told, home_of};
ghost use Rattle.mds_types.specs.declared.ids.Rank.{Rank as RankNumber};
ghost use Rattle.subtree_map.specs.declared.entries.Known.TheVariants.{Hint};
ghost use Rattle.subtree_map.specs.Rows.{IsFirstRow};

use crate::entries::{Entry, Known};
use crate::list_rows::{Rows, home_of};
use mds_types::{Frag, Ino, Rank};
use std::alloc::AllocError;

/// Makes room for so many more rows in each list. Where memory runs out, some of the lists have it.
pub(crate) fn reserve_each(lists: &mut [Rows], additional: usize) -> Result<(), AllocError>
    ensures ok { OnOk result (AreEach (λ i. HasGrown additional) lists.old lists.new) }
    ensures left { OnErr result (AreEach (λ i. HasSame) lists.old lists.new) }
{
    for i in 0..lists.len() {
        let rows = &mut lists[i];
        rows.reserve(additional)?;
    }
    Ok(())
}

/// Takes the rows of a directory out of each list.
pub(crate) fn drop_each(lists: &mut [Rows], dir: Ino)
    ensures { AreEach (λ i. HasDropped dir.0) lists.old lists.new }
{
    for i in 0..lists.len() {
        let rows = &mut lists[i];
        drop_rows(rows, dir);
    }
}

// Takes out the rows of a directory.
fn drop_rows(rows: &mut Rows, dir: Ino)
    ensures { HasDropped dir.0 rows.old rows.new }
{
    while let Some(leaf) = first_row(rows, dir) {
        let _ = rows.remove(&leaf);
    }
}

/// Whether one of the lists has a row of a directory: none claims a leaf of it where none has.
pub(crate) fn has_rows(lists: &[Rows], dir: Ino) -> bool
    ensures { result ≡ false → (leaf : Leaf) → leaf.0.0 ≡ dir.0 → first_told claimed lists.now leaf ≡ None }
{
    for rows in lists {
        if first_row(rows, dir).is_some() {
            return true;
        }
    }
    false
}

// The first row of a directory.
#[inline(always)]
fn first_row(rows: &Rows, dir: Ino) -> Option<(Ino, Frag)>
    ensures { MatchOption result ((leaf : Leaf) → leaf.0.0 ≡ dir.0 → entry_at rows.now leaf ≡ None)
        (λ leaf. (leaf.0.0 ≡ dir.0) × IsSome (entry_at rows.now leaf)) }
{
    let leaf = first_from(rows, dir, Frag::ROOT)?;
    if leaf.0 != dir {
        return None;
    }
    Some(leaf)
}

// The first leaf of a list from a leaf on.
#[inline(always)]
fn first_from(rows: &Rows, dir: Ino, frag: Frag) -> Option<(Ino, Frag)>
    ensures { IsFirstRow (contents leaf_cmp rows.now) (is_from leaf_cmp (dir, frag)) result }
{
    Some(rows.iter_from(&(dir, frag)).next()?.0)
}

/// Each hint of each list names this rank.
pub(crate) fn hint_each(lists: &mut [Rows], rank: Rank)
    ensures { AreEach (λ i. HasHints) lists.old lists.new }
{
    for i in 0..lists.len() {
        let rows = &mut lists[i];
        hint_all(rows, rank);
    }
}

/// Where a rank has a hint on a leaf, it names another from then on: a row of that rank's own list.
pub(crate) fn correct(lists: &mut [Rows], rank: Rank, leaf: &(Ino, Frag), of: Rank)
    requires { 0 < length lists.old }
    ensures { AreEach (Corrects leaf.now of (home_of (length lists.old) rank.0)) lists.old lists.new }
{
    let home = home_of(lists.len(), rank);
    let rows = &mut lists[home];
    hint(rows, leaf, of);
}

// Each hint of a list names this rank.
fn hint_all(rows: &mut Rows, rank: Rank)
    ensures { HasHints rows.old rows.new }
{
    let mut next = first_of(rows);
    for _ in 0..rows.len() {
        if let Some(leaf) = next {
            hint(rows, &leaf, rank);
            next = first_after(rows, &leaf);
        }
    }
}

// The first leaf of a list.
fn first_of(rows: &Rows) -> Option<(Ino, Frag)> {
    Some(rows.first()?.0)
}

// The first leaf of a list behind a leaf.
fn first_after(rows: &Rows, leaf: &(Ino, Frag)) -> Option<(Ino, Frag)> {
    Some(rows.iter_after(leaf).next()?.0)
}

// Where a list has a hint on a leaf, it names this rank.
fn hint(rows: &mut Rows, leaf: &(Ino, Frag), rank: Rank)
    ensures { IsCorrected leaf.now rank rows.old rows.new }
{
    if let Some(entry) = hint_in(rows, leaf) {
        let _ = rows.replace(
            leaf,
            Entry {
                known: Known::Hint(rank),
                promised: entry.promised,
            },
        );
    }
}

// The row of a leaf, if it is a hint.
fn hint_in(rows: &Rows, leaf: &(Ino, Frag)) -> Option<Entry>
    ensures { MatchOption result
        ((rank : RankNumber) → corrected (entry_at rows.now leaf.now) rank ≡ entry_at rows.now leaf.now)
        (λ entry. (entry_at rows.now leaf.now ≡ Some entry) × ((rank : RankNumber)
        → corrected (Some entry) rank ≡ Some (record { known = Hint rank; promised = entry.promised }))) }
{
    let entry = *rows.get(leaf)?;
    match entry.known {
        Known::Hint(_) => Some(entry),
        Known::Nothing => None,
        Known::Claim(_) => None,
    }
}
