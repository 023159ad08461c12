//! The names that a fragment shows, in order.
ghost use Rattle.std.specs.Prelude.{◌≡◌, ◌∷◌, [], ◌<◌, ◌+◌, length, nat_lt, take, IfOk, IfSome, IsSome, List, MatchOption, option_copied, ℕ};
ghost use Rattle.std.specs.FinMap as map;
ghost use Rattle.objstore.specs.Omap.{key_cmp};
ghost use Rattle.sorted_map.specs.SortedMap.{contents};
ghost use Rattle.cached_frag.specs.Marks.{patched};
ghost use Rattle.cached_frag.specs.Cached.{shown_names};
ghost use Rattle.cached_frag.specs.Rows.{NamedInode, Change, head_of, rows_after, rows_left, with_change};

use crate::fragments::{CachedFrag, Store};
use crate::marks::Mark;
use mds_types::{Inode, Listing, Name, PageSize};
use sorted_map::{Iter, SortedMap};
use std::alloc::{AllocError, Global};
use std::marker::Model;

// Pairs that are left in order, the next of which can be looked at.
#[derive(Drop)]
struct Peeked<'a, V> {
    next: Option<&'a (Name, V)>,
    rest: Iter<'a, Name, V>,
}

impl<'a, V> Model for Peeked<'a, V> {
    ghost use Rattle.std.specs.Prelude.{List, ℕ, option_copied};
    ghost use Rattle.cached_frag.specs.Rows.{with_first};

    ghost Value = { List (List ℕ × V) };

    ghost view = { λ p. with_first (option_copied p.next) p.rest };
}

impl<'a, V> Peeked<'a, V> {
    // These pairs.
    fn new(mut rest: Iter<'a, Name, V>) -> Peeked<'a, V>
        ensures { result ≡ rest.entry }
    {
        let next = rest.next();
        Peeked { next, rest }
    }

    // The next pair.
    fn peek(&self) -> Option<&'a (Name, V)>
        ensures { option_copied result ≡ head_of self.now }
    {
        self.next
    }

    // Goes on behind the next pair.
    fn advance(&mut self)
        ensures { (pair : List ℕ × V) (rest : List (List ℕ × V)) → self.old ≡ pair ∷ rest → self.new ≡ rest }
    {
        self.next = self.rest.next();
    }
}

/// The names that a fragment shows and that a listing has not come to, in order.
#[derive(Drop)]
pub struct Rows<'a> {
    clean: Peeked<'a, Inode>,
    dirty: Peeked<'a, Mark>,
}

impl<'a> Model for Rows<'a> {
    ghost use Rattle.cached_frag.specs.Rows.{Left};

    ghost Value = { Left };

    ghost view = { λ r. record { clean = r.clean; dirty = r.dirty } };
}

impl<'a> Rows<'a> {
    // No names.
    fn none() -> Rows<'a>
        ensures { rows_left result ≡ [] }
    {
        Rows {
            clean: Peeked::new(Iter::of_pairs(&[])),
            dirty: Peeked::new(Iter::of_pairs(&[])),
        }
    }

    /// Takes the next name, with its inode.
    pub fn next_row(&mut self) -> Option<(&'a Name, &'a Inode)>
        ensures { MatchOption result (rows_left self.old ≡ [])
            (λ row. rows_left self.old ≡ (row.0.now, row.1.now) ∷ rows_left self.new) }
    {
        while let Some((name, inode)) = self.take_least() {
            if let Some(inode) = inode {
                return Some((name, inode));
            }
        }
        None
    }

    // Takes the least name that is left; a dirty one may have been removed.
    fn take_least(&mut self) -> Option<(&'a Name, Option<&'a Inode>)>
        ensures rows { MatchOption result (rows_left self.old ≡ [])
            (λ row. rows_left self.old ≡ with_change row.0.now (option_copied row.1) (rows_left self.new)) }
        ensures fewer { IfSome result
            (λ row. length self.new.clean + length self.new.dirty < length self.old.clean + length self.old.dirty) }
    {
        match (self.clean.peek(), self.dirty.peek()) {
            (None, None) => None,
            (Some(row), None) => {
                self.clean.advance();
                Some((&row.0, Some(&row.1)))
            }
            (None, Some(change)) => {
                self.dirty.advance();
                Some((&change.0, change.1.inode.as_ref()))
            }
            (Some(row), Some(change)) => self.take_from(row, change),
        }
    }

    // Takes the lesser of the next names of both; where they are one, what became of it.
    fn take_from(
        &mut self,
        row: &'a (Name, Inode),
        change: &'a (Name, Mark),
    ) -> Option<(&'a Name, Option<&'a Inode>)>
        requires clean { (rows : List NamedInode) × (self.old.clean ≡ row.now ∷ rows) }
        requires dirty { (changes : List Change) × (self.old.dirty ≡ change.now ∷ changes) }
        ensures rows { IfSome result
            (λ row. rows_left self.old ≡ with_change row.0.now (option_copied row.1) (rows_left self.new)) }
        ensures some { IsSome result }
        ensures fewer { length self.new.clean + length self.new.dirty < length self.old.clean + length self.old.dirty }
    {
        let order = row.0.cmp(&change.0);
        if order.is_lt() {
            self.clean.advance();
            return Some((&row.0, Some(&row.1)));
        }
        if order.is_eq() {
            self.clean.advance();
        }
        self.dirty.advance();
        Some((&change.0, change.1.inode.as_ref()))
    }
}

impl CachedFrag {
    /// The names that it shows and that are greater than one; all, if none is given.
    pub fn rows_after(&self, after: Option<&Name>) -> Rows<'_>
        ensures { rows_left result ≡ rows_after (option_copied after.entry) (map.entries (shown_names self.now)) }
    {
        match &self.store {
            Store::Fresh { .. } => Rows::none(),
            Store::Stored { .. } => Rows::none(),
            Store::Named(named) => named.rows_after(after),
        }
    }

    /// The first `max` names that it shows and that are greater than one, copied with their inodes, and whether more
    /// follow. Takes memory for the copies.
    pub fn list_after(
        &self,
        alloc: Global,
        after: Option<&Name>,
        max: PageSize,
    ) -> Result<(Listing, bool), AllocError>
        ensures listed { IfOk result
            (λ page. page.0 ≡ take max (rows_after (option_copied after.entry) (map.entries (shown_names self.now)))) }
        ensures more { IfOk result
            (λ page. page.1 ≡ nat_lt max (length (rows_after (option_copied after.entry)
            (map.entries (shown_names self.now))))) }
    {
        first_rows(alloc, self.rows_after(after), max)
    }
}

// What the fragment of these names shows after one.
pub(crate) fn rows_of<'a>(
    clean: &'a SortedMap<Name, Inode>,
    dirty: &'a SortedMap<Name, Mark>,
    after: Option<&Name>,
) -> Rows<'a>
    ensures { rows_left result ≡ rows_after (option_copied after.entry)
        (map.entries (patched (contents key_cmp clean.entry.now) (contents key_cmp dirty.entry.now))) }
{
    match after {
        Some(name) => Rows {
            clean: Peeked::new(clean.iter_after(name)),
            dirty: Peeked::new(dirty.iter_after(name)),
        },
        None => Rows {
            clean: Peeked::new(clean.iter()),
            dirty: Peeked::new(dirty.iter()),
        },
    }
}

// The first `max` rows that are left, copied, and whether more follow.
fn first_rows(
    alloc: Global,
    mut rows: Rows<'_>,
    max: PageSize,
) -> Result<(Listing, bool), AllocError>
    ensures listed { IfOk result (λ page. page.0 ≡ take max (rows_left rows.entry)) }
    ensures more { IfOk result (λ page. page.1 ≡ nat_lt max (length (rows_left rows.entry))) }
{
    let most = usize::from(max.entries());
    let mut list: Vec<(Name, Inode)> = Vec::new(alloc);
    while let Some((name, inode)) = rows.next_row() {
        if list.len() == most {
            return Ok((Listing::from_vec(list), true));
        }
        list.push(copy_of(name, inode)?)?;
    }
    Ok((Listing::from_vec(list), false))
}

// A name and its inode, copied.
fn copy_of(name: &Name, inode: &Inode) -> Result<(Name, Inode), AllocError>
    ensures { IfOk result (λ copy. copy ≡ (name.now, inode.now)) }
{
    let name = name.try_clone()?;
    match inode.try_clone() {
        Ok(inode) => Ok((name, inode)),
        Err(refused) => {
            drop(name);
            Err(refused)
        }
    }
}
