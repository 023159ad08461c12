//! A page of a directory, gathered from its leaves one after the other.
ghost use Rattle.std.specs.Prelude.{◌≡◌, ◌<◌, ◌≤◌, ◌-◌, false, ℕ, List, [], T, IfOk, OnOk, OnErr, length, nat_lt, take, insert, slice_set, slice_index_or};
ghost use Rattle.std.specs.List.Sorted.{IsSearchInRange};
ghost use Rattle.std.specs.FinMap.{is_sorted};
ghost use Rattle.objstore.specs.Omap.{key_cmp};
ghost use Rattle.sorted_map.specs.Places.{IsPlace, puts};
ghost use Rattle.cached_frag.specs.Rows.{NamedInode, rows_left};
ghost use Rattle.mdcache.specs.Pages.{IsBeyond, IsPageOf, TakesRow};

use cached_frag::Rows;
use mds_types::{Inode, Listing, Name, PageSize};
use std::alloc::{AllocError, Global};
use std::marker::Model;

/// The first names of those that were taken in, in order, at most a page, and whether there were more.
#[derive(Drop)]
pub struct Page {
    rows: Vec<(Name, Inode)>,
    more: bool,
    max: PageSize,
}

impl Model for Page {
    ghost use Rattle.std.specs.Prelude.{T, ◌≤◌, length};
    ghost use Rattle.std.specs.FinMap.{is_sorted};
    ghost use Rattle.objstore.specs.Omap.{key_cmp};
    ghost use Rattle.mdcache.specs.Pages.{Gathered};

    ghost Value = { Gathered };

    ghost view = { λ p. record { rows = p.rows.items; more = p.more; most = p.max } };

    ghost invariant = { λ p. T (is_sorted key_cmp p.rows.items) × (length p.rows.items ≤ p.max) };
}

impl Page {
    /// A page without names. Takes no memory.
    pub fn new(alloc: Global, max: PageSize) -> Page
        ensures page { IsPageOf [] result }
        ensures most { result.most ≡ max }
    {
        Page {
            rows: Vec::new(alloc),
            more: false,
            max,
        }
    }

    /// The names, and whether there were more. Takes no memory.
    pub fn into_listing(self) -> (Listing, bool)
        ensures rows { result.0 ≡ self.rows }
        ensures more { result.1 ≡ self.more }
    {
        (Listing::from_vec(self.rows), self.more)
    }

    /// Takes in names of a leaf, which come in order, up to the first that can't be in the page. Takes memory for those
    /// that are in the page then; where it lacks, some of them may be in, and the page is of no more use.
    pub fn take_rows(&mut self, mut rows: Rows<'_>) -> Result<(), AllocError>
        ensures page { (whole : List NamedInode) → IsPageOf whole self.old → T (is_sorted key_cmp (rows_left rows.entry))
            → OnOk result (IsPageOf (puts key_cmp whole (rows_left rows.entry)) self.new) }
        ensures most { self.new.most ≡ self.old.most }
    {
        while let Some((name, inode)) = rows.next_row() {
            match self.take_row(name, inode) {
                Ok(true) => {}
                Ok(false) => return Ok(()),
                Err(error) => return Err(error),
            }
        }
        Ok(())
    }

    // Takes in a name, and tells whether a greater one may be in the page too.
    fn take_row(&mut self, name: &Name, inode: &Inode) -> Result<bool, AllocError>
        ensures takes { IfOk result (λ _. TakesRow (name.now, inode.now) self.old self.new) }
        ensures beyond { IfOk result (λ fits. fits ≡ false → IsBeyond name.now self.new) }
        ensures most { self.new.most ≡ self.old.most }
    {
        let most = usize::from(self.max.entries());
        match place_of(&self.rows, name) {
            Ok(at) => {
                set_inode(&mut self.rows, at, inode.try_clone()?);
                Ok(true)
            }
            Err(at) => {
                if at == most {
                    self.more = true;
                    return Ok(false);
                }
                let row = (name.try_clone()?, inode.try_clone()?);
                if put_row(&mut self.rows, most, at, row)? {
                    self.more = true;
                }
                Ok(true)
            }
        }
    }
}

// The place of a name among rows in order, or that where it would go.
fn place_of(rows: &[(Name, Inode)], name: &Name) -> Result<usize, usize>
    requires { T (is_sorted key_cmp rows.now) }
    ensures within { IsSearchInRange result (length rows.now) }
    ensures place { IsPlace key_cmp name.now rows.now result }
{
    // the names of a leaf come in their order, so mostly this one is behind the last
    let len = rows.len();
    if len > 0 && name.cmp(&rows[len - 1].0).is_gt() {
        return Err(len);
    }
    rows.binary_search_by(|row| name.cmp(&row.0).reverse())
}

// Gives the name at a place another inode.
fn set_inode(rows: &mut Vec<(Name, Inode)>, at: usize, inode: Inode)
    requires { at < length rows.old.items }
    ensures { (d : NamedInode) → rows.new.items ≡ slice_set rows.old.items at ((slice_index_or rows.old.items at d).0, inode) }
{
    rows[at].1 = inode;
}

// Puts a row in at a place; where there are `most` already, the last one goes. Tells whether one went. Takes memory
// where there are fewer.
fn put_row(
    rows: &mut Vec<(Name, Inode)>,
    most: usize,
    at: usize,
    row: (Name, Inode),
) -> Result<bool, AllocError>
    requires within { at ≤ length rows.old.items }
    requires few { length rows.old.items ≤ most }
    requires fits { at < most }
    ensures rows { IfOk result (λ _. rows.new.items ≡ take most (insert rows.old.items at row)) }
    ensures over { IfOk result (λ over. over ≡ nat_lt most (length (insert rows.old.items at row))) }
    ensures err { OnErr result (rows.new.items ≡ take (most - 1) rows.old.items) }
{
    let full = rows.len() == most;
    rows.truncate(most - 1);
    rows.insert(at, row)?;
    Ok(full)
}
