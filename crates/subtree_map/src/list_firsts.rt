//! The order of what the lists claim.
ghost use Rattle.std.specs.Prelude.{◌≡◌, Bool, Option, T, true};
ghost use Rattle.std.specs.Option.{option_or};
ghost use Rattle.std.specs.FinMap.{find, is_sorted};
ghost use Rattle.mds_types.specs.Leaf.{Leaf, leaf_cmp};
ghost use Rattle.mds_types.specs.declared.ids.Rank.{Rank as RankNumber};
ghost use Rattle.subtree_map.specs.Lists.{claimed, entry_at, first_told, is_leaf_after, said};
ghost use Rattle.subtree_map.specs.Rows.{IsFirstBy, lesser_leaf, lesser_of};

use crate::entries::{Entry, claimed};
use crate::list_rows::Rows;
use mds_types::{Frag, Ino};
use sorted_map::Iter;

/// The first leaf behind a leaf, or of all, that one of the lists claims.
pub(crate) fn first_claim(lists: &[Rows], after: &Option<(Ino, Frag)>) -> Option<(Ino, Frag)>
    ensures { IsFirstBy (first_told claimed lists.now) (is_leaf_after after.now) result }
{
    let mut first = None;
    for i in 0..lists.len() {
        first = lesser(first, first_by(&lists[i], after));
    }
    first
}

// The first leaf behind a leaf, or of all, that a list claims.
fn first_by(rows: &Rows, after: &Option<(Ino, Frag)>) -> Option<(Ino, Frag)>
    ensures { IsFirstBy (λ leaf. said claimed (entry_at rows.now leaf)) (is_leaf_after after.now) result }
{
    let _ = rows.len();
    match after {
        Some(leaf) => first_in(rows.iter_after(leaf)),
        None => first_in(rows.iter()),
    }
}

// The first claim of rows in order.
fn first_in(rows: Iter<'_, (Ino, Frag), Entry>) -> Option<(Ino, Frag)>
    requires { T (is_sorted leaf_cmp rows) }
    ensures { IsFirstBy (λ leaf. said claimed (find leaf_cmp leaf rows.entry)) (λ leaf. true) result }
{
    let mut rows = rows;
    while let Some(row) = rows.next() {
        if claimed(&row.1).is_some() {
            return Some(row.0);
        }
    }
    None
}

// The lesser of two leaves, each the first of some: it is the first of both.
fn lesser(one: Option<(Ino, Frag)>, other: Option<(Ino, Frag)>) -> Option<(Ino, Frag)>
    ensures { (f g : Leaf → Option RankNumber) (passes : Leaf → Bool) → IsFirstBy f passes one
        → IsFirstBy g passes other → IsFirstBy (λ leaf. option_or (f leaf) (g leaf)) passes result }
{
    match one {
        None => other,
        Some(leaf) => Some(lesser_of(leaf, other)),
    }
}

// The lesser of a leaf and another, if there is one.
fn lesser_of(leaf: (Ino, Frag), other: Option<(Ino, Frag)>) -> (Ino, Frag)
    ensures { result ≡ lesser_of leaf other }
{
    match other {
        None => leaf,
        Some(other) => lesser_leaf(&leaf, &other),
    }
}

fn lesser_leaf(one: &(Ino, Frag), other: &(Ino, Frag)) -> (Ino, Frag)
    ensures { result ≡ lesser_leaf one.now other.now }
{
    if other.cmp(one).is_lt() { *other } else { *one }
}
