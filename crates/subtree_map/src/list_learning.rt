//! What a rank is told of other ranks' roots.
ghost use Rattle.std.specs.Prelude.{◌<◌, ◌≤◌, length};
ghost use Rattle.subtree_map.specs.Lists.{AreEach, HasLearnt, rows_at};

use crate::entries::learnt;
use crate::list_rows::{Rows, claim_in};
use mds_types::{Frag, Ino, Rank};

/// The list at a place has a hint on each of these leaves that another one claims. There has to be room for them.
pub(crate) fn learn_all(lists: &mut [Rows], home: usize, leaves: &[(Ino, Frag)])
    requires there { home < length lists.old }
    requires room { length leaves.now ≤ (rows_at lists.old home).room }
    ensures { AreEach (λ i. HasLearnt (length leaves.now)) lists.old lists.new }
{
    for k in 0..leaves.len() {
        let leaf = leaves[k];
        learn_one(lists, home, &leaf);
    }
}

// The list at a place has a hint on a leaf, if another one claims it.
fn learn_one(lists: &mut [Rows], home: usize, leaf: &(Ino, Frag))
    requires there { home < length lists.old }
    requires room { 0 < (rows_at lists.old home).room }
    ensures { AreEach (λ i. HasLearnt 1) lists.old lists.new }
{
    if let Some(of) = claim_in(lists, leaf) {
        let rows = &mut lists[home];
        learn(rows, leaf, of);
    }
}

// A list has a hint on a leaf, if it doesn't claim it.
fn learn(rows: &mut Rows, leaf: &(Ino, Frag), of: Rank)
    requires { 0 < rows.old.room }
    ensures { HasLearnt 1 rows.old rows.new }
{
    let entry = learnt(rows.get(leaf).copied(), of);
    let _ = rows.insert(*leaf, entry);
}
