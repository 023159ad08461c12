//! The exports of one exporter, with no look at those of others.
ghost use Rattle.std.specs.Prelude.{◌≡◌};
ghost use Rattle.sorted_map.specs.SortedMap.{contents};
ghost use Rattle.export_steps.specs.ByExporter.{IsFirstKey, IsNextOf, IsNextRoot, by_cmp, comes, first_root_of};

use crate::exports::{Exports, StandingExport};
use mds_types::{Frag, Ino, Rank};
use sorted_map::{Iter, SortedMap};

impl Exports {
    /// The first export of an exporter behind a root, or of all of its exports, in the order of roots. Takes no memory,
    /// and looks at none of another exporter.
    pub fn next_of(
        &self,
        exporter: Rank,
        after: Option<(Ino, Frag)>,
    ) -> Option<((Ino, Frag), StandingExport)>
        ensures { IsNextOf self.now exporter after result }
    {
        let Some(root) = next_root(&self.by, exporter, &after) else {
            return None;
        };
        match self.rows.get(&root) {
            Some(export) => Some((root, *export)),
            None => unreachable!(),
        }
    }
}

// The first root of a rank behind another, or of all.
fn next_root(
    by: &SortedMap<(u8, (Ino, Frag)), ()>,
    rank: Rank,
    after: &Option<(Ino, Frag)>,
) -> Option<(Ino, Frag)>
    ensures { IsNextRoot (contents by_cmp by.now) rank.0 after.now result }
{
    let Some(key) = first_key(by, rank, after) else {
        return None;
    };
    if key.0 != rank.0 {
        return None;
    }
    Some(key.1)
}

// The first of the rank's roots behind another, or of all; or one of a later rank.
fn first_key(
    by: &SortedMap<(u8, (Ino, Frag)), ()>,
    rank: Rank,
    after: &Option<(Ino, Frag)>,
) -> Option<(u8, (Ino, Frag))>
    ensures { IsFirstKey (contents by_cmp by.now) (comes rank.0 after.now) result }
{
    match after {
        Some(root) => key_of(by.iter_after(&(rank.0, *root))),
        None => key_of(by.iter_from(&(rank.0, (Ino(0), Frag::ROOT)))),
    }
}

// The key of the first pair.
fn key_of(pairs: Iter<'_, (u8, (Ino, Frag)), ()>) -> Option<(u8, (Ino, Frag))>
    ensures { result ≡ first_root_of pairs.entry }
{
    let mut pairs = pairs;
    match pairs.next() {
        Some(pair) => Some(pair.0),
        None => None,
    }
}
