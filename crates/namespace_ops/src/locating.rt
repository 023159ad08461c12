//! Where the names of an operation lie.
ghost use Rattle.std.specs.Prelude.{◌≡◌};
ghost use Rattle.mds_types.specs.Shape.{source_of};
ghost use Rattle.namespace_ops.specs.Places.{AreLocated, LocatesAt, main_hash};

use crate::frags::Frags;
use mds_types::{Dirfrag, Op, Rank};
use namehash::rjenkins;

/// Where a dentry lies, and how many entries its directory has.
#[derive(Clone, Copy, Debug)]
pub struct Located {
    pub at: Dirfrag,
    pub entries: u64,
}

/// Where the names of an operation lie: its own, of a rename the destination, of a readdir the first leaf of its
/// directory; and of a rename the source. Nowhere where the directory isn't there.
#[derive(Clone, Copy, Debug)]
pub struct Places {
    pub main: Option<Located>,
    pub source: Option<Located>,
}

/// Finds where the names of an operation lie. `rank` is asked first whether it holds a leaf. Takes no memory.
pub fn locate<F: Frags>(frags: &F, rank: Rank, op: &Op) -> Places
    ensures { AreLocated (F.content frags.now) (F.covers frags.now) (F.Holds frags.now) op.now result }
{
    Places {
        main: frags.locate(rank, op.destination(), main_hash(op)),
        source: locate_source(frags, rank, op),
    }
}

// Where the source of a rename lies.
fn locate_source<F: Frags>(frags: &F, rank: Rank, op: &Op) -> Option<Located>
    ensures { LocatesAt (F.content frags.now) (F.covers frags.now) (F.Holds frags.now) (source_of op.now) result }
{
    let from = op.source()?;
    frags.locate(rank, from.dir, rjenkins(from.name.as_bytes()))
}

// A hash that falls in the main leaf of an operation: that of its dentry's name, and the first one of a readdir's
// directory.
fn main_hash(op: &Op) -> u32
    ensures { result ≡ main_hash op.now }
{
    match op.main_dentry() {
        Some(dentry) => rjenkins(dentry.name.as_bytes()),
        None => 0,
    }
}
