//! The children that a fragment will be split into: made with room for their names.
ghost use Rattle.std.specs.Prelude.{◌≡◌, ◌+◌, ◌≤◌, ◌<◌, ◌^◌, length, IfOk, OnErr, OnOk};
ghost use Rattle.mds_types.specs.Frag.{Fragment};
ghost use Rattle.cached_frag.specs.Cached.{shown_names};
ghost use Rattle.dentry_cache.specs.Divided.{AreNumbered, AreReady};
ghost use Rattle.dentry_cache.specs.Parting.{Each, EachThen, Grows, IsBare, is_place};

use crate::dividing::place_of;
use cached_frag::CachedFrag;
use mds_types::Frag;
use std::alloc::{AllocError, Global};
use std::marker::Model;

/// A child that a fragment will be split into.
#[derive(Debug, Drop)]
pub struct Part {
    pub(crate) frag: Frag,
    pub(crate) fragment: CachedFrag,
}

/// The children that a fragment will be split into, by value, each with room for its names.
#[derive(Debug, Drop)]
pub struct Parts {
    pub(crate) items: Vec<Part>,
}

impl Model for Parts {
    ghost use Rattle.std.specs.Prelude.{List};
    ghost use Rattle.std.specs.Coded.{codes};
    ghost use Rattle.std.specs.FinMap as map;
    ghost use Rattle.dentry_cache.specs.declared.parts.Part.{Part as Child};

    ghost Value = { List Child };

    ghost coded = { Prim.hlevel (codes, map.code) };

    ghost view = { λ p. p.items.items };
}

/// The children of a fragment, each with room for those of its names that it contains. Their generations follow one
/// another.
pub(crate) fn parts_of(
    alloc: Global,
    fragment: &CachedFrag,
    frag: Frag,
    nb: u8,
    generation: u64,
) -> Result<Parts, AllocError>
    requires few { nb ≤ 8 }
    requires bits { frag.bits + nb ≤ 24 }
    requires numbers { generation + 2 ^ nb ≤ 2 ^ 64 }
    ensures ready { IfOk result (λ parts. AreReady frag nb (shown_names fragment.now) parts) }
    ensures numbered { IfOk result (λ parts. AreNumbered generation parts) }
{
    let mut items = bare_parts(alloc, frag, nb, generation)?;
    let mut rows = fragment.rows_after(None);
    while let Some((name, _)) = rows.next_row() {
        grow(&mut items, place_of(frag, nb, name))?;
    }
    Ok(Parts { items })
}

// The children of a fragment, with no names.
fn bare_parts(alloc: Global, frag: Frag, nb: u8, generation: u64) -> Result<Vec<Part>, AllocError>
    requires few { nb ≤ 8 }
    requires bits { frag.bits + nb ≤ 24 }
    requires numbers { generation + 2 ^ nb ≤ 2 ^ 64 }
    ensures count { IfOk result (λ parts. length parts.items ≡ 2 ^ nb) }
    ensures each { IfOk result (λ parts. Each (IsBare frag nb generation) parts.items) }
{
    let count = 1_u32 << nb;
    let mut parts = Vec::new(alloc);
    for i in 0..count {
        let Some(child) = frag.child(i, nb) else {
            unreachable!()
        };
        parts.push(Part {
            frag: child,
            fragment: CachedFrag::fresh(alloc, generation + u64::from(i)),
        })?;
    }
    Ok(parts)
}

// Makes room for one name more in a child.
fn grow(parts: &mut Vec<Part>, at: Option<usize>) -> Result<(), AllocError>
    ensures count { length parts.new.items ≡ length parts.old.items }
    ensures each { OnOk result (EachThen (λ i. Grows (is_place at i)) parts.old.items parts.new.items) }
{
    let Some(at) = at else {
        return Ok(());
    };
    if at >= parts.len() {
        return Ok(());
    }
    let room = one_more(parts[at].fragment.room())?;
    parts[at].fragment.reserve(room)
}

// Room for one name more. An error says that the names are more than can be counted.
fn one_more(room: usize) -> Result<usize, AllocError>
    ensures ok { IfOk result (λ more. more ≡ room + 1) }
    ensures err { OnErr result (2 ^ 64 ≤ room + 1) }
{
    room.checked_add(1).ok_or(AllocError)
}
