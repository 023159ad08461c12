//! The fragments that an operation would change, found by its checks alone.
ghost use Rattle.std.specs.Prelude.{◌≡◌, ◌≢◌, ℕ, ◌++◌, map, IfOk, IfErr, OnOk};
ghost use Rattle.std.specs.Result.{result_err};
ghost use Rattle.mds_types.specs.declared.operations.Op.{Op as Operation};
ghost use Rattle.mds_types.specs.declared.refusals.Refusal.TheVariants.{NoInodes, NoMemory};
ghost use Rattle.mds_types.specs.Leaf.{leaf_of};
ghost use Rattle.mds_types.specs.Step.{step};
ghost use Rattle.namespace_ops.specs.Kept.{ReadsOnly};
ghost use Rattle.namespace_ops.specs.Changes.{in_directory, leaf_taken, leaves_gone, named_once, other_put, unless_same};
ghost use Rattle.namespace_ops.specs.ChangedFragments.{IsCovered, NamesOnce, changed_fragments};
ghost use Rattle.namespace_ops.specs.Checked.{Checks};
ghost use Rattle.namespace_ops.specs.Places.{AreLocated};
ghost use Rattle.namespace_ops.specs.Reasons.{Refuses};

use crate::checking::check;
use crate::frags::Frags;
use crate::locating::Places;
use crate::plans::{Change, Checked};
use mds_types::{Dirfrag, Frag, Ino, Limit, Op, Refusal};
use std::alloc::{AllocError, Global};

/// The fragments that an operation whose names lie there would change now, where a directory may have `limit` entries,
/// each once and with its directory: those of its dentries, and all leaves of a directory that it removes or replaces.
/// There are none where the operation answers an errno, only reads, or renames onto itself.
///
/// It reads, and of its own takes memory for its list, for the change that the checks find, and for a copy of the
/// leaves of what goes. It is refused for want of memory, or as a read is.
pub fn changes<F: Frags>(
    alloc: Global,
    frags: &mut F,
    limit: Limit,
    op: &Op,
    places: Places,
) -> Result<Vec<(Ino, Frag)>, Refusal>
    requires { AreLocated (F.content frags.old) (F.covers frags.old) (F.Holds frags.old) op.now places }
    ensures changed { IfOk result
        (λ list. NamesOnce (changed_fragments limit (F.covers frags.old) (F.content frags.old) op.now) list.items) }
    ensures kept { ReadsOnly (F.content frags.old) (F.content frags.new) (F.covers frags.old) (F.covers frags.new)
        (F.Follows frags.old frags.new op.now (result_err result)) }
    ensures err { IfErr result (Refuses (F.MayRefuse frags.old frags.new op.now)) }
    ensures numbers { IfErr result (λ reason. reason ≢ NoInodes) }
{
    // which leaves change doesn't depend on the number of a new inode
    let checked = check(alloc, frags, limit, op, places, Ino(0))?;
    changed_by(alloc, frags, &checked)
}

// The fragments that an operation would change of which this was found, each once and with its directory. Takes memory
// for the list, and for a copy of the leaves of what goes, and is refused for want of it alone.
fn changed_by<F: Frags>(
    alloc: Global,
    frags: &F,
    checked: &Checked,
) -> Result<Vec<(Ino, Frag)>, Refusal>
    ensures changed { IfOk result (λ list. (limit : ℕ) (op : Operation) (n : ℕ)
        → Checks (F.content frags.now) (F.covers frags.now) (F.Holds frags.now) op n
        (step limit (F.content frags.now) op n) checked.now → NamesOnce
        (changed_fragments limit (F.covers frags.now) (F.content frags.now) op) list.items) }
    ensures err { IfErr result (λ reason. reason ≡ NoMemory) }
{
    match checked {
        Checked::Answers(_) => Ok(Vec::new(alloc)),
        Checked::Changes(change) => fragments_of(alloc, frags, change),
    }
}

// The fragments of a change.
fn fragments_of<F: Frags>(
    alloc: Global,
    frags: &F,
    change: &Change,
) -> Result<Vec<(Ino, Frag)>, Refusal>
    ensures listed { IfOk result (λ list. list.items ≡ named_once (F.covers frags.now) change.now) }
    ensures cover { IfOk result (λ list. IsCovered (F.covers frags.now) change.now.gone) }
    ensures err { IfErr result (λ reason. reason ≡ NoMemory) }
{
    let mut list = Vec::new(alloc);
    note_taken(&mut list, change)?;
    note_put(&mut list, change)?;
    note_gone(alloc, frags, &mut list, change.gone)?;
    Ok(list)
}

// Notes the fragment of a name that loses its inode, if one does.
fn note_taken(list: &mut Vec<(Ino, Frag)>, change: &Change) -> Result<(), AllocError>
    ensures { OnOk result (list.new.items ≡ list.old.items ++ leaf_taken change.now.takes) }
{
    if let Some(spot) = &change.takes {
        list.push((spot.at.dir, spot.at.frag))?;
    }
    Ok(())
}

// Notes the fragment of a name that gets an inode, if one does, unless it is that of the one that loses it.
fn note_put(list: &mut Vec<(Ino, Frag)>, change: &Change) -> Result<(), AllocError>
    ensures { OnOk result (list.new.items ≡ list.old.items ++ other_put change.now.takes change.now.puts) }
{
    match (&change.takes, &change.puts) {
        (None, Some((spot, _))) => list.push((spot.at.dir, spot.at.frag))?,
        (Some(first), Some((spot, _))) => note_other(list, &first.at, &spot.at)?,
        (_, None) => {}
    }
    Ok(())
}

// Notes a second fragment, unless it is the first.
fn note_other(
    list: &mut Vec<(Ino, Frag)>,
    first: &Dirfrag,
    other: &Dirfrag,
) -> Result<(), AllocError>
    ensures { OnOk result (list.new.items ≡ list.old.items ++ unless_same (leaf_of first.now) (leaf_of other.now)) }
{
    if first.dir == other.dir && first.frag == other.frag {
        return Ok(());
    }
    list.push((other.dir, other.frag))?;
    Ok(())
}

// Notes all leaves of the directory that goes, if one does.
fn note_gone<F: Frags>(
    alloc: Global,
    frags: &F,
    list: &mut Vec<(Ino, Frag)>,
    gone: Option<Ino>,
) -> Result<(), Refusal>
    ensures items { OnOk result (list.new.items ≡ list.old.items ++ leaves_gone (F.covers frags.now) gone) }
    ensures cover { OnOk result (IsCovered (F.covers frags.now) gone) }
    ensures err { IfErr result (λ reason. reason ≡ NoMemory) }
{
    let Some(dir) = gone else { return Ok(()) };
    let leaves = frags.leaves(alloc, dir)?;
    note_leaves(list, dir, &leaves)?;
    Ok(())
}

// Notes leaves of a directory.
fn note_leaves(list: &mut Vec<(Ino, Frag)>, dir: Ino, leaves: &[Frag]) -> Result<(), AllocError>
    ensures { OnOk result (list.new.items ≡ list.old.items ++ map (in_directory dir.0) leaves.now) }
{
    for leaf in leaves {
        list.push((dir, *leaf))?;
    }
    Ok(())
}
