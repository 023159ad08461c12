//! Serving one operation.
ghost use Rattle.std.specs.Prelude.{MatchResult, OnErr, OnOk};
ghost use Rattle.std.specs.List.{Contains};
ghost use Rattle.std.specs.Result.{result_err};
ghost use Rattle.mds_types.specs.Leaf.{Leaf};
ghost use Rattle.mds_types.specs.Step.{step, number_or};
ghost use Rattle.mds_types.specs.Tree.{IsWellFormed};
ghost use Rattle.inode_table.specs.TreeChanges.{KeepLeaves};
ghost use Rattle.namespace_ops.specs.Kept.{ChangesOnly, ReadsOnly, OthersShowTheSame};
ghost use Rattle.namespace_ops.specs.ChangedFragments.{changed_fragments};
ghost use Rattle.namespace_ops.specs.Changes.{IsOffered};
ghost use Rattle.namespace_ops.specs.Checked.{IsChecked};
ghost use Rattle.namespace_ops.specs.Served.{IsServed, IsRefused};

use crate::checking::check;
use crate::frags::Frags;
use crate::locating::locate;
use crate::plans::{Change, Checked};
use mds_types::{Ino, Limit, Op, Rank, Refusal, Reply};
use std::alloc::Global;

/// Serves an operation, where a directory may have `limit` entries: answers the reply of the operation table, and
/// leaves the tree that the table leaves. Of the leaves only the operation's changed fragments, which have to be ones
/// that may be touched, show anything else afterwards: `frame` says so in the fragments' own words, and `others` in
/// those of the tree and the leaves of each directory. Each directory that stands keeps its leaves. A new inode takes
/// the number given, which has to be unused and one that a new inode may have; where the table takes one and none is
/// given, the operation is refused `NoInodes`. Any other refusal is one of the fragments', or want of memory. A refusal
/// keeps all as a read does.
pub fn serve_op<F: Frags>(
    alloc: Global,
    frags: &mut F,
    limit: Limit,
    op: &Op,
    number: Option<Ino>,
) -> Result<Reply, Refusal>
    requires offered { IsOffered (F.content frags.old) F.IsNumber number }
    requires touch { (leaf : Leaf)
        → Contains (changed_fragments limit (F.covers frags.old) (F.content frags.old) op.now) leaf
        → F.MayTouch frags.old leaf }
    ensures served { let outcome = step limit (F.content frags.old) op.now (number_or number) in MatchResult result
        (IsServed (F.content frags.new) outcome number)
        (IsRefused (F.content frags.old) (F.content frags.new)
        (F.MayRefuse frags.old frags.new op.now) outcome number) }
    ensures leaves { KeepLeaves (F.content frags.new) (F.covers frags.old) (F.covers frags.new) }
    ensures frame { ChangesOnly (F.Unchanged frags.old frags.new)
        (changed_fragments limit (F.covers frags.old) (F.content frags.old) op.now) }
    ensures others { IsWellFormed (F.content frags.old) → OthersShowTheSame (F.content frags.old) (F.content frags.new)
        (F.covers frags.old) (F.covers frags.new)
        (changed_fragments limit (F.covers frags.old) (F.content frags.old) op.now) }
    ensures kept { OnErr result
        (ReadsOnly (F.content frags.old) (F.content frags.new) (F.covers frags.old) (F.covers frags.new)
        (F.Follows frags.old frags.new op.now (result_err result))) }
{
    let places = locate(frags, Rank(0), op);
    match check(alloc, frags, limit, op, places, number.unwrap_or(Ino(0)))? {
        Checked::Answers(reply) => Ok(reply),
        Checked::Changes(change) => make_change(frags, limit, op, change, number),
    }
}

// Makes the change that the checks of an operation found, which had the same limit and were offered the same number.
fn make_change<F: Frags>(
    frags: &mut F,
    limit: Limit,
    op: &Op,
    change: Change,
    number: Option<Ino>,
) -> Result<Reply, Refusal>
    requires offered { IsOffered (F.content frags.old) F.IsNumber number }
    requires checked { IsChecked (F.content frags.old) (F.covers frags.old) (F.Holds frags.old) op.now
        (number_or number) (step limit (F.content frags.old) op.now (number_or number)) change }
    requires touch { (leaf : Leaf)
        → Contains (changed_fragments limit (F.covers frags.old) (F.content frags.old) op.now) leaf
        → F.MayTouch frags.old leaf }
    ensures served { let outcome = step limit (F.content frags.old) op.now (number_or number) in MatchResult result
        (IsServed (F.content frags.new) outcome number)
        (IsRefused (F.content frags.old) (F.content frags.new)
        (F.MayRefuse frags.old frags.new op.now) outcome number) }
    ensures leaves { OnOk result (KeepLeaves (F.content frags.new) (F.covers frags.old) (F.covers frags.new)) }
    ensures frame { OnOk result
        (ChangesOnly (F.Unchanged frags.old frags.new)
        (changed_fragments limit (F.covers frags.old) (F.content frags.old) op.now)) }
    ensures others { OnOk result (IsWellFormed (F.content frags.old)
        → OthersShowTheSame (F.content frags.old) (F.content frags.new) (F.covers frags.old) (F.covers frags.new)
        (changed_fragments limit (F.covers frags.old) (F.content frags.old) op.now)) }
    ensures kept { OnErr result
        (ReadsOnly (F.content frags.old) (F.content frags.new) (F.covers frags.old) (F.covers frags.new)
        (F.Follows frags.old frags.new op.now (result_err result))) }
{
    if let Err(refusal) = change.number(number) {
        drop(change);
        return Err(refusal);
    }
    let Ok(reply) = change.reply() else {
        drop(change);
        return Err(Refusal::NoMemory);
    };
    if let Err(refusal) = frags.change(op, change) {
        drop(reply);
        return Err(refusal);
    }
    Ok(reply)
}
