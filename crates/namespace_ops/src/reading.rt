//! The checks of the operations that only read.
ghost use Rattle.std.specs.Prelude.{◌≡◌, ◌≢◌, ℕ, true, IfOk, IfErr};
ghost use Rattle.std.specs.Result.{result_err};
ghost use Rattle.mds_types.specs.declared.refusals.Refusal.TheVariants.{NoInodes};
ghost use Rattle.mds_types.specs.declared.replies.Reply.TheVariants.{Entry};
ghost use Rattle.std.specs.Option.{option_copied};
ghost use Rattle.std.specs.FinMap as map;
ghost use Rattle.mds_types.specs.Shape.{target_of};
ghost use Rattle.mds_types.specs.Step.{looked, page, names_after};
ghost use Rattle.namespace_ops.specs.Kept.{ReadsOnly};
ghost use Rattle.namespace_ops.specs.Changes.{ReadsDirectory, stays};
ghost use Rattle.namespace_ops.specs.Checked.{Checks};
ghost use Rattle.namespace_ops.specs.Places.{LiesAt};
ghost use Rattle.namespace_ops.specs.Reasons.{Refuses};

use crate::frags::Frags;
use crate::plans::Checked;
use mds_types::{Dentry, Dirfrag, EINVAL, ENOENT, Ino, Kind, Name, Op, PageSize, Refusal, Reply};
use std::alloc::Global;

/// The inode at a dentry.
#[inline(always)]
pub fn lookup<F: Frags>(
    frags: &mut F,
    op: &Op,
    dentry: &Dentry,
    at: &Dirfrag,
) -> Result<Checked, Refusal>
    requires reads { ReadsDirectory (F.content frags.old) op.now dentry.now.dir.0 }
    requires at { LiesAt (F.content frags.old) (F.covers frags.old) (F.Holds frags.old) dentry.now at.now }
    requires idle { stays op.now ≡ true }
    ensures checked { (n : ℕ)
        → IfOk result (Checks (F.content frags.old) (F.covers frags.old) (F.Holds frags.old) op.now n
        (looked (F.content frags.old) Entry (map.get (F.content frags.old) dentry.now))) }
    ensures kept { ReadsOnly (F.content frags.old) (F.content frags.new) (F.covers frags.old) (F.covers frags.new)
        (F.Follows frags.old frags.new op.now (result_err result)) }
    ensures err { IfErr result (Refuses (F.MayRefuse frags.old frags.new op.now)) }
    ensures numbers { IfErr result (λ reason. reason ≢ NoInodes) }
{
    match frags.look(op, dentry, at)? {
        Some(inode) => Ok(Checked::Answers(Reply::Entry(inode))),
        None => Ok(Checked::Answers(Reply::Errno(ENOENT))),
    }
}

/// The first `max` names after a given one.
#[inline(never)]
pub fn read_dir<F: Frags>(
    alloc: Global,
    frags: &mut F,
    op: &Op,
    dir: Ino,
    after: Option<&Name>,
    max: PageSize,
) -> Result<Checked, Refusal>
    requires reads { ReadsDirectory (F.content frags.old) op.now dir.0 }
    requires idle { stays op.now ≡ true }
    ensures checked { (n : ℕ)
        → IfOk result (Checks (F.content frags.old) (F.covers frags.old) (F.Holds frags.old) op.now n
        (page (F.content frags.old) max (names_after (F.content frags.old) dir.0 (option_copied after.entry)))) }
    ensures kept { ReadsOnly (F.content frags.old) (F.content frags.new) (F.covers frags.old) (F.covers frags.new)
        (F.Follows frags.old frags.new op.now (result_err result)) }
    ensures err { IfErr result (Refuses (F.MayRefuse frags.old frags.new op.now)) }
    ensures numbers { IfErr result (λ reason. reason ≢ NoInodes) }
{
    let (list, more) = frags.list_after(alloc, op, dir, after, max)?;
    Ok(Checked::Answers(Reply::Entries { list, more }))
}

/// What the link at a dentry points to.
#[inline(never)]
pub fn read_link<F: Frags>(
    frags: &mut F,
    op: &Op,
    dentry: &Dentry,
    at: &Dirfrag,
) -> Result<Checked, Refusal>
    requires reads { ReadsDirectory (F.content frags.old) op.now dentry.now.dir.0 }
    requires at { LiesAt (F.content frags.old) (F.covers frags.old) (F.Holds frags.old) dentry.now at.now }
    requires idle { stays op.now ≡ true }
    ensures checked { (n : ℕ)
        → IfOk result (Checks (F.content frags.old) (F.covers frags.old) (F.Holds frags.old) op.now n
        (looked (F.content frags.old) (λ inode. target_of inode.kind) (map.get (F.content frags.old) dentry.now))) }
    ensures kept { ReadsOnly (F.content frags.old) (F.content frags.new) (F.covers frags.old) (F.covers frags.new)
        (F.Follows frags.old frags.new op.now (result_err result)) }
    ensures err { IfErr result (Refuses (F.MayRefuse frags.old frags.new op.now)) }
    ensures numbers { IfErr result (λ reason. reason ≢ NoInodes) }
{
    match frags.look(op, dentry, at)? {
        Some(inode) => Ok(Checked::Answers(reply_of_link(inode.kind))),
        None => Ok(Checked::Answers(Reply::Errno(ENOENT))),
    }
}

// A link's target; an errno for what is no link.
fn reply_of_link(kind: Kind) -> Reply
    ensures { result ≡ target_of kind }
{
    match kind {
        Kind::Symlink(target) => Reply::Target(target),
        Kind::File | Kind::Dir => Reply::Errno(EINVAL),
    }
}
