//! The checks of the operations that take an entry away.
ghost use Rattle.std.specs.Prelude.{◌≡◌, ◌≢◌, ℕ, None, Some, Option, IfOk, IfErr};
ghost use Rattle.std.specs.Result.{result_err};
ghost use Rattle.mds_types.specs.declared.refusals.Refusal.TheVariants.{NoInodes};
ghost use Rattle.mds_types.specs.declared.ids.Ino.{Ino as Number};
ghost use Rattle.std.specs.FinMap as map;
ghost use Rattle.mds_types.specs.Step.{unlinked, dir_removed};
ghost use Rattle.mds_types.specs.Step.{removal_errno as errno_of_removal};
ghost use Rattle.namespace_ops.specs.declared.plans.Spot.{Spot as Place};
ghost use Rattle.namespace_ops.specs.Kept.{ReadsOnly};
ghost use Rattle.namespace_ops.specs.Changes.{IsChangeOf, ReadsDirectory, dentry_at, removes as takes_away};
ghost use Rattle.namespace_ops.specs.Checked.{Checks};
ghost use Rattle.namespace_ops.specs.Places.{LiesAt};
ghost use Rattle.namespace_ops.specs.Reasons.{Refuses};

use crate::frags::Frags;
use crate::plans::{Change, Checked, Spot};
use mds_types::{Dentry, Dirfrag, EISDIR, ENOENT, ENOTDIR, ENOTEMPTY, Inode, Op, Refusal, Reply};

/// Takes away an entry that has to be no directory.
#[inline(never)]
pub fn unlink<F: Frags>(
    frags: &mut F,
    op: &Op,
    dentry: &Dentry,
    at: &Dirfrag,
) -> Result<Checked, Refusal>
    requires reads { ReadsDirectory (F.content frags.old) op.now dentry.now.dir.0 }
    requires at { LiesAt (F.content frags.old) (F.covers frags.old) (F.Holds frags.old) dentry.now at.now }
    requires removes { (spot : Place) → dentry_at spot ≡ dentry.now → IsChangeOf op.now (takes_away spot None) }
    ensures checked { (n : ℕ)
        → IfOk result (Checks (F.content frags.old) (F.covers frags.old) (F.Holds frags.old) op.now n
        (unlinked (F.content frags.old) dentry.now (map.get (F.content frags.old) dentry.now))) }
    ensures kept { ReadsOnly (F.content frags.old) (F.content frags.new) (F.covers frags.old) (F.covers frags.new)
        (F.Follows frags.old frags.new op.now (result_err result)) }
    ensures err { IfErr result (Refuses (F.MayRefuse frags.old frags.new op.now)) }
    ensures numbers { IfErr result (λ reason. reason ≢ NoInodes) }
{
    let Some(inode) = frags.look(op, dentry, at)? else {
        return Ok(Checked::Answers(Reply::Errno(ENOENT)))
    };
    if inode.kind.is_dir() {
        return Ok(Checked::Answers(Reply::Errno(EISDIR)));
    }
    let spot = Spot::of(dentry, *at)?;
    Ok(Checked::Changes(Change {
        takes: Some(spot),
        puts: None,
        comes: false,
        gone: None,
    }))
}

/// Takes away a directory that has to be empty.
#[inline(never)]
pub fn remove_dir<F: Frags>(
    frags: &mut F,
    op: &Op,
    dentry: &Dentry,
    at: &Dirfrag,
) -> Result<Checked, Refusal>
    requires reads { ReadsDirectory (F.content frags.old) op.now dentry.now.dir.0 }
    requires at { LiesAt (F.content frags.old) (F.covers frags.old) (F.Holds frags.old) dentry.now at.now }
    requires removes { (spot : Place) (gone : Option Number) → dentry_at spot ≡ dentry.now
        → IsChangeOf op.now (takes_away spot gone) }
    ensures checked { (n : ℕ)
        → IfOk result (Checks (F.content frags.old) (F.covers frags.old) (F.Holds frags.old) op.now n
        (dir_removed (F.content frags.old) dentry.now (map.get (F.content frags.old) dentry.now))) }
    ensures kept { ReadsOnly (F.content frags.old) (F.content frags.new) (F.covers frags.old) (F.covers frags.new)
        (F.Follows frags.old frags.new op.now (result_err result)) }
    ensures err { IfErr result (Refuses (F.MayRefuse frags.old frags.new op.now)) }
    ensures numbers { IfErr result (λ reason. reason ≢ NoInodes) }
{
    let Some(inode) = frags.look(op, dentry, at)? else {
        return Ok(Checked::Answers(Reply::Errno(ENOENT)))
    };
    if let Some(errno) = removal_errno(frags, &inode) {
        return Ok(Checked::Answers(Reply::Errno(errno)));
    }
    let spot = Spot::of(dentry, *at)?;
    Ok(Checked::Changes(Change {
        takes: Some(spot),
        puts: None,
        comes: false,
        gone: Some(inode.ino),
    }))
}

// The errno for an inode that is no directory, or a full one.
fn removal_errno<F: Frags>(frags: &F, inode: &Inode) -> Option<u16>
    ensures { result ≡ errno_of_removal (F.content frags.now) inode.now }
{
    if !inode.kind.is_dir() {
        return Some(ENOTDIR);
    }
    if frags.is_empty(inode.ino) {
        None
    } else {
        Some(ENOTEMPTY)
    }
}
