//! The checks of one operation, in their order. They read alone.
ghost use Rattle.std.specs.Prelude.{◌≡◌, ◌≢◌, ℕ, IfOk, IfErr};
ghost use Rattle.std.specs.Result.{result_err};
ghost use Rattle.mds_types.specs.declared.refusals.Refusal.TheVariants.{NoInodes};
ghost use Rattle.mds_types.specs.Step.{step};
ghost use Rattle.namespace_ops.specs.Kept.{ReadsOnly};
ghost use Rattle.namespace_ops.specs.Checked.{Checks};
ghost use Rattle.namespace_ops.specs.Places.{AreLocated};
ghost use Rattle.namespace_ops.specs.Reasons.{Refuses};

use crate::altering::alter;
use crate::frags::Frags;
use crate::locating::Places;
use crate::making::{New, make};
use crate::plans::Checked;
use crate::reading::{lookup, read_dir, read_link};
use crate::removing::{remove_dir, unlink};
use crate::renaming::rename;
use mds_types::{Alteration, ESTALE, Ino, Limit, Op, Refusal, Reply};
use std::alloc::Global;

/// Checks an operation whose names lie there, where a directory may have `limit` entries: finds the reply, or the one
/// change that it makes. A new inode takes the number given. It reads alone, and is refused as a read is, or for want
/// of memory. What checks a change is a function of its own, so that a look-up has no room to clear that only changes
/// need; the rest is put into the callers, and what was found isn't moved.
#[inline(always)]
pub fn check<F: Frags>(
    alloc: Global,
    frags: &mut F,
    limit: Limit,
    op: &Op,
    places: Places,
    number: Ino,
) -> Result<Checked, Refusal>
    requires { AreLocated (F.content frags.old) (F.covers frags.old) (F.Holds frags.old) op.now places }
    ensures checked { IfOk result
        (Checks (F.content frags.old) (F.covers frags.old) (F.Holds frags.old) op.now number.0
        (step limit (F.content frags.old) op.now number.0)) }
    ensures kept { ReadsOnly (F.content frags.old) (F.content frags.new) (F.covers frags.old) (F.covers frags.new)
        (F.Follows frags.old frags.new op.now (result_err result)) }
    ensures err { IfErr result (Refuses (F.MayRefuse frags.old frags.new op.now)) }
    ensures numbers { IfErr result (λ reason. reason ≢ NoInodes) }
{
    let Places { main, source } = places;
    let Some(at) = main else {
        return Ok(Checked::Answers(Reply::Errno(ESTALE)));
    };
    match op {
        Op::Lookup(dentry) => lookup(frags, op, dentry, &at.at),
        Op::Readdir { dir, after, max } => read_dir(alloc, frags, op, *dir, after.as_ref(), *max),
        Op::Readlink(dentry) => read_link(frags, op, dentry, &at.at),
        Op::Create {
            dentry,
            mode,
            birth,
        } => {
            let new = New::file(number, *mode, *birth);
            make(frags, limit, op, dentry, &at, new)
        }
        Op::Mkdir {
            dentry,
            mode,
            birth,
        } => {
            let new = New::directory(number, *mode, *birth);
            make(frags, limit, op, dentry, &at, new)
        }
        Op::Symlink {
            dentry,
            target,
            birth,
        } => {
            let new = New::link(number, target.try_clone()?, *birth);
            make(frags, limit, op, dentry, &at, new)
        }
        Op::Setattr { dentry, attributes } => {
            let alteration = Alteration::Attributed(attributes.get());
            alter(frags, op, dentry, &at.at, &alteration)
        }
        Op::SetPin { dentry, pin } => {
            let alteration = Alteration::Pinned(*pin);
            alter(frags, op, dentry, &at.at, &alteration)
        }
        Op::Unlink(dentry) => unlink(frags, op, dentry, &at.at),
        Op::Rmdir(dentry) => remove_dir(frags, op, dentry, &at.at),
        Op::Rename { from, to } => match source {
            Some(source) => rename(frags, limit, op, from, to, &(source, at)),
            None => Ok(Checked::Answers(Reply::Errno(ESTALE))),
        },
    }
}
