//! The checks of a rename.
ghost use Rattle.std.specs.Prelude.{◌≡◌, ◌≢◌, ℕ, true, Option, Some, IfOk, IfErr};
ghost use Rattle.std.specs.Result.{result_err};
ghost use Rattle.mds_types.specs.declared.refusals.Refusal.TheVariants.{NoInodes};
ghost use Rattle.std.specs.FinMap as map;
ghost use Rattle.mds_types.specs.declared.ids.Ino.{Ino as Number};
ghost use Rattle.mds_types.specs.declared.inodes.Inode.{Inode as Node};
ghost use Rattle.std.specs.Option.{option_copied};
ghost use Rattle.std.specs.Ordering.{eq_by_cmp};
ghost use Rattle.mds_types.specs.Tree.{dentry_cmp, is_directory};
ghost use Rattle.mds_types.specs.Step.{renamed};
ghost use Rattle.mds_types.specs.Step.{leads_to as leads_below, replace_errno as errno_of_replacing};
ghost use Rattle.namespace_ops.specs.declared.plans.Spot.{Spot as Place};
ghost use Rattle.namespace_ops.specs.Kept.{ReadsOnly};
ghost use Rattle.namespace_ops.specs.Changes.{IsChangeOf, ReadsDirectory, dentry_at, directory_at, moves as moves_to, stays};
ghost use Rattle.namespace_ops.specs.Checked.{Checks};
ghost use Rattle.namespace_ops.specs.Places.{IsLocatedAt};
ghost use Rattle.namespace_ops.specs.Reasons.{Refuses};

use crate::filling::room_errno;
use crate::frags::Frags;
use crate::locating::Located;
use crate::plans::{Change, Checked, Spot};
use mds_types::{
    Dentry, EINVAL, EISDIR, ENOENT, ENOTDIR, ENOTEMPTY, Ino, Inode, Limit, Op, Refusal, Reply,
};

/// Moves the entry at one dentry to another. What is absent there comes to a directory that may take a further entry.
#[inline(never)]
pub fn rename<F: Frags>(
    frags: &mut F,
    limit: Limit,
    op: &Op,
    from: &Dentry,
    to: &Dentry,
    at: &(Located, Located),
) -> Result<Checked, Refusal>
    requires from { IsLocatedAt (F.content frags.old) (F.covers frags.old) (F.Holds frags.old) from.now at.now.0 }
    requires to { IsLocatedAt (F.content frags.old) (F.covers frags.old) (F.Holds frags.old) to.now at.now.1 }
    requires reads { ReadsDirectory (F.content frags.old) op.now from.now.dir.0 }
    requires leads { ReadsDirectory (F.content frags.old) op.now to.now.dir.0 }
    requires idle { stays op.now ≡ eq_by_cmp dentry_cmp from.now to.now }
    requires moves { (source target : Place) (inode : Node) (gone : Option Number) → dentry_at source ≡ from.now
        → dentry_at target ≡ to.now → IsChangeOf op.now (moves_to source target inode gone) }
    ensures checked { (n : ℕ) → let tree = F.content frags.old in IfOk result
        (Checks tree (F.covers frags.old) (F.Holds frags.old) op.now n
        (renamed limit tree from.now to.now (map.get tree from.now) (map.get tree to.now))) }
    ensures kept { ReadsOnly (F.content frags.old) (F.content frags.new) (F.covers frags.old) (F.covers frags.new)
        (F.Follows frags.old frags.new op.now (result_err result)) }
    ensures err { IfErr result (Refuses (F.MayRefuse frags.old frags.new op.now)) }
    ensures numbers { IfErr result (λ reason. reason ≢ NoInodes) }
{
    let Some(inode) = frags.look(op, from, &at.0.at)? else {
        return Ok(Checked::Answers(Reply::Errno(ENOENT)))
    };
    if from.cmp(to).is_eq() {
        return Ok(Checked::Answers(Reply::Done));
    }
    if leads_to(frags, &inode, to.dir) {
        return Ok(Checked::Answers(Reply::Errno(EINVAL)));
    }
    let replaced = frags.look(op, to, &at.1.at)?;
    if let Some(errno) = replace_errno(frags, &inode, replaced.as_ref()) {
        return Ok(Checked::Answers(Reply::Errno(errno)));
    }
    if let Some(errno) = room_errno(limit, from, to, at.1.entries, replaced.as_ref()) {
        return Ok(Checked::Answers(Reply::Errno(errno)));
    }
    let gone = directory_of(replaced.as_ref());
    let source = Spot::of(from, at.0.at)?;
    let target = Spot::of(to, at.1.at)?;
    Ok(Checked::Changes(Change {
        takes: Some(source),
        puts: Some((target, inode)),
        comes: false,
        gone,
    }))
}

// The number of an inode that is a directory.
fn directory_of(inode: Option<&Inode>) -> Option<Ino>
    ensures { result ≡ directory_at (option_copied inode.entry) }
{
    match inode {
        Some(inode) => {
            if inode.kind.is_dir() {
                Some(inode.ino)
            } else {
                None
            }
        }
        None => None,
    }
}

// Whether the inode is a directory that is `dir` or above it.
fn leads_to<F: Frags>(frags: &F, inode: &Inode, dir: Ino) -> bool
    requires { is_directory (F.content frags.now) dir.0 ≡ true }
    ensures { result ≡ leads_below (F.content frags.now) inode.now dir.0 }
{
    inode.kind.is_dir() && (inode.ino == dir || frags.is_above(inode.ino, dir))
}

// The errno for what stands at the target, if the inode may not replace it.
fn replace_errno<F: Frags>(frags: &F, inode: &Inode, replaced: Option<&Inode>) -> Option<u16>
    ensures { result ≡ errno_of_replacing (F.content frags.now) inode.now (option_copied replaced.entry) }
{
    let Some(replaced) = replaced else {
        return None;
    };
    match (inode.kind.is_dir(), replaced.kind.is_dir()) {
        (true, true) => {
            if frags.is_empty(replaced.ino) {
                None
            } else {
                Some(ENOTEMPTY)
            }
        }
        (true, false) => Some(ENOTDIR),
        (false, true) => Some(EISDIR),
        (false, false) => None,
    }
}
