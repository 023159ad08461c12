//! The checks of the operations that alter the inode at a dentry.
ghost use Rattle.std.specs.Prelude.{◌≡◌, ◌≢◌, ℕ, IfOk, IfErr};
ghost use Rattle.std.specs.Result.{result_err};
ghost use Rattle.mds_types.specs.declared.refusals.Refusal.TheVariants.{NoInodes};
ghost use Rattle.mds_types.specs.declared.inodes.Inode.{Inode as Node};
ghost use Rattle.std.specs.FinMap as map;
ghost use Rattle.mds_types.specs.Step.{alteration_errno, altered_at, with_attributes};
ghost use Rattle.mds_types.specs.Step.{altered as inode_altered, pin_errno as errno_of_pin, size_errno as errno_of_size};
ghost use Rattle.namespace_ops.specs.declared.plans.Spot.{Spot as Place};
ghost use Rattle.namespace_ops.specs.Kept.{ReadsOnly};
ghost use Rattle.namespace_ops.specs.Changes.{IsChangeOf, ReadsDirectory, dentry_at, sets as sets_to};
ghost use Rattle.namespace_ops.specs.Checked.{Checks};
ghost use Rattle.namespace_ops.specs.Places.{LiesAt};
ghost use Rattle.namespace_ops.specs.Reasons.{Refuses};

use crate::frags::Frags;
use crate::plans::{Change, Checked, Spot};
use mds_types::{
    Alteration, Attributes, Dentry, Dirfrag, EINVAL, EISDIR, ENOENT, ENOTDIR, Inode, Kind, Op,
    Rank, Refusal, Reply,
};

// How many ranks there are at most.
const RANKS: u8 = 16;

/// Other attributes, or another pin or none, for the inode at a dentry.
#[inline(never)]
pub fn alter<F: Frags>(
    frags: &mut F,
    op: &Op,
    dentry: &Dentry,
    at: &Dirfrag,
    alteration: &Alteration,
) -> Result<Checked, Refusal>
    requires reads { ReadsDirectory (F.content frags.old) op.now dentry.now.dir.0 }
    requires at { LiesAt (F.content frags.old) (F.covers frags.old) (F.Holds frags.old) dentry.now at.now }
    requires sets { (spot : Place) (inode : Node) → dentry_at spot ≡ dentry.now
        → IsChangeOf op.now (sets_to spot inode) }
    ensures checked { (n : ℕ)
        → IfOk result (Checks (F.content frags.old) (F.covers frags.old) (F.Holds frags.old) op.now n
        (altered_at (F.content frags.old) dentry.now alteration.now (map.get (F.content frags.old) dentry.now))) }
    ensures kept { ReadsOnly (F.content frags.old) (F.content frags.new) (F.covers frags.old) (F.covers frags.new)
        (F.Follows frags.old frags.new op.now (result_err result)) }
    ensures err { IfErr result (Refuses (F.MayRefuse frags.old frags.new op.now)) }
    ensures numbers { IfErr result (λ reason. reason ≢ NoInodes) }
{
    let Some(before) = frags.look(op, dentry, at)? else {
        return Ok(Checked::Answers(Reply::Errno(ENOENT)))
    };
    if let Some(errno) = errno_of(&before.kind, alteration) {
        return Ok(Checked::Answers(Reply::Errno(errno)));
    }
    let spot = Spot::of(dentry, *at)?;
    let inode = altered(before, alteration);
    Ok(Checked::Changes(Change {
        takes: None,
        puts: Some((spot, inode)),
        comes: false,
        gone: None,
    }))
}

// The errno for an alteration that the kind doesn't allow.
fn errno_of(kind: &Kind, alteration: &Alteration) -> Option<u16>
    ensures { result ≡ alteration_errno kind.now alteration.now }
{
    match alteration {
        Alteration::Attributed(given) => size_errno(kind, given.size),
        Alteration::Pinned(pin) => pin_errno(kind, *pin),
    }
}

// The errno for a size that is given to what is no file.
fn size_errno(kind: &Kind, size: Option<u64>) -> Option<u16>
    ensures { result ≡ errno_of_size kind.now size }
{
    if size.is_none() {
        return None;
    }
    match kind {
        Kind::File => None,
        Kind::Dir => Some(EISDIR),
        Kind::Symlink(_) => Some(EINVAL),
    }
}

// The errno for a pin of what is no directory, and for one that is no rank.
fn pin_errno(kind: &Kind, pin: Option<Rank>) -> Option<u16>
    ensures { result ≡ errno_of_pin kind.now pin }
{
    if !kind.is_dir() {
        return Some(ENOTDIR);
    }
    match pin {
        Some(rank) if rank.0 >= RANKS => Some(EINVAL),
        _ => None,
    }
}

// The inode altered so.
fn altered(inode: Inode, alteration: &Alteration) -> Inode
    ensures { result ≡ inode_altered alteration.now inode }
{
    match alteration {
        Alteration::Attributed(given) => with_attributes(inode, given),
        Alteration::Pinned(pin) => Inode { pin: *pin, ..inode },
    }
}

// The inode with these attributes.
fn with_attributes(inode: Inode, given: &Attributes) -> Inode
    ensures { result ≡ with_attributes given.now inode }
{
    Inode {
        ino: inode.ino,
        mode: given.mode.unwrap_or(inode.mode),
        size: given.size.unwrap_or(inode.size),
        mtime: given.mtime.unwrap_or(inode.mtime),
        uid: given.uid.unwrap_or(inode.uid),
        gid: given.gid.unwrap_or(inode.gid),
        pin: inode.pin,
        kind: inode.kind,
    }
}
