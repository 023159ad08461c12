//! The checks of the operations that make an inode.
ghost use Rattle.std.specs.Prelude.{◌≡◌, ◌≢◌, IfOk, IfErr};
ghost use Rattle.std.specs.Result.{result_err};
ghost use Rattle.mds_types.specs.declared.refusals.Refusal.TheVariants.{NoInodes};
ghost use Rattle.mds_types.specs.declared.inodes.Inode.{Inode as Node};
ghost use Rattle.mds_types.specs.declared.inodes.Kind.TheVariants.{File, Dir, Symlink as Link};
ghost use Rattle.std.specs.FinMap as map;
ghost use Rattle.mds_types.specs.Shape.{link_mode};
ghost use Rattle.mds_types.specs.Step.{made, new_inode, new_size};
ghost use Rattle.namespace_ops.specs.declared.plans.Spot.{Spot as Place};
ghost use Rattle.namespace_ops.specs.Kept.{ReadsOnly};
ghost use Rattle.namespace_ops.specs.Changes.{IsChangeOf, ReadsDirectory, adds, dentry_at};
ghost use Rattle.namespace_ops.specs.Checked.{Checks};
ghost use Rattle.namespace_ops.specs.Places.{IsLocatedAt};
ghost use Rattle.namespace_ops.specs.Reasons.{Refuses};

use crate::filling::is_full;
use crate::frags::Frags;
use crate::locating::Located;
use crate::plans::{Change, Checked, Spot};
use mds_types::{
    Birth, Dentry, EEXIST, ENOSPC, Ino, Inode, Kind, Limit, Mode, Op, Refusal, Reply, Target,
};

/// What a new inode is, beside its size.
#[derive(Drop)]
pub struct New {
    ino: Ino,
    kind: Kind,
    mode: Mode,
    birth: Birth,
}

impl New {
    pub fn file(ino: Ino, mode: Mode, birth: Birth) -> New
        ensures { result ≡ record { ino = ino; kind = File; mode = mode; birth = birth } }
    {
        New {
            ino,
            kind: Kind::File,
            mode,
            birth,
        }
    }

    pub fn directory(ino: Ino, mode: Mode, birth: Birth) -> New
        ensures { result ≡ record { ino = ino; kind = Dir; mode = mode; birth = birth } }
    {
        New {
            ino,
            kind: Kind::Dir,
            mode,
            birth,
        }
    }

    pub fn link(ino: Ino, target: Target, birth: Birth) -> New
        ensures { result ≡ record { ino = ino; kind = Link target; mode = link_mode; birth = birth } }
    {
        New {
            ino,
            kind: Kind::Symlink(target),
            mode: Mode::LINK,
            birth,
        }
    }
}

/// A new inode at a dentry that has to be free, in a directory that may take a further entry.
#[inline(never)]
pub fn make<F: Frags>(
    frags: &mut F,
    limit: Limit,
    op: &Op,
    dentry: &Dentry,
    at: &Located,
    new: New,
) -> Result<Checked, Refusal>
    requires reads { ReadsDirectory (F.content frags.old) op.now dentry.now.dir.0 }
    requires at { IsLocatedAt (F.content frags.old) (F.covers frags.old) (F.Holds frags.old) dentry.now at.now }
    requires makes { (spot : Place) (inode : Node) → dentry_at spot ≡ dentry.now → inode.kind ≡ new.kind
        → IsChangeOf op.now (adds spot inode) }
    ensures checked { let inode = new_inode new.ino.0 new.kind new.mode new.birth in IfOk result
        (Checks (F.content frags.old) (F.covers frags.old) (F.Holds frags.old) op.now new.ino.0
        (made limit (F.content frags.old) dentry.now inode (map.get (F.content frags.old) dentry.now))) }
    ensures kept { ReadsOnly (F.content frags.old) (F.content frags.new) (F.covers frags.old) (F.covers frags.new)
        (F.Follows frags.old frags.new op.now (result_err result)) }
    ensures err { IfErr result (Refuses (F.MayRefuse frags.old frags.new op.now)) }
    ensures numbers { IfErr result (λ reason. reason ≢ NoInodes) }
{
    if frags.look(op, dentry, &at.at)?.is_some() {
        return Ok(Checked::Answers(Reply::Errno(EEXIST)));
    }
    if is_full(limit, at.entries) {
        return Ok(Checked::Answers(Reply::Errno(ENOSPC)));
    }
    let spot = Spot::of(dentry, at.at)?;
    let inode = new.inode();
    Ok(Checked::Changes(Change {
        takes: None,
        puts: Some((spot, inode)),
        comes: true,
        gone: None,
    }))
}

impl New {
    // The new inode. A link has the size of its target.
    fn inode(self) -> Inode
        ensures { result ≡ new_inode self.ino.0 self.kind self.mode self.birth }
    {
        Inode {
            ino: self.ino,
            size: first_size(&self.kind),
            kind: self.kind,
            mode: self.mode,
            mtime: self.birth.mtime,
            uid: self.birth.uid,
            gid: self.birth.gid,
            pin: None,
        }
    }
}

// The size that a new inode has.
fn first_size(kind: &Kind) -> u64
    ensures { result ≡ new_size kind.now }
{
    match kind {
        Kind::Symlink(target) => target.as_bytes().len() as u64,
        Kind::File | Kind::Dir => 0,
    }
}
