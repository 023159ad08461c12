//! Attributes in little room.
ghost use Rattle.std.specs.Prelude.{◌≡◌};

use crate::inodes::Attributes;
use crate::modes::Mode;
use std::marker::Model;

/// The attributes that an operation gives, in half the room: a history has many operations, and each takes as much room
/// as the largest. Seen as the attributes.
#[derive(Debug, Drop)]
pub struct PackedAttributes {
    // each counts where it is given; any value stands where it isn't
    size: u64,
    mtime: u64,
    uid: u32,
    gid: u32,
    mode: Mode,
    has_mode: bool,
    has_size: bool,
    has_mtime: bool,
    has_uid: bool,
    has_gid: bool,
}

impl Model for PackedAttributes {
    ghost use Rattle.std.specs.Bool.{then_some};
    ghost use Rattle.mds_types.specs.declared.inodes.Attributes.{Attributes as Given};

    ghost Value = { Given };

    ghost view = { λ p. record {
      mode = then_some p.has_mode p.mode;
      size = then_some p.has_size p.size;
      mtime = then_some p.has_mtime p.mtime;
      uid = then_some p.has_uid p.uid;
      gid = then_some p.has_gid p.gid;
    } };
}

impl PackedAttributes {
    /// These attributes.
    pub fn of(given: &Attributes) -> PackedAttributes
        ensures { result ≡ given.now }
    {
        PackedAttributes {
            size: given.size.unwrap_or(0),
            mtime: given.mtime.unwrap_or(0),
            uid: given.uid.unwrap_or(0),
            gid: given.gid.unwrap_or(0),
            mode: given.mode.unwrap_or(Mode::LINK),
            has_mode: given.mode.is_some(),
            has_size: given.size.is_some(),
            has_mtime: given.mtime.is_some(),
            has_uid: given.uid.is_some(),
            has_gid: given.gid.is_some(),
        }
    }

    /// The attributes.
    pub fn get(&self) -> Attributes
        ensures { result ≡ self.now }
    {
        Attributes {
            mode: self.has_mode.then_some(self.mode),
            size: self.has_size.then_some(self.size),
            mtime: self.has_mtime.then_some(self.mtime),
            uid: self.has_uid.then_some(self.uid),
            gid: self.has_gid.then_some(self.gid),
        }
    }

    /// A copy. Takes no memory.
    pub fn copy(&self) -> PackedAttributes
        ensures { result ≡ self.now }
    {
        PackedAttributes {
            size: self.size,
            mtime: self.mtime,
            uid: self.uid,
            gid: self.gid,
            mode: self.mode,
            has_mode: self.has_mode,
            has_size: self.has_size,
            has_mtime: self.has_mtime,
            has_uid: self.has_uid,
            has_gid: self.has_gid,
        }
    }
}
