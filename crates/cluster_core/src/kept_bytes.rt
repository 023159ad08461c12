//! The bytes that exports sent, kept under the roots of their exports until they are imported.
ghost use Rattle.std.specs.Prelude.{◌≡◌, ◌<◌, IfOk, IsOk, IsSome, MatchOption, OnErr, OnOk, is_some, option_copied};
ghost use Rattle.std.specs.FinMap as map;
ghost use Rattle.cluster_core.specs.SentBytes.{HandsOut, bytes_for, none_sent};

use mds_types::{Bytes, Frag, Ino};
use sorted_map::SortedMap;
use std::alloc::{AllocError, Global};
use std::marker::Model;

/// Bytes by the roots of their exports, with room for more. After a Send only an Import of these bytes ends the export.
/// Room for them is therefore reserved before the Send, and an Import gets a copy: the bytes are removed once it is
/// done.
#[derive(Drop)]
pub struct KeptBytes {
    bytes: SortedMap<(Ino, Frag), Bytes>,
}

impl Model for KeptBytes {
    ghost use Rattle.std.specs.Coded.{codes};
    ghost use Rattle.std.specs.FinMap as map;
    ghost use Rattle.mds_types.specs.Leaf.{leaf_cmp};
    ghost use Rattle.sorted_map.specs.SortedMap.{contents};
    ghost use Rattle.cluster_core.specs.SentBytes.{SentBytes};

    ghost Value = { SentBytes };

    ghost coded = { Prim.hlevel (codes, map.code) };

    ghost view = { λ k. record { bytes = contents leaf_cmp k.bytes; room = k.bytes.room } };
}

impl KeptBytes {
    /// No bytes of any export. Takes no memory.
    pub fn new(alloc: Global) -> KeptBytes
        ensures { result ≡ none_sent }
    {
        KeptBytes {
            bytes: SortedMap::new(alloc),
        }
    }

    /// Whether bytes are kept under a root.
    pub fn has(&self, ino: Ino, frag: Frag) -> bool
        ensures { result ≡ is_some (map.get self.now.bytes (ino, frag)) }
    {
        self.get(ino, frag).is_some()
    }

    // The bytes that are kept under a root.
    fn get(&self, ino: Ino, frag: Frag) -> Option<&Bytes>
        ensures { option_copied result ≡ map.get self.now.bytes (ino, frag) }
    {
        self.bytes.get(&(ino, frag))
    }

    /// A copy of the bytes kept under a root, or no bytes if none are kept. Takes memory only if some are.
    pub fn copy_of(&self, ino: Ino, frag: Frag) -> Result<Bytes, AllocError>
        ensures copied { IfOk result (λ copy. copy ≡ bytes_for self.now (ino, frag)) }
        ensures err { OnErr result (IsSome (map.get self.now.bytes (ino, frag))) }
    {
        match self.get(ino, frag) {
            Some(bytes) => bytes.try_clone(),
            None => Ok(Bytes::empty()),
        }
    }

    /// Reserves room for the bytes of one more export, unless there is room.
    pub fn reserve(&mut self) -> Result<(), AllocError>
        ensures room { OnOk result (0 < self.new.room) }
        ensures same { self.new.bytes ≡ self.old.bytes }
        ensures ready { 0 < self.old.room → IsOk result × (self.new ≡ self.old) }
        ensures err { OnErr result (self.new ≡ self.old) }
    {
        self.bytes.reserve(1)
    }

    /// Keeps bytes under a root, and replaces those kept there before. There must be room. Takes no memory.
    pub fn keep(&mut self, ino: Ino, frag: Frag, bytes: Bytes)
        requires { 0 < self.old.room }
        ensures { self.new.bytes ≡ map.insert self.old.bytes (ino, frag) bytes }
    {
        drop(self.bytes.insert((ino, frag), bytes));
    }

    /// Removes and returns the bytes of the least root, with the root. None exactly where none are kept. Takes no
    /// memory.
    pub fn pop_first(&mut self) -> Option<((Ino, Frag), Bytes)>
        ensures { MatchOption result ((self.old.bytes ≡ map.empty) × (self.new.bytes ≡ self.old.bytes))
            (HandsOut self.old.bytes self.new.bytes) }
    {
        self.bytes.pop_first()
    }

    /// Removes the bytes of a root. Takes no memory.
    pub fn forget(&mut self, ino: Ino, frag: Frag)
        ensures { self.new.bytes ≡ map.remove self.old.bytes (ino, frag) }
    {
        drop(self.bytes.remove(&(ino, frag)));
    }
}
