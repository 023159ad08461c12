//! What is handed over.
ghost use Rattle.std.specs.Prelude.{◌≡◌, length};

use cached_frag::Base;
use mds_types::{Frag, Ino, Inode, Name, Rank};
use std::marker::Model;

/// Dirty names as they are sent: each with the inode that it has now, or with none where it was removed. Seen by its
/// contents, never by its capacity.
#[derive(Debug, Drop)]
pub struct SentNames {
    items: Vec<(Name, Option<Inode>)>,
}

impl Model for SentNames {
    ghost use Rattle.std.specs.Prelude.{List, ℕ, Option};
    ghost use Rattle.mds_types.specs.declared.inodes.Inode.{Inode};

    ghost Value = { List (List ℕ × Option Inode) };

    ghost view = { λ n. n.items.items };
}

impl SentNames {
    /// These names. Takes no memory.
    pub fn from_vec(items: Vec<(Name, Option<Inode>)>) -> SentNames
        ensures { result ≡ items.items }
    {
        SentNames { items }
    }

    /// The names, given back. Takes no memory.
    pub fn into_vec(self) -> Vec<(Name, Option<Inode>)>
        ensures { result.items ≡ self }
    {
        self.items
    }

    /// The names.
    pub fn as_slice(&self) -> &[(Name, Option<Inode>)]
        ensures { result.now ≡ self.now }
    {
        self.items.as_slice()
    }
}

/// A fragment that isn't clean, as it is sent.
#[derive(Debug, Drop)]
pub struct SentFrag {
    /// The directory.
    pub ino: Ino,
    /// The leaf of the directory.
    pub frag: Frag,
    /// What the fragment's object is to it.
    pub base: Base,
    /// The names that changed since the fragment's last commit.
    pub names: SentNames,
}

/// Fragments as they are sent. Seen by its contents, never by its capacity.
#[derive(Debug, Drop)]
pub struct SentFrags {
    items: Vec<SentFrag>,
}

impl Model for SentFrags {
    ghost use Rattle.std.specs.Prelude.{List};
    ghost use Rattle.export_bytes.specs.declared.exports.SentFrag.{SentFrag};

    ghost Value = { List SentFrag };

    ghost view = { λ f. f.items.items };
}

impl SentFrags {
    /// These fragments. Takes no memory.
    pub fn from_vec(items: Vec<SentFrag>) -> SentFrags
        ensures { result ≡ items.items }
    {
        SentFrags { items }
    }

    /// The fragments, given back. Takes no memory.
    pub fn into_vec(self) -> Vec<SentFrag>
        ensures { result.items ≡ self }
    {
        self.items
    }

    /// The fragments.
    pub fn as_slice(&self) -> &[SentFrag]
        ensures { result.now ≡ self.now }
    {
        self.items.as_slice()
    }
}

/// What an export hands over: all of the exported region that isn't in the store.
#[derive(Debug, Drop)]
pub struct Export {
    /// The directory of the root of the region.
    pub ino: Ino,
    /// The leaf of that directory that is the root.
    pub frag: Frag,
    /// The rank that hands over.
    pub exporter: Rank,
    /// The rank that takes over.
    pub importer: Rank,
    /// Each fragment of the region that isn't clean, by inode and then by value.
    pub frags: SentFrags,
}
