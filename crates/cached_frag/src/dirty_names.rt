//! The dirty names of a fragment.
ghost use Rattle.std.specs.Cmp.{on_per, on_equiv, partial_equiv_from_equiv, decided};
ghost use Rattle.std.specs.Cmp.Lexicographic.{pointwise, lists_equiv};
ghost use Rattle.std.proofs.lemmas.Slice.Eq.{bytes_eq-Decides};
ghost use Rattle.sorted_map.proofs.Decided.{pair_decides};
ghost use Rattle.std.specs.Prelude.{◌≡◌, ◌≤◌, ◌==◌, ◌↔◌, IfOk, IfSome, IsTrue, OnOk, OnErr, option_copied};
ghost use Rattle.std.specs.FinMap as map;
ghost use Rattle.objstore.specs.Omap.{key_cmp};
ghost use Rattle.sorted_map.specs.SortedMap.{contents, pairs_eq};
ghost use Rattle.dirfrag_codec.specs.EntryRecord.{HasRecord, IsRecordable};
ghost use Rattle.cached_frag.specs.Marks.{AreDirtyNames, IsDirtyName, patched};
ghost use Rattle.cached_frag.specs.Snap.{counts_of};
ghost use Rattle.cached_frag.specs.Counting.{is_dir, is_file};
ghost use Rattle.cached_frag.specs.SameMarks.{mark_decides};

use crate::bases::EntryCounts;
use crate::marks::Mark;
use dirfrag_codec::has_widths;
use mds_types::{Inode, Name};
use sorted_map::SortedMap;
use std::alloc::{AllocError, Global};
use std::marker::Model;

/// Names that changed since their fragment's last commit, each with what became of it. A present name has an inode that
/// a record allows.
#[derive(Debug, Drop)]
pub struct DirtyNames {
    names: SortedMap<Name, Mark>,
}

impl Model for DirtyNames {
    ghost use Rattle.std.specs.Coded.{codes};
    ghost use Rattle.std.specs.FinMap as map;
    ghost use Rattle.objstore.specs.Omap.{key_cmp};
    ghost use Rattle.sorted_map.specs.SortedMap.{contents};
    ghost use Rattle.cached_frag.specs.Marks.{AreDirtyNames, Marks};

    ghost Value = { Marks };

    ghost coded = { Prim.hlevel (codes, map.code) };

    ghost view = { λ d. contents key_cmp d.names };

    ghost invariant = { λ d. AreDirtyNames (contents key_cmp d.names) };
}

impl DirtyNames {
    /// No names. Takes no memory.
    pub fn new(alloc: Global) -> DirtyNames
        ensures { result ≡ map.empty }
    {
        DirtyNames {
            names: SortedMap::new(alloc),
        }
    }

    /// The names of this map. Takes no memory.
    pub fn from_map(names: SortedMap<Name, Mark>) -> DirtyNames
        requires { AreDirtyNames (contents key_cmp names) }
        ensures { result ≡ contents key_cmp names }
    {
        DirtyNames { names }
    }

    /// The names, as a map.
    pub fn as_map(&self) -> &SortedMap<Name, Mark>
        ensures names { contents key_cmp result.now ≡ self.now }
        ensures valid { AreDirtyNames self.now }
    {
        &self.names
    }

    /// How many names there are.
    pub fn len(&self) -> usize
        ensures { result ≡ map.len self.now }
    {
        self.names.len()
    }

    /// What became of a name; none, where it isn't dirty.
    pub fn get(&self, name: &Name) -> Option<&Mark>
        ensures { option_copied result ≡ map.get self.now name.now }
    {
        self.names.get(name)
    }

    /// Says what became of a name. Takes memory for the place of a new one.
    pub fn put(&mut self, name: Name, mark: Mark) -> Result<(), AllocError>
        requires { IfSome mark.inode IsRecordable }
        ensures ok { OnOk result (self.new ≡ map.insert self.old name mark) }
        ensures err { OnErr result (self.new ≡ self.old) }
    {
        put_in(&mut self.names, name, mark)
    }

    /// How many entries the present names are.
    pub fn counts(&self) -> EntryCounts
        ensures { result ≡ counts_of (patched map.empty self.now) }
    {
        counts_in(&self.names)
    }

    /// A copy. Takes memory for the names.
    pub fn try_clone(&self) -> Result<DirtyNames, AllocError>
        ensures { IfOk result (λ copy. copy ≡ self.now) }
    {
        Ok(DirtyNames {
            names: copy_of(&self.names)?,
        })
    }
}

impl PartialEq for DirtyNames {
    ghost eq = { λ a b. pointwise (pairs_eq (pointwise ◌==◌) ⟦<Mark as PartialEq>⟧.eq) (map.entries a)
        (map.entries b) };

    ghost laws = { on_per (λ d. map.entries d)
        (partial_equiv_from_equiv (lists_equiv (decided (pairs_eq (pointwise ◌==◌) ⟦<Mark as PartialEq>⟧.eq)
        (pair_decides (pointwise ◌==◌) ⟦<Mark as PartialEq>⟧.eq bytes_eq-Decides mark_decides)))) };

    /// Whether both have the same names, and the same became of each.
    fn eq(&self, other: &DirtyNames) -> bool
        ensures value { result ≡ pointwise (pairs_eq (pointwise ◌==◌) ⟦<Mark as PartialEq>⟧.eq)
            (map.entries self.now) (map.entries other.now) }
        ensures same { IsTrue result ↔ (self.now ≡ other.now) }
    {
        // The contract of `len` is what says here that the names of a map rise.
        let _ = self.names.len();
        let _ = other.names.len();
        self.names == other.names
    }
}

impl Eq for DirtyNames {
    ghost laws = { on_equiv (λ d. map.entries d)
        (lists_equiv (decided (pairs_eq (pointwise ◌==◌) ⟦<Mark as PartialEq>⟧.eq)
        (pair_decides (pointwise ◌==◌) ⟦<Mark as PartialEq>⟧.eq bytes_eq-Decides mark_decides))) };
}

// A copy of the names.
fn copy_of(names: &SortedMap<Name, Mark>) -> Result<SortedMap<Name, Mark>, AllocError>
    ensures { IfOk result (λ copy. contents key_cmp copy ≡ contents key_cmp names.now) }
{
    names.clone()
}

// Says what became of a name.
fn put_in(names: &mut SortedMap<Name, Mark>, name: Name, mark: Mark) -> Result<(), AllocError>
    requires recordable { IfSome mark.inode IsRecordable }
    requires dirty { AreDirtyNames (contents key_cmp names.old) }
    ensures ok { OnOk result (contents key_cmp names.new ≡ map.insert (contents key_cmp names.old) name mark) }
    ensures err { OnErr result (contents key_cmp names.new ≡ contents key_cmp names.old) }
    ensures dirty { AreDirtyNames (contents key_cmp names.new) }
{
    names.reserve(1)?;
    is_dirty(&name, &mark);
    put_reserved(names, name, mark);
    Ok(())
}

// Puts a name in, where there is room.
fn put_reserved(names: &mut SortedMap<Name, Mark>, name: Name, mark: Mark)
    requires { 1 ≤ names.old.room }
    ensures { contents key_cmp names.new ≡ map.insert (contents key_cmp names.old) name mark }
{
    let _ = names.insert(name, mark);
}

/// What holds of each dirty name: a law of the types, so there is nothing to do.
pub(crate) fn is_dirty(name: &Name, mark: &Mark)
    requires { IfSome mark.now.inode IsRecordable }
    ensures { IsDirtyName name.now mark.now }
{
    let _ = name.as_bytes();
    if let Some(inode) = &mark.inode {
        has_record(inode);
    }
}

// What holds of each inode that a record allows.
fn has_record(inode: &Inode)
    requires { IsRecordable inode.now }
    ensures { HasRecord inode.now }
{
    has_widths(inode);
}

// How many entries the present names are.
fn counts_in(names: &SortedMap<Name, Mark>) -> EntryCounts
    ensures { result ≡ counts_of (patched map.empty (contents key_cmp names.now)) }
{
    // no more than there are names, so the sums don't overflow
    let _ = names.len();
    let mut files = 0;
    let mut dirs = 0;
    for (_, mark) in names {
        files += u64::from(is_file(mark));
        dirs += u64::from(is_dir(mark));
    }
    EntryCounts { files, dirs }
}

// Whether the name is a file or link now.
fn is_file(mark: &Mark) -> bool
    ensures { result ≡ is_file mark.now.inode }
{
    match &mark.inode {
        Some(inode) => !inode.kind.is_dir(),
        None => false,
    }
}

// Whether the name is a directory now.
fn is_dir(mark: &Mark) -> bool
    ensures { result ≡ is_dir mark.now.inode }
{
    match &mark.inode {
        Some(inode) => inode.kind.is_dir(),
        None => false,
    }
}
