//! `NamedFrag`, what a contract sees of it, and the calls that read it or make room.
ghost use Rattle.std.specs.Prelude.{◌≡◌, ◌≤◌, ◌<◌, ◌+◌, ◌^◌, ℕ, List, IsOk, IfSome, OnOk, OnErr, is_some, option_copied};
ghost use Rattle.std.specs.FinMap as map;
ghost use Rattle.objstore.specs.Omap.{key_cmp};
ghost use Rattle.sorted_map.specs.SortedMap.{contents};
ghost use Rattle.dirfrag_codec.specs.EntryRecord.{HasRecord};
ghost use Rattle.cached_frag.specs.Snap.{counts_of};
ghost use Rattle.cached_frag.specs.Marks.{inode_or};
ghost use Rattle.cached_frag.specs.Cached.{imported, is_clean, shown_names};
ghost use Rattle.cached_frag.specs.Rows.{rows_after, rows_left};

use crate::bases::{Base, EntryCounts};
use crate::marks::Mark;
use crate::rows::{Rows, rows_of};
use mds_types::{Inode, Name};
use sorted_map::{Finger, SortedMap};
use std::alloc::{AllocError, Global};
use std::cell::Cell;
use std::marker::Model;

/// A cached fragment with its maps. It shows the names of its base, with the dirty names over them.
#[derive(Debug, Drop)]
pub struct NamedFrag {
    pub(crate) base: Base,
    pub(crate) generation: u64,
    // as they were fetched, but for what became clean since
    pub(crate) clean: SortedMap<Name, Inode>,
    // what changed since the last commit
    pub(crate) dirty: SortedMap<Name, Mark>,
    // of the names that are shown
    pub(crate) counts: EntryCounts,
    // how many changes fit
    pub(crate) room: usize,
}

impl Model for NamedFrag {
    ghost use Rattle.std.specs.Coded.{codes};
    ghost use Rattle.std.specs.FinMap as map;
    ghost use Rattle.objstore.specs.Omap.{key_cmp};
    ghost use Rattle.sorted_map.specs.SortedMap.{contents};
    ghost use Rattle.cached_frag.specs.Cached.{Cached};
    ghost use Rattle.cached_frag.specs.Kept.{IsCachedWith};

    ghost Value = { Cached };

    ghost coded = { Prim.hlevel (codes, map.code) };

    ghost view = { λ f. record {
      base = f.base;
      generation = f.generation;
      clean = contents key_cmp f.clean;
      dirty = contents key_cmp f.dirty;
      room = f.room;
      places = f.clean.room;
    } };

    ghost invariant = { λ f. IsCachedWith
        (record {
          base = f.base;
          generation = f.generation;
          clean = contents key_cmp f.clean;
          dirty = contents key_cmp f.dirty;
          room = f.room;
          places = f.clean.room;
        }) f.counts f.dirty.room };
}

impl NamedFrag {
    /// A fragment with no names and no room for any. Takes no memory.
    pub(crate) fn bare(alloc: Global, base: Base, generation: u64) -> NamedFrag
        ensures { result ≡ record
            { base = base; generation = generation; clean = map.empty; dirty = map.empty; room = 0; places = 0 } }
    {
        NamedFrag {
            base,
            generation,
            clean: SortedMap::new(alloc),
            dirty: SortedMap::new(alloc),
            counts: EntryCounts { files: 0, dirs: 0 },
            room: 0,
        }
    }

    /// What its object is to the fragment.
    pub(crate) fn base(&self) -> Base
        ensures { result ≡ self.now.base }
    {
        self.base
    }

    /// Which of the fragments that had its name it is.
    pub(crate) fn generation(&self) -> u64
        ensures { result ≡ self.now.generation }
    {
        self.generation
    }

    /// Makes it the fragment that a rank has that took it over from another: of generation 0.
    pub(crate) fn import(&mut self)
        ensures { self.new ≡ imported self.old }
    {
        self.generation = 0;
    }

    /// Whether its object spells what it shows.
    pub(crate) fn is_clean(&self) -> bool
        ensures { result ≡ is_clean self.now }
    {
        !self.base.is_fresh() && self.dirty.len() == 0
    }

    /// The inode that a name stands for, if it is there. The finger is where the name is among the dirty ones then, or
    /// would go.
    pub(crate) fn look(&self, near: &Cell<Finger>, name: &Name) -> Option<&Inode>
        ensures found { option_copied result ≡ map.get (shown_names self.now) name.now }
        ensures recorded { IfSome (option_copied result) HasRecord }
    {
        shown_in(&self.clean, &self.dirty, near, name)
    }

    /// Whether a name is there.
    pub(crate) fn shows(&self, near: &Finger, name: &Name) -> bool
        ensures { result ≡ is_some (map.get (shown_names self.now) name.now) }
    {
        shows_in(&self.clean, &self.dirty, near, name)
    }

    /// A record allows what each of its names stands for: a law of the type, so nothing is done.
    pub(crate) fn has_records(&self)
        ensures { (name : List ℕ) → IfSome (map.get (shown_names self.now) name) HasRecord }
    {
        let _ = &self.clean;
    }

    /// How many entries it shows.
    pub(crate) fn counts(&self) -> EntryCounts
        ensures { result ≡ counts_of (shown_names self.now) }
    {
        self.counts
    }

    /// How many names it shows.
    pub(crate) fn len(&self) -> usize
        ensures { result ≡ map.len (shown_names self.now) }
    {
        (self.counts.files + self.counts.dirs) as usize
    }

    /// How many changes of names fit before memory is needed.
    pub(crate) fn room(&self) -> usize
        ensures { result ≡ self.now.room }
    {
        self.room
    }

    /// How many dirty names can become clean before memory is needed.
    pub(crate) fn places(&self) -> usize
        ensures { result ≡ self.now.places }
    {
        self.clean.room()
    }

    /// The names that it shows and that are greater than one; all, if none is given.
    pub(crate) fn rows_after(&self, after: Option<&Name>) -> Rows<'_>
        ensures { rows_left result ≡ rows_after (option_copied after.entry) (map.entries (shown_names self.now)) }
    {
        rows_of(&self.clean, &self.dirty, after)
    }

    /// Makes room for so many changes of names. Where the room is there already nothing is done, and there is no error.
    pub(crate) fn reserve(&mut self, changes: usize) -> Result<(), AllocError>
        ensures same { self.new ≡ record self.old { room = self.new.room } }
        ensures room { OnOk result (changes ≤ self.new.room) }
        ensures grows { self.old.room ≤ self.new.room }
        ensures ready { changes ≤ self.old.room → IsOk result × (self.new ≡ self.old) }
        ensures err { OnErr result (self.new ≡ self.old) }
    {
        if changes <= self.room {
            return Ok(());
        }
        fits(self.counts, changes)?;
        self.dirty.reserve(changes)?;
        self.room = room_of(self.counts, changes, self.dirty.room());
        Ok(())
    }
}

// What became of a name, if it is dirty, and otherwise what it was.
pub(crate) fn shown_in<'a>(
    clean: &'a SortedMap<Name, Inode>,
    dirty: &'a SortedMap<Name, Mark>,
    near: &Cell<Finger>,
    name: &Name,
) -> Option<&'a Inode>
    ensures { option_copied result ≡ inode_or (map.get (contents key_cmp dirty.entry.now) name.now)
        (map.get (contents key_cmp clean.entry.now) name.now) }
{
    match dirty.get_noting(near, name) {
        Some(mark) => mark.inode.as_ref(),
        None => clean.get(name),
    }
}

// Whether a name is there, by the mark that it has or else by what it was.
fn shows_in(
    clean: &SortedMap<Name, Inode>,
    dirty: &SortedMap<Name, Mark>,
    near: &Finger,
    name: &Name,
) -> bool
    ensures { result ≡ is_some (inode_or (map.get (contents key_cmp dirty.now) name.now)
        (map.get (contents key_cmp clean.now) name.now)) }
{
    match dirty.get_near(near, name) {
        Some(mark) => mark.inode.is_some(),
        None => clean.get(name).is_some(),
    }
}

// How many changes fit, where so many do and there is room for others: all of these, so that the next ones ask for
// none.
fn room_of(counts: EntryCounts, changes: usize, room: usize) -> usize
    requires few { counts.files + counts.dirs + changes < 2 ^ 64 }
    requires within { changes ≤ room }
    ensures few { counts.files + counts.dirs + result < 2 ^ 64 }
    ensures within { result ≤ room }
    ensures most { changes ≤ result }
{
    match fits(counts, room) {
        Ok(()) => room,
        Err(_) => changes,
    }
}

// Whether the counts can hold so many entries more: there is never memory for so many that they can't.
fn fits(counts: EntryCounts, changes: usize) -> Result<(), AllocError>
    ensures ok { OnOk result (counts.files + counts.dirs + changes < 2 ^ 64) }
    ensures err { OnErr result (2 ^ 64 ≤ counts.files + counts.dirs + changes) }
{
    match counts.files.checked_add(counts.dirs) {
        Some(entries) if entries.checked_add(changes as u64).is_some() => Ok(()),
        _ => Err(AllocError),
    }
}
