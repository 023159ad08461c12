//! `CachedFrag`, what a contract sees of it, and the calls that read it or make room.
ghost use Rattle.std.specs.Prelude.{◌≡◌, ◌≤◌, ℕ, List, IsOk, IfOk, IfSome, OnOk, OnErr, is_some, option_copied};
ghost use Rattle.std.specs.FinMap as map;
ghost use Rattle.dirfrag_codec.specs.EntryRecord.{HasRecord};
ghost use Rattle.cached_frag.specs.Snap.{counts_of};
ghost use Rattle.cached_frag.specs.Cached.{is_clean, shown_names};
ghost use Rattle.cached_frag.specs.Stores.{nameless};

use crate::bases::{Base, EntryCounts};
use crate::named::fragments::NamedFrag;
use mds_types::{Inode, Name};
use sorted_map::Finger;
use std::alloc::{AllocError, Global};
use std::cell::Cell;
use std::marker::Model;
use std::mem;

/// Where a fragment is kept. Most have no names, and take three words then.
#[derive(Debug, Drop)]
pub(crate) enum Store {
    /// A new one, which has neither names nor room for any.
    Fresh {
        alloc: Global,
        generation: u64,
    },
    /// One whose object counts, which has neither names nor room for any.
    Stored {
        alloc: Global,
        version: u64,
        generation: u64,
    },
    /// Any other one.
    Named(Box<NamedFrag>),
}

/// A cached fragment: a whole one. It shows the names of its base, with the dirty names over them. One that never had
/// names or room for them takes three words.
#[derive(Debug, Drop)]
pub struct CachedFrag {
    pub(crate) store: Store,
}

const _: () = prove!(size_of::<CachedFrag>() == 24);

impl Model for CachedFrag {
    ghost use Rattle.std.specs.Coded.{codes};
    ghost use Rattle.std.specs.FinMap as map;
    ghost use Rattle.cached_frag.specs.Cached.{Cached};
    ghost use Rattle.cached_frag.specs.Stores.{cached_by};

    ghost Value = { Cached };

    ghost coded = { Prim.hlevel (codes, map.code) };

    ghost view = { λ f. cached_by f.store };
}

impl CachedFrag {
    /// A new fragment, with no names: no object of its name counts. Takes no memory.
    pub fn fresh(alloc: Global, generation: u64) -> CachedFrag
        ensures { result ≡ record
            { base = Base.Fresh; generation = generation; clean = map.empty; dirty = map.empty; room = 0; places = 0 } }
    {
        CachedFrag {
            store: Store::Fresh { alloc, generation },
        }
    }

    /// What its object is to the fragment.
    #[inline(always)]
    pub fn base(&self) -> Base
        ensures { result ≡ self.now.base }
    {
        match &self.store {
            Store::Fresh { .. } => Base::Fresh,
            Store::Stored { version, .. } => Base::Stored(*version),
            Store::Named(named) => named.base(),
        }
    }

    /// Which of the fragments that had its name it is.
    pub fn generation(&self) -> u64
        ensures { result ≡ self.now.generation }
    {
        match &self.store {
            Store::Fresh { generation, .. } => *generation,
            Store::Stored { generation, .. } => *generation,
            Store::Named(named) => named.generation(),
        }
    }

    /// Whether its object spells what it shows.
    pub fn is_clean(&self) -> bool
        ensures { result ≡ is_clean self.now }
    {
        match &self.store {
            Store::Fresh { .. } => false,
            Store::Stored { .. } => true,
            Store::Named(named) => named.is_clean(),
        }
    }

    /// The inode that a name stands for, if it is there. Takes logarithmic time. Where the fragment has names or room
    /// for them, the finger is where the name is among the dirty ones then, or would go: where it is changed next it is
    /// found there at a comparison or two.
    #[inline(always)]
    pub fn look(&self, near: &Cell<Finger>, name: &Name) -> Option<&Inode>
        ensures found { option_copied result ≡ map.get (shown_names self.now) name.now }
        ensures recorded { IfSome (option_copied result) HasRecord }
    {
        match &self.store {
            Store::Fresh { .. } => None,
            Store::Stored { .. } => None,
            Store::Named(named) => named.look(near, name),
        }
    }

    /// Whether a name is there: takes a comparison or two where the finger is that of the name, else logarithmic time.
    #[inline(always)]
    pub fn shows(&self, near: &Finger, name: &Name) -> bool
        ensures { result ≡ is_some (map.get (shown_names self.now) name.now) }
    {
        match &self.store {
            Store::Fresh { .. } => false,
            Store::Stored { .. } => false,
            Store::Named(named) => named.shows(near, name),
        }
    }

    /// A record allows what each of its names stands for: a law of the type, so nothing is done.
    pub fn has_records(&self)
        ensures { (name : List ℕ) → IfSome (map.get (shown_names self.now) name) HasRecord }
    {
        match &self.store {
            Store::Fresh { .. } => {}
            Store::Stored { .. } => {}
            Store::Named(named) => named.has_records(),
        }
    }

    /// How many entries it shows.
    #[inline(always)]
    pub fn counts(&self) -> EntryCounts
        ensures { result ≡ counts_of (shown_names self.now) }
    {
        match &self.store {
            Store::Fresh { .. } => EntryCounts { files: 0, dirs: 0 },
            Store::Stored { .. } => EntryCounts { files: 0, dirs: 0 },
            Store::Named(named) => named.counts(),
        }
    }

    /// How many names it shows.
    pub fn len(&self) -> usize
        ensures { result ≡ map.len (shown_names self.now) }
    {
        match &self.store {
            Store::Fresh { .. } => 0,
            Store::Stored { .. } => 0,
            Store::Named(named) => named.len(),
        }
    }

    /// How many changes of names fit before memory is needed.
    #[inline(always)]
    pub fn room(&self) -> usize
        ensures { result ≡ self.now.room }
    {
        match &self.store {
            Store::Fresh { .. } => 0,
            Store::Stored { .. } => 0,
            Store::Named(named) => named.room(),
        }
    }

    /// How many dirty names can become clean before memory is needed.
    pub fn places(&self) -> usize
        ensures { result ≡ self.now.places }
    {
        match &self.store {
            Store::Fresh { .. } => 0,
            Store::Stored { .. } => 0,
            Store::Named(named) => named.places(),
        }
    }

    /// Makes room for so many changes of names. Where the room is there already nothing is done, and there is no error.
    #[inline(always)]
    pub fn reserve(&mut self, changes: usize) -> Result<(), AllocError>
        ensures same { self.new ≡ record self.old { room = self.new.room } }
        ensures room { OnOk result (changes ≤ self.new.room) }
        ensures grows { self.old.room ≤ self.new.room }
        ensures ready { changes ≤ self.old.room → IsOk result × (self.new ≡ self.old) }
        ensures err { OnErr result (self.new ≡ self.old) }
    {
        match &mut self.store {
            Store::Fresh { alloc, generation } => {
                let (alloc, generation) = (*alloc, *generation);
                self.open(alloc, Base::Fresh, generation, changes)
            }
            Store::Stored {
                alloc,
                version,
                generation,
            } => {
                let (alloc, base, generation) = (*alloc, Base::Stored(*version), *generation);
                self.open(alloc, base, generation, changes)
            }
            Store::Named(named) => named.reserve(changes),
        }
    }

    // Makes room for so many changes in one without names, whose base and generation these are.
    fn open(
        &mut self,
        alloc: Global,
        base: Base,
        generation: u64,
        changes: usize,
    ) -> Result<(), AllocError>
        requires { self.old ≡ nameless base generation }
        ensures same { self.new ≡ record self.old { room = self.new.room } }
        ensures room { OnOk result (changes ≤ self.new.room) }
        ensures grows { self.old.room ≤ self.new.room }
        ensures ready { changes ≤ self.old.room → IsOk result × (self.new ≡ self.old) }
        ensures err { OnErr result (self.new ≡ self.old) }
    {
        if changes == 0 {
            return Ok(());
        }
        let opened = opened(alloc, base, generation, changes)?;
        drop(mem::replace(self, opened));
        Ok(())
    }
}

// One without names that has room for so many changes.
fn opened(
    alloc: Global,
    base: Base,
    generation: u64,
    changes: usize,
) -> Result<CachedFrag, AllocError>
    ensures room { IfOk result (λ opened. changes ≤ opened.room) }
    ensures bare { IfOk result (λ opened. opened ≡ record (nameless base generation) { room = opened.room }) }
{
    let mut named = NamedFrag::bare(alloc, base, generation);
    if let Err(refused) = named.reserve(changes) {
        drop(named);
        return Err(refused);
    }
    kept_in(alloc, named)
}

// The fragment with these names. Takes memory for its box.
pub(crate) fn kept_in(alloc: Global, named: NamedFrag) -> Result<CachedFrag, AllocError>
    ensures { IfOk result (λ fragment. fragment ≡ named) }
{
    let named = Box::new(alloc, named)?;
    Ok(CachedFrag {
        store: Store::Named(named),
    })
}
