//! What a commit leaves of a fragment.
ghost use Rattle.std.specs.Prelude.{◌≡◌, ◌≤◌, IsOk, IfOk, OnOk, OnErr};
ghost use Rattle.std.specs.FinMap as map;
ghost use Rattle.cached_frag.specs.Cached.{shown_names, unsettled};
ghost use Rattle.cached_frag.specs.Stores.{nameless};

use crate::bases::Base;
use crate::dirty_names::DirtyNames;
use crate::fragments::{CachedFrag, Store, kept_in};
use crate::named::fragments::NamedFrag;
use std::alloc::{AllocError, Global};
use std::mem;

impl CachedFrag {
    /// Makes room for a commit of this many names to become clean. Where it is there already nothing is done, and there
    /// is no error.
    pub fn reserve_settled(&mut self, names: usize) -> Result<(), AllocError>
        ensures ok { OnOk result (names ≤ self.new.places) }
        ensures same { self.new ≡ record self.old { places = self.new.places } }
        ensures grows { self.old.places ≤ self.new.places }
        ensures ready { names ≤ self.old.places → IsOk result × (self.new ≡ self.old) }
        ensures err { OnErr result (self.new ≡ self.old) }
    {
        match &mut self.store {
            Store::Fresh { alloc, generation } => {
                let (alloc, generation) = (*alloc, *generation);
                self.make_places(alloc, Base::Fresh, generation, names)
            }
            Store::Stored {
                alloc,
                version,
                generation,
            } => {
                let (alloc, base, generation) = (*alloc, Base::Stored(*version), *generation);
                self.make_places(alloc, base, generation, names)
            }
            Store::Named(named) => named.reserve_settled(names),
        }
    }

    /// What the commit of a snapshot with these names leaves, whose object is at this version now: a name that is dirty
    /// at the snapshot's version becomes clean, each other stays as it is. Takes no memory.
    pub fn settle(&mut self, names: &DirtyNames, version: u64)
        requires { map.len names.now ≤ self.old.places }
        ensures dirty { self.new.dirty ≡ unsettled self.old.dirty names.now }
        ensures base { self.new.base ≡ Base.Stored version }
        ensures generation { self.new.generation ≡ self.old.generation }
        ensures shown { shown_names self.new ≡ shown_names self.old }
    {
        match &mut self.store {
            Store::Fresh { alloc, generation } => {
                let (alloc, generation) = (*alloc, *generation);
                let committed = Store::Stored {
                    alloc,
                    version,
                    generation,
                };
                drop(mem::replace(&mut self.store, committed));
            }
            Store::Stored { version: of, .. } => *of = version,
            Store::Named(named) => named.settle(names, version),
        }
    }

    // Makes places for so many names in one without names, whose base and generation these are.
    fn make_places(
        &mut self,
        alloc: Global,
        base: Base,
        generation: u64,
        names: usize,
    ) -> Result<(), AllocError>
        requires { self.old ≡ nameless base generation }
        ensures ok { OnOk result (names ≤ self.new.places) }
        ensures same { self.new ≡ record self.old { places = self.new.places } }
        ensures grows { self.old.places ≤ self.new.places }
        ensures ready { names ≤ self.old.places → IsOk result × (self.new ≡ self.old) }
        ensures err { OnErr result (self.new ≡ self.old) }
    {
        if names == 0 {
            return Ok(());
        }
        let opened = with_places(alloc, base, generation, names)?;
        drop(mem::replace(self, opened));
        Ok(())
    }
}

// One without names that has places for so many.
fn with_places(
    alloc: Global,
    base: Base,
    generation: u64,
    names: usize,
) -> Result<CachedFrag, AllocError>
    ensures places { IfOk result (λ opened. names ≤ opened.places) }
    ensures nameless { IfOk result (λ opened. opened ≡ record (nameless base generation) { places = opened.places }) }
{
    let mut named = NamedFrag::bare(alloc, base, generation);
    if let Err(refused) = named.reserve_settled(names) {
        drop(named);
        return Err(refused);
    }
    kept_in(alloc, named)
}
