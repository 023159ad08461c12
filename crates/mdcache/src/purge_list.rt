//! `PurgeList`, what a contract sees of it, and its calls.
ghost use Rattle.std.specs.Prelude.{◌≡◌, ◌≤◌, ◌<◌, ◌+◌, ◌↔◌, ℕ, List, IsOk, IsTrue, OnOk, OnErr, IfSome, IfNone, option_copied, option_map};
ghost use Rattle.std.specs.FinMap as map;
ghost use Rattle.sorted_map.specs.SortedMap.{contents};
ghost use Rattle.objstore.specs.Omap.{key_cmp};
ghost use Rattle.mdcache.specs.PurgeList.{first_name};

use mds_types::{ObjText, TextRef};
use sorted_map::{Iter, SortedMap};
use std::alloc::{AllocError, Global};
use std::marker::Model;

/// Names of objects that are to be removed, each once, in the order of their bytes.
#[derive(Debug, Drop)]
pub struct PurgeList {
    names: SortedMap<ObjText, ()>,
    // how many of the map's places are counted as room: fewer than there are, where names went
    room: usize,
}

impl Model for PurgeList {
    ghost use Rattle.std.specs.Prelude.{◌≤◌};
    ghost use Rattle.std.specs.Coded.{codes};
    ghost use Rattle.std.specs.FinMap as map;
    ghost use Rattle.objstore.specs.Omap.{key_cmp};
    ghost use Rattle.sorted_map.specs.SortedMap.{contents};
    ghost use Rattle.mdcache.specs.PurgeList.{Listed};

    ghost Value = { Listed };

    ghost coded = { Prim.hlevel (codes, map.code) };

    ghost view = { λ l. record { names = contents key_cmp l.names; room = l.room } };

    ghost invariant = { λ l. l.room ≤ l.names.room };
}

impl PurgeList {
    /// An empty list, with no room. Takes no memory.
    pub fn new(alloc: Global) -> PurgeList
        ensures { result ≡ record { names = map.empty; room = 0 } }
    {
        PurgeList {
            names: SortedMap::new(alloc),
            room: 0,
        }
    }

    /// The list of these names. Takes no memory.
    pub fn of(names: SortedMap<ObjText, ()>) -> PurgeList
        ensures { result.names ≡ contents key_cmp names }
    {
        PurgeList { names, room: 0 }
    }

    /// How many names wait.
    pub fn len(&self) -> usize
        ensures { result ≡ map.len self.now.names }
    {
        self.names.len()
    }

    /// Whether no name waits.
    pub fn is_empty(&self) -> bool
        ensures { IsTrue result ↔ (self.now.names ≡ map.empty) }
    {
        self.names.is_empty()
    }

    /// How many new names surely fit before memory is needed.
    pub fn room(&self) -> usize
        ensures { result ≡ self.now.room }
    {
        self.room
    }

    /// Whether a name waits. Takes logarithmic time.
    pub fn contains(&self, name: &str) -> bool
        ensures { result ≡ map.contains_key self.now.names name.now }
    {
        self.names.contains(&TextRef { text: name })
    }

    /// The first name that waits.
    pub fn first(&self) -> Option<&ObjText>
        ensures { option_copied result ≡ first_name self.now.names }
    {
        match self.names.first() {
            Some((name, _)) => Some(name),
            None => None,
        }
    }

    /// The names that wait, in their order.
    pub fn iter(&self) -> Iter<'_, ObjText, ()>
        ensures { result ≡ map.entries self.now.names }
    {
        self.names.iter()
    }

    /// Makes room for so many names. Where the room is there already nothing is done, and there is no error.
    #[inline(always)]
    pub fn reserve(&mut self, names: usize) -> Result<(), AllocError>
        ensures ok { OnOk result (names ≤ self.new.room) }
        ensures same { self.new.names ≡ self.old.names }
        ensures grows { self.old.room ≤ self.new.room }
        ensures ready { names ≤ self.old.room → IsOk result × (self.new ≡ self.old) }
        ensures err { OnErr result (self.new ≡ self.old) }
    {
        if names <= self.room {
            return Ok(());
        }
        self.names.reserve(names)?;
        self.room = self.names.room();
        Ok(())
    }

    /// Puts a name on the list, for which there is room; one that is on it stays. Takes no memory.
    pub fn put(&mut self, name: ObjText)
        requires { 0 < self.old.room }
        ensures put { self.new.names ≡ map.insert self.old.names name tt }
        ensures room { self.old.room ≤ self.new.room + 1 }
    {
        let _ = self.names.insert(name, ());
        self.room -= 1;
    }

    /// Takes a name off the list; one that isn't on it changes nothing. Takes no memory.
    pub fn remove(&mut self, name: &ObjText)
        ensures removed { self.new.names ≡ map.remove self.old.names name.now }
        ensures room { self.old.room ≤ self.new.room }
    {
        let _ = self.names.remove(name);
    }

    /// Takes the first name off the list; an empty list stays so. Takes no memory.
    pub fn remove_first(&mut self)
        ensures removed { IfSome (first_name self.old.names) (λ name. self.new.names ≡ map.remove self.old.names name) }
        ensures empty { IfNone (first_name self.old.names) (self.new.names ≡ self.old.names) }
        ensures room { self.old.room ≤ self.new.room }
    {
        let _ = self.names.pop_first();
    }
}
