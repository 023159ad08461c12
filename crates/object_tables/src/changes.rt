//! Which names and keys changed.
ghost use Rattle.std.specs.Prelude.{◌≡◌, ◌↔◌, ◌⊎◌, IsTrue, OnOk, OnErr};
ghost use Rattle.std.specs.FinMap as map;
ghost use Rattle.objstore.specs.Omap.{key_cmp};
ghost use Rattle.object_tables.specs.Noted.{none_noted as no_changes, spot_cmp};

use mds_types::{Bytes, Text};
use sorted_map::{Iter, SortedMap};
use std::alloc::{AllocError, Global};
use std::marker::Model;

/// Names of objects, and keys in objects. Each stands once.
#[derive(Debug, Drop)]
pub struct Changes {
    names: SortedMap<Text, ()>,
    keys: SortedMap<(Text, Bytes), ()>,
}

impl Model for Changes {
    ghost use Rattle.std.specs.Coded.{codes};
    ghost use Rattle.std.specs.FinMap as map;
    ghost use Rattle.objstore.specs.Omap.{key_cmp};
    ghost use Rattle.object_tables.specs.Noted.{Noted, spot_cmp};
    ghost use Rattle.sorted_map.specs.SortedMap.{contents};

    ghost Value = { Noted };

    ghost coded = { Prim.hlevel (codes, map.code) };

    ghost view = { λ c. record { names = contents key_cmp c.names; keys = contents spot_cmp c.keys } };
}

impl Changes {
    /// None. Takes no memory.
    pub fn none(alloc: Global) -> Changes
        ensures { result ≡ no_changes }
    {
        Changes {
            names: SortedMap::new(alloc),
            keys: SortedMap::new(alloc),
        }
    }

    /// Whether there is none.
    pub fn is_empty(&self) -> bool
        ensures { IsTrue result ↔ (self.now ≡ no_changes) }
    {
        self.names.is_empty() && self.keys.is_empty()
    }

    /// How many objects.
    pub fn len(&self) -> usize
        ensures { result ≡ map.len self.now.names }
    {
        self.names.len()
    }

    /// The names, in order.
    pub fn names(&self) -> Iter<'_, Text, ()>
        ensures { result ≡ map.entries self.now.names }
    {
        self.names.iter()
    }

    /// The keys, in order.
    pub fn keys(&self) -> Iter<'_, (Text, Bytes), ()>
        ensures { result ≡ map.entries self.now.keys }
    {
        self.keys.iter()
    }

    /// Notes the name of an object.
    pub fn note_name(&mut self, alloc: Global, name: &str) -> Result<(), AllocError>
        ensures ok { OnOk result (self.new ≡ record self.old { names = map.insert self.old.names name.now tt }) }
        ensures err { OnErr result (self.new ≡ self.old) }
    {
        self.names.reserve(1)?;
        let name = Text::copy_of(alloc, name)?;
        let _ = self.names.insert(name, ());
        Ok(())
    }

    /// Notes a key in an object.
    pub fn note_key(&mut self, alloc: Global, name: &str, key: &Bytes) -> Result<(), AllocError>
        ensures ok { OnOk result (self.new ≡ record self.old { keys = map.insert self.old.keys (name.now, key.now) tt }) }
        ensures err { OnErr result (self.new ≡ self.old) }
    {
        self.keys.reserve(1)?;
        let name = Text::copy_of(alloc, name)?;
        match key.try_clone() {
            Ok(key) => {
                let _ = self.keys.insert((name, key), ());
                Ok(())
            }
            Err(refused) => {
                drop(name);
                Err(refused)
            }
        }
    }
}
