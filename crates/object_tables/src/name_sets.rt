//! A set of names of objects.
ghost use Rattle.std.specs.Prelude.{◌≡◌, OnOk, OnErr};
ghost use Rattle.std.specs.FinMap as map;
ghost use Rattle.objstore.specs.Omap.{key_cmp};

use mds_types::Text;
use sorted_map::SortedMap;
use std::alloc::{AllocError, Global};
use std::marker::Model;

/// A set of names.
#[derive(Debug, Drop)]
pub struct NameSet {
    names: SortedMap<Text, ()>,
}

impl Model for NameSet {
    ghost use Rattle.std.specs.Coded.{codes};
    ghost use Rattle.std.specs.FinMap as map;
    ghost use Rattle.objstore.specs.Omap.{Keys, key_cmp};
    ghost use Rattle.sorted_map.specs.SortedMap.{contents};

    ghost Value = { Keys };

    ghost coded = { Prim.hlevel (codes, map.code) };

    ghost view = { λ s. contents key_cmp s.names };
}

impl NameSet {
    /// No names. Takes no memory.
    pub fn new(alloc: Global) -> NameSet
        ensures { result ≡ map.empty }
    {
        NameSet {
            names: SortedMap::new(alloc),
        }
    }

    /// Whether the name is in the set.
    pub fn contains(&self, name: &Text) -> bool
        ensures { result ≡ map.contains_key self.now name.now }
    {
        self.names.contains(name)
    }

    /// Puts a name in. Takes memory for a copy.
    pub fn put(&mut self, alloc: Global, name: &str) -> Result<(), AllocError>
        ensures ok { OnOk result (self.new ≡ map.insert self.old name.now tt) }
        ensures err { OnErr result (self.new ≡ self.old) }
    {
        self.names.reserve(1)?;
        let name = Text::copy_of(alloc, name)?;
        let _ = self.names.insert(name, ());
        Ok(())
    }
}
