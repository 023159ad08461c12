//! The leaves of a region that a rank caches.
ghost use Rattle.std.specs.Prelude.{◌≡◌, [], OnOk};
ghost use Rattle.export_regions.specs.Regions.{with_leaf};

use mds_types::{Frag, Ino};
use std::alloc::{AllocError, Global};
use std::marker::Model;

/// The leaves of a region that a rank caches: those whose fragments aren't clean, and those whose fragments are, of
/// each the most recently used first. Seen by its contents, never by its capacity.
#[derive(Debug, Drop)]
pub struct RegionLeaves {
    unclean: Vec<(Ino, Frag)>,
    clean: Vec<(Ino, Frag)>,
}

impl Model for RegionLeaves {
    ghost use Rattle.export_regions.specs.Regions.{RegionLeaves};

    ghost Value = { RegionLeaves };

    ghost view = { λ l. record { unclean = l.unclean.items; clean = l.clean.items } };
}

impl RegionLeaves {
    /// No leaves. Takes no memory.
    pub fn new(alloc: Global) -> RegionLeaves
        ensures { result ≡ record { unclean = []; clean = [] } }
    {
        RegionLeaves {
            unclean: Vec::new(alloc),
            clean: Vec::new(alloc),
        }
    }

    /// The leaves whose fragments aren't clean.
    pub fn unclean(&self) -> &[(Ino, Frag)]
        ensures { result.now ≡ self.now.unclean }
    {
        self.unclean.as_slice()
    }

    /// The leaves whose fragments are clean.
    pub fn clean(&self) -> &[(Ino, Frag)]
        ensures { result.now ≡ self.now.clean }
    {
        self.clean.as_slice()
    }

    /// Puts a leaf behind the others of its kind.
    pub(crate) fn add(&mut self, leaf: &(Ino, Frag), is_clean: bool) -> Result<(), AllocError>
        ensures { OnOk result (self.new ≡ with_leaf self.old leaf.now is_clean) }
    {
        if is_clean {
            self.clean.push(*leaf)?;
        } else {
            self.unclean.push(*leaf)?;
        }
        Ok(())
    }
}
