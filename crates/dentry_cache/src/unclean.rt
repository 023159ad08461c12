//! The leaves of fragments that aren't clean.
ghost use Rattle.std.specs.Prelude.{◌≡◌, ◌≤◌, ◌++◌, length, OnOk, IfOk};
ghost use Rattle.dentry_cache.specs.CacheMap.{AreCaches};
ghost use Rattle.dentry_cache.specs.Unclean.{is_unclean, unclean_leaves_in, unclean_places};

use crate::cache::{Cache, Place};
use crate::caches::Caches;
use mds_types::{Dirfrag, Rank};
use std::alloc::{AllocError, Global};

impl Place {
    // Whether it has a fragment that isn't clean.
    fn is_unclean(&self) -> bool
        ensures { result ≡ is_unclean self.now }
    {
        !self.kept && !self.frag.is_clean()
    }
}

impl Cache {
    /// Puts the leaves of fragments that aren't clean behind others, each at this rank, the most recently used first.
    /// Takes memory for them.
    pub(crate) fn add_unclean(
        &self,
        rank: Rank,
        leaves: &mut Vec<Dirfrag>,
    ) -> Result<(), AllocError>
        ensures added { OnOk result
            (leaves.new.items ≡ leaves.old.items ++ unclean_leaves_in rank self.now.entries) }
    {
        let mut rest = self.places.iter();
        while let Some((leaf, place)) = rest.next() {
            if place.is_unclean() {
                leaves.push(Dirfrag {
                    dir: leaf.0,
                    frag: leaf.1,
                    rank,
                })?;
            }
        }
        Ok(())
    }
}

impl Caches {
    /// The leaves of fragments that aren't clean, each with the rank that has it: rank after rank, and of each the most
    /// recently used first. Takes memory for them, 24 bytes for each; each place is looked at.
    pub fn unclean_leaves(&self, alloc: Global) -> Result<Vec<Dirfrag>, AllocError>
        requires { length self.now.used ≤ 256 }
        ensures leaves { IfOk result (λ leaves. leaves.items ≡ unclean_places self.now) }
        ensures valid { AreCaches self.now }
    {
        let mut leaves = Vec::new(alloc);
        for index in 0..self.caches.len() {
            self.caches[index].add_unclean(Rank(index as u8), &mut leaves)?;
        }
        Ok(leaves)
    }
}
