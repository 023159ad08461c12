//! What a rank would split or merge by the sizes of what it caches, one after the other.
ghost use Rattle.std.specs.Prelude.{◌<◌, length};
ghost use Rattle.dentry_cache.specs.CandidateSets.{sizes_of};
ghost use Rattle.dentry_cache.specs.Candidates.{IsLargeIn, IsNextLeaf, IsSmallIn, sizes_at};

use crate::cache::Cache;
use crate::caches::Caches;
use mds_types::{Frag, Ino, Rank};

impl Cache {
    /// The first large leaf behind another.
    fn next_large(&self, after: &Option<(Ino, Frag)>) -> Option<(Ino, Frag)>
        ensures { IsNextLeaf (IsLargeIn (sizes_of self.now.entries)) after.now result }
    {
        self.candidates.next_large(after)
    }

    /// The first fragment behind another whose eight children are small.
    fn next_small(&self, after: &Option<(Ino, Frag)>) -> Option<(Ino, Frag)>
        ensures { IsNextLeaf (IsSmallIn (sizes_of self.now.entries)) after.now result }
    {
        self.candidates.next_small(after)
    }
}

impl Caches {
    /// The first leaf behind another that a rank caches with more than 10,000 entries, and that can be split by 3
    /// bits; the first of all behind none. No cached fragment is looked at.
    pub fn next_large(&self, rank: Rank, after: Option<(Ino, Frag)>) -> Option<(Ino, Frag)>
        requires { rank.0 < length self.now.used }
        ensures { IsNextLeaf (IsLargeIn (sizes_at self.now rank.0)) after result }
    {
        self.caches[rank.0 as usize].next_large(&after)
    }

    /// The first fragment behind another whose eight children by 3 bits a rank caches, with fewer than 50 entries
    /// together; the first of all behind none. No cached fragment is looked at.
    pub fn next_small(&self, rank: Rank, after: Option<(Ino, Frag)>) -> Option<(Ino, Frag)>
        requires { rank.0 < length self.now.used }
        ensures { IsNextLeaf (IsSmallIn (sizes_at self.now rank.0)) after result }
    {
        self.caches[rank.0 as usize].next_small(&after)
    }
}
