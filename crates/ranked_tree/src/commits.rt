//! Commits, objects and places: none of it changes what leaves there are, nor whose, nor which are frozen.
ghost use Rattle.std.specs.Prelude.{◌≡◌, ◌+◌, ◌<◌, None, Some, OnOk, OnErr, IfErr, length};
ghost use Rattle.mds_types.specs.Leaf.{leaf_of};
ghost use Rattle.inode_table.specs.Dirs.{IsLive};
ghost use Rattle.objstore.specs.Objects.{faults_told};
ghost use Rattle.std.specs.Result.{result_err};
ghost use Rattle.mds_types.specs.declared.refusals.Refusal.TheVariants.{NothingToEvict};
ghost use Rattle.dentry_cache.specs.CacheMap.{evicted};
ghost use Rattle.mdcache.specs.Core.{state_of};
ghost use Rattle.mdcache.specs.Commits.{Begins, Drops, EndsJobOf, leaf_of_job};
ghost use Rattle.mdcache.specs.Frags.{KeepsState};
ghost use Rattle.mdcache.specs.Objects.{Purges, SavesTree};
ghost use Rattle.ranked_tree.specs.Subtrees.{HoldsAt, Rules};
ghost use Rattle.ranked_tree.specs.Held.{UsesAt};
ghost use Rattle.ranked_tree.specs.Exported.{IsDivided, IsFrozenIn, held_in};
ghost use Rattle.ranked_tree.specs.Ranked.{IsFrozenLeaf, held_roots};

use crate::authorities::holder_at;
use crate::ranked_tree::RankedTree;
use crate::regions::Regions;
use cached_frag::{Encoded, Job};
use mdcache::MdCache;
use mds_types::{Dirfrag, Ino, Rank, Refusal};
use objstore::Store;
use std::alloc::Global;

impl<S: Store + Drop> RankedTree<S> {
    /// Begins a commit of a leaf that isn't frozen, at the rank that holds it, as `MdCache::begin` does and refuses.
    pub fn begin(&mut self, at: &Dirfrag) -> Result<Option<Job>, Refusal>
        requires live { IsLive self.old.tree.homes self.old.tree.covers (leaf_of at.now) }
        requires held { HoldsAt (state_of self.old.tree) (held_roots self.old) at.now }
        requires thawed { IsFrozenLeaf self.old (leaf_of at.now) → ⊥ }
        ensures begun { Begins (state_of self.old.tree) (state_of self.new.tree) (leaf_of at.now) result }
        ensures came { UsesAt (Rules (state_of self.old.tree) (held_roots self.old) (leaf_of at.now))
            (leaf_of at.now) self.old.tree.caches self.new.tree.caches }
        ensures roots { self.new.subtrees ≡ self.old.subtrees }
        ensures exports { self.new.exports ≡ self.old.exports }
        ensures count { length self.new.tree.caches.used ≡ length self.old.tree.caches.used }
        ensures cap { self.new.tree.caches.cap ≡ self.old.tree.caches.cap }
        ensures faults { self.new.tree.faults ≡ self.old.tree.faults }
    {
        begin(&mut self.tree, &self.regions, at)
    }

    /// Ends a commit, as `MdCache::end` does and refuses.
    pub fn end(&mut self, alloc: Global, encoded: &Encoded) -> Result<(), Refusal>
        ensures ended { EndsJobOf (state_of self.old.tree)
            (state_of self.new.tree) self.old.tree.faults self.new.tree.faults encoded.now.job result }
        ensures came { UsesAt (Rules (state_of self.old.tree) (held_roots self.old) (leaf_of_job encoded.now.job))
            (leaf_of_job encoded.now.job) self.old.tree.caches self.new.tree.caches }
        ensures roots { self.new.subtrees ≡ self.old.subtrees }
        ensures exports { self.new.exports ≡ self.old.exports }
        ensures count { length self.new.tree.caches.used ≡ length self.old.tree.caches.used }
        ensures cap { self.new.tree.caches.cap ≡ self.old.tree.caches.cap }
        ensures counted { self.new.tree.faults ≡ self.old.tree.faults + faults_told (result_err result) }
    {
        end(alloc, &mut self.tree, &self.regions, encoded)
    }

    /// Gives a commit up, as `MdCache::drop_job` does and refuses.
    pub fn drop_job(&mut self, number: u64) -> Result<(), Refusal>
        ensures dropped { Drops (state_of self.old.tree) (state_of self.new.tree) number result }
        ensures places { self.new.tree.caches ≡ self.old.tree.caches }
        ensures roots { self.new.subtrees ≡ self.old.subtrees }
        ensures exports { self.new.exports ≡ self.old.exports }
        ensures count { length self.new.tree.caches.used ≡ length self.old.tree.caches.used }
        ensures cap { self.new.tree.caches.cap ≡ self.old.tree.caches.cap }
        ensures faults { self.new.tree.faults ≡ self.old.tree.faults }
    {
        self.tree.drop_job(number)
    }

    /// Writes or removes the object of a directory's tree, as `MdCache::commit_tree` does and refuses.
    pub fn commit_tree(&mut self, alloc: Global, dir: Ino) -> Result<(), Refusal>
        ensures saved { SavesTree (state_of self.old.tree)
            (state_of self.new.tree) self.old.tree.faults self.new.tree.faults dir result }
        ensures places { self.new.tree.caches ≡ self.old.tree.caches }
        ensures roots { self.new.subtrees ≡ self.old.subtrees }
        ensures exports { self.new.exports ≡ self.old.exports }
        ensures count { length self.new.tree.caches.used ≡ length self.old.tree.caches.used }
        ensures cap { self.new.tree.caches.cap ≡ self.old.tree.caches.cap }
        ensures counted { self.new.tree.faults ≡ self.old.tree.faults + faults_told (result_err result) }
    {
        self.tree.commit_tree(alloc, dir)
    }

    /// Removes the first object of the purge list, as `MdCache::purge` does and refuses.
    pub fn purge(&mut self) -> Result<(), Refusal>
        ensures purged { Purges (state_of self.old.tree)
            (state_of self.new.tree) self.old.tree.faults self.new.tree.faults result }
        ensures places { self.new.tree.caches ≡ self.old.tree.caches }
        ensures roots { self.new.subtrees ≡ self.old.subtrees }
        ensures exports { self.new.exports ≡ self.old.exports }
        ensures count { length self.new.tree.caches.used ≡ length self.old.tree.caches.used }
        ensures cap { self.new.tree.caches.cap ≡ self.old.tree.caches.cap }
        ensures counted { self.new.tree.faults ≡ self.old.tree.faults + faults_told (result_err result) }
    {
        self.tree.purge()
    }

    /// Drops the least recently used of the clean fragments of a rank, as `MdCache::evict` does and refuses.
    pub fn evict(&mut self, rank: Rank) -> Result<(), Refusal>
        requires there { rank.0 < length self.old.tree.caches.used }
        ensures evicted { OnOk result (evicted self.old.tree.caches rank.0 None ≡ Some self.new.tree.caches) }
        ensures none { OnErr result (evicted self.old.tree.caches rank.0 None ≡ None) }
        ensures kept { KeepsState self.old.tree self.new.tree (result_err result) }
        ensures roots { self.new.subtrees ≡ self.old.subtrees }
        ensures exports { self.new.exports ≡ self.old.exports }
        ensures refused { IfErr result (λ reason. reason ≡ NothingToEvict) }
        ensures left { OnErr result (self.new.tree ≡ self.old.tree) }
    {
        self.tree.evict(rank)
    }
}

// Begins a commit of a leaf at the rank that holds it.
fn begin<S: Store + Drop>(
    tree: &mut MdCache<S>,
    regions: &Regions,
    at: &Dirfrag,
) -> Result<Option<Job>, Refusal>
    requires divided { IsDivided tree.old regions.now }
    requires live { IsLive tree.old.homes tree.old.covers (leaf_of at.now) }
    requires held { HoldsAt (state_of tree.old) (held_in regions.now) at.now }
    requires thawed { IsFrozenIn (state_of tree.old) regions.now (leaf_of at.now) → ⊥ }
    ensures begun { Begins (state_of tree.old) (state_of tree.new) (leaf_of at.now) result }
    ensures came { UsesAt (Rules (state_of tree.old) (held_in regions.now) (leaf_of at.now))
        (leaf_of at.now) tree.old.caches tree.new.caches }
    ensures count { length tree.new.caches.used ≡ length tree.old.caches.used }
    ensures cap { tree.new.caches.cap ≡ tree.old.caches.cap }
    ensures faults { tree.new.faults ≡ tree.old.faults }
    ensures divided { IsDivided tree.new regions.now }
{
    tree.begin(at)
}

// Ends a commit at the rank that holds its leaf. Where there is no such leaf no job of it stands.
fn end<S: Store + Drop>(
    alloc: Global,
    tree: &mut MdCache<S>,
    regions: &Regions,
    encoded: &Encoded,
) -> Result<(), Refusal>
    requires divided { IsDivided tree.old regions.now }
    ensures ended { EndsJobOf (state_of tree.old)
        (state_of tree.new) tree.old.faults tree.new.faults encoded.now.job result }
    ensures came { UsesAt (Rules (state_of tree.old) (held_in regions.now) (leaf_of_job encoded.now.job))
        (leaf_of_job encoded.now.job) tree.old.caches tree.new.caches }
    ensures count { length tree.new.caches.used ≡ length tree.old.caches.used }
    ensures cap { tree.new.caches.cap ≡ tree.old.caches.cap }
    ensures counted { tree.new.faults ≡ tree.old.faults + faults_told (result_err result) }
    ensures divided { IsDivided tree.new regions.now }
{
    let job = encoded.job();
    let Some(rank) = holder_at(tree, regions, Rank(0), job.ino, job.frag) else {
        return Err(Refusal::StaleJob);
    };
    tree.end(alloc, rank, encoded)
}
