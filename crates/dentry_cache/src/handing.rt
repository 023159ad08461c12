//! Fragments that go from one rank to another: all growth comes first.
ghost use Rattle.std.specs.Prelude.{◌≡◌, ◌≢◌, ◌<◌, true, false, Some, None, length, IfErr, OnErr, OnOk};
ghost use Rattle.std.specs.List.{AllByRecursion, IsDistinct};
ghost use Rattle.mds_types.specs.declared.refusals.Refusal.TheVariants.{NoMemory};
ghost use Rattle.mds_types.specs.Leaf.{leaf_is, leaf_of};
ghost use Rattle.dentry_cache.specs.CacheCalls.{CanKeep, CanNotKeep};
ghost use Rattle.dentry_cache.specs.CacheMap.{AreCaches, has_place, unclean as unclean_leaves};
ghost use Rattle.dentry_cache.specs.Handing.{AreCleanAt, AreHanded, AreUncleanAt, HandsFragmentsOver, HaveNoPlace, MayNotHandOver, WantsPlace, kept_all, moved, moved_all, without_all};

use crate::caches::Caches;
use mds_types::{Dirfrag, Frag, Ino, Rank, Refusal};
use std::alloc::Global;

impl Caches {
    /// What a rank caches of these leaves goes to another rank: each fragment that isn't clean is there as it was, but
    /// of generation 0, and the first of the list is the most recently used; what is clean is cached no more. First a
    /// place of the other rank is kept for each that isn't clean, where the least recently used of that rank's clean
    /// fragments go. Takes memory for the places.
    ///
    /// Refused `NothingToEvict` where fewer places of the other rank are free or can become so, and all is as it was
    /// then; where as many are, refused `NoMemory` alone. No place is kept then, and nothing went; clean fragments of
    /// the other rank may have gone.
    pub fn hand_over(
        &mut self,
        alloc: Global,
        from: Rank,
        to: Rank,
        unclean: &[(Ino, Frag)],
        clean: &[(Ino, Frag)],
    ) -> Result<(), Refusal>
        requires apart { from.0 ≢ to.0 }
        requires there { from.0 < length self.old.used }
        requires other { to.0 < length self.old.used }
        requires cached { AreUncleanAt self.old from.0 unclean.now }
        requires absent { HaveNoPlace self.old to.0 unclean.now }
        requires once { IsDistinct leaf_is unclean.now }
        ensures handed { OnOk result (HandsFragmentsOver from.0 to.0 unclean.now clean.now self.old self.new) }
        ensures refused { IfErr result (MayNotHandOver to.0 unclean.now self.old self.new) }
        ensures unsaved { AreCleanAt self.old from.0 clean.now
            → OnOk result (AreHanded unclean.now (unclean_leaves self.old) (unclean_leaves self.new)) }
        ensures left { OnErr result (unclean_leaves self.new ≡ unclean_leaves self.old) }
        ensures valid { AreCaches self.old }
    {
        if !self.has_room_for(to, unclean.len()) {
            return Err(Refusal::NothingToEvict);
        }
        match self.keep_all(alloc, to, unclean) {
            Ok(()) => {
                self.move_all(from, to, unclean);
                self.forget_all(from, clean);
                Ok(())
            }
            Err(refusal) => Err(refusal),
        }
    }

    // Whether so many places of a rank are free, or can become so.
    fn has_room_for(&self, rank: Rank, count: usize) -> bool
        requires { rank.0 < length self.now.used }
        ensures can { result ≡ true → CanKeep count self.now rank.0 None }
        ensures lacks { result ≡ false → CanNotKeep count self.now rank.0 None }
        ensures valid { AreCaches self.now }
    {
        self.caches[rank.0 as usize].can_keep(count, None)
    }

    // Keeps a place of a rank for each of these leaves. There are as many that are free or can become so.
    fn keep_all(&mut self, alloc: Global, rank: Rank, leaves: &[(Ino, Frag)]) -> Result<(), Refusal>
        requires there { rank.0 < length self.old.used }
        requires absent { HaveNoPlace self.old rank.0 leaves.now }
        requires once { IsDistinct leaf_is leaves.now }
        requires can { CanKeep (length leaves.now) self.old rank.0 None }
        requires valid { AreCaches self.old }
        ensures kept { OnOk result (kept_all self.old rank.0 leaves.now ≡ Some self.new) }
        ensures refused { IfErr result (λ reason. reason ≡ NoMemory) }
        ensures wants { OnErr result (WantsPlace rank.0 leaves.now self.old self.new) }
    {
        let mut i = leaves.len();
        while i > 0 {
            i -= 1;
            let leaf = leaves[i];
            if let Err(refusal) = self.keep(alloc, at(leaf, rank), None) {
                let (_, kept) = leaves.split_at(i + 1);
                self.forget_all(rank, kept);
                return Err(refusal);
            }
        }
        Ok(())
    }

    // Each of these fragments goes to the place that is kept for it.
    fn move_all(&mut self, from: Rank, to: Rank, leaves: &[(Ino, Frag)])
        requires apart { from.0 ≢ to.0 }
        requires there { from.0 < length self.old.used }
        requires other { to.0 < length self.old.used }
        requires placed { AllByRecursion (λ leaf. has_place self.old to.0 leaf ≡ true) leaves.now }
        ensures { self.new ≡ moved_all self.old from.0 to.0 leaves.now }
    {
        let mut i = leaves.len();
        while i > 0 {
            i -= 1;
            let leaf = leaves[i];
            self.move_one(&at(leaf, from), to);
        }
    }

    // A fragment goes to the place that another rank keeps for it.
    fn move_one(&mut self, at: &Dirfrag, to: Rank)
        requires apart { at.now.rank.0 ≢ to.0 }
        requires there { at.now.rank.0 < length self.old.used }
        requires other { to.0 < length self.old.used }
        requires placed { has_place self.old to.0 (leaf_of at.now) ≡ true }
        ensures { self.new ≡ moved self.old at.now.rank.0 to.0 (leaf_of at.now) }
    {
        let Some(fragment) = self.take(*at) else {
            return;
        };
        let place = Dirfrag {
            dir: at.dir,
            frag: at.frag,
            rank: to,
        };
        self.fill(place, fragment.imported());
    }

    // Gives up the places of these leaves at a rank, each with the fragment that is in it.
    fn forget_all(&mut self, rank: Rank, leaves: &[(Ino, Frag)])
        requires { rank.0 < length self.old.used }
        ensures { self.new ≡ without_all self.old rank.0 leaves.now }
    {
        let mut i = leaves.len();
        while i > 0 {
            i -= 1;
            let leaf = leaves[i];
            self.forget(at(leaf, rank));
        }
    }
}

// A leaf at a rank.
fn at(leaf: (Ino, Frag), rank: Rank) -> Dirfrag
    ensures { result ≡ record { dir = leaf.0; frag = leaf.1; rank = rank } }
{
    Dirfrag {
        dir: leaf.0,
        frag: leaf.1,
        rank,
    }
}
