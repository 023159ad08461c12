//! Operations run over the tree that is shown: each leaf is asked, and changed, at the rank that holds it.
ghost use Rattle.std.specs.Prelude.{◌≡◌, true, IfOk, IfErr, OnOk};
ghost use Rattle.std.specs.Result.{result_err};
ghost use Rattle.std.specs.FinMap as map;
ghost use Rattle.mds_types.specs.Leaf.{leaf_of};
ghost use Rattle.namespace_ops.specs.Places.{LiesAt};
ghost use Rattle.mdcache.specs.Frags.{KeepsState};
ghost use Rattle.mdcache.specs.Core.{state_of};
ghost use Rattle.mdcache.specs.Reads.{MayNotFind};
ghost use Rattle.mdcache.specs.Shown.{shown_tree};
ghost use Rattle.ranked_tree.specs.Held.{IsNewestHeld, IsOwned, LacksPlacesFor, ReadsDir};
ghost use Rattle.ranked_tree.specs.Exported.{held_in};
ghost use Rattle.ranked_tree.specs.Subtrees.{HoldsAt};

use crate::authorities::locate;
use crate::listing::list_dir;
use crate::ranked_tree::RankedTree;
use crate::regions::Regions;
use mdcache::MdCache;
use mds_types::{Dentry, Dirfrag, Frag, Ino, Inode, Listing, Name, Op, PageSize, Rank, Refusal};
use namespace_ops::{Change, Frags, Located};
use objstore::Store;
use std::alloc::Global;

impl<S: Store + Drop> Frags for RankedTree<S> {
    ghost use Rattle.std.specs.Prelude.{refl};
    ghost use Rattle.dirfrag_codec.specs.EntryRecord.{IsRankNumber};
    ghost use Rattle.std.proofs.Common.{inl, ◌∙◌, ap, subst, sym, ⊎_elim};
    ghost use Rattle.dentry_cache.specs.Came.{NoneEnds};
    ghost use Rattle.dentry_cache.specs.Reads.{Reads};
    ghost use Rattle.dentry_cache.specs.Reads.Reads.{stays};
    ghost use Rattle.dentry_cache.proofs.ReadsLaws.{reads_then, reads_weaker};
    ghost use Rattle.inode_table.specs.Dirs.{IsLive};
    ghost use Rattle.namespace_ops.specs.Changes.{Concerns};
    ghost use Rattle.subtree_map.specs.Authority.{Leaf, Roots};
    ghost use Rattle.mdcache.specs.State.{State as TreeState};
    ghost use Rattle.mdcache.proofs.FragsLaws.{keeps_itself, keeps_on, keeps_refused, lacked_asked, refused_later, refused_so, untouched_by, untouched_on};
    ghost use Rattle.ranked_tree.specs.Held.{AsksFor, ComesFor, LacksPlacesAsked, ReadsFor};
    ghost use Rattle.ranked_tree.specs.Subtrees.{HoldsAt, Rules};
    ghost use Rattle.mds_types.specs.declared.ids.Ino.{Ino as Number};
    ghost use Rattle.mds_types.specs.declared.ids.Rank.{Rank as RankNumber};
    ghost use Rattle.std.specs.Prelude.{None, Option, ℕ};
    ghost use Rattle.mds_types.specs.declared.refusals.Refusal.TheVariants.{NoInodes, NoMemory};
    ghost use Rattle.mdcache.specs.Made.{IsUntouched};
    ghost use Rattle.mdcache.specs.Shown.{shown_tree};
    ghost use Rattle.ranked_tree.specs.Ranked.{IsFrozenLeaf, KeepsRanked, MayRefuse, held_roots};
    ghost use Rattle.export_steps.specs.Holder.{IsFrozen, holding};
    ghost use Rattle.export_steps.specs.Standing.{Standing};

    ghost content = { λ t. shown_tree (state_of t.tree) };

    ghost covers = { λ t. t.tree.covers };

    ghost IsNumber = { λ n. IsRankNumber n };

    ghost Holds = { λ t at. HoldsAt (state_of t.tree) (held_roots t) at };

    ghost MayTouch = { λ t leaf. (IsFrozenLeaf t leaf → ⊥) };

    ghost Follows = { λ a b op told. KeepsRanked a b op told };

    ghost Unchanged = { λ a b leaf. IsUntouched (state_of a.tree) (state_of b.tree) leaf };

    ghost MayRefuse = { λ a b op reason. MayRefuse a b op reason };

    ghost follows_self = { λ a op. record { tree = keeps_itself a.tree; roots = refl; exports = refl; reads = (None, λ none. refl, stays) } };

    ghost follows_on = { λ a b c op told p q. record {
      tree = keeps_on a.tree b.tree c.tree told p.tree q.tree;
      roots = q.roots ∙ p.roots;
      exports = q.exports ∙ p.exports;
      reads = (
        q.reads.0,
        q.reads.1,
        reads_then (AsksFor (state_of a.tree) (held_roots a) (Concerns op) (ComesFor (state_of a.tree) (held_roots a) op q.reads.0)) NoneEnds a.tree.objects a.tree.caches b.tree.caches c.tree.caches
            (reads_weaker (AsksFor (state_of a.tree) (held_roots a) (Concerns op) (ComesFor (state_of a.tree) (held_roots a) op None)) NoneEnds (AsksFor (state_of a.tree) (held_roots a) (Concerns op) (ComesFor (state_of a.tree) (held_roots a) op q.reads.0)) NoneEnds
            (λ r l. ⊎_elim (λ held. inl held) (λ none. absurd none)) (λ r l none. none) a.tree.objects a.tree.caches b.tree.caches
            (subst (λ (n : Option Number). ReadsFor (held_roots a) (Concerns op) (ComesFor (state_of a.tree) (held_roots a) op n) a.tree b.tree) (p.reads.1 refl) p.reads.2))
            (subst (λ (s : TreeState). Reads (AsksFor s (held_roots a) (Concerns op) (ComesFor s (held_roots a) op q.reads.0)) NoneEnds s.objects b.tree.caches c.tree.caches) p.tree.state
            (subst (λ (r : Roots). ReadsFor r (Concerns op) (ComesFor (state_of b.tree) r op q.reads.0) b.tree c.tree) (ap (λ (r : Roots). holding b.exports r) p.roots ∙ ap (λ (e : Standing). holding e a.subtrees.roots) p.exports) q.reads.2)),
      );
    } };

    ghost held_on = { λ a b op told at kept. (
      λ holds. subst (λ (r : Roots). HoldsAt (state_of b.tree) r at) (sym (ap (λ (r : Roots). holding b.exports r) kept.roots ∙ ap (λ (e : Standing). holding e a.subtrees.roots) kept.exports)) (subst (λ (s : TreeState). HoldsAt s (held_roots a) at) (sym kept.tree.state) holds),
      λ holds. subst (λ (r : Roots). HoldsAt (state_of a.tree) r at) (ap (λ (r : Roots). holding b.exports r) kept.roots ∙ ap (λ (e : Standing). holding e a.subtrees.roots) kept.exports) (subst (λ (s : TreeState). HoldsAt s (held_roots b) at) kept.tree.state holds),
    ) };

    ghost touch_on = { λ a b op told leaf kept may frozen. may
        (subst (λ (e : Standing). IsFrozen e a.subtrees.roots a.tree.homes a.tree.covers leaf) kept.exports
        (subst (λ (r : Roots). IsFrozen b.exports r a.tree.homes a.tree.covers leaf) kept.roots
        (subst (λ (s : TreeState). IsFrozen b.exports b.subtrees.roots s.homes s.covers leaf) kept.tree.state frozen))) };

    ghost follows_memory = { λ a b op p. record { tree = keeps_refused a.tree b.tree NoMemory refl p.tree; roots = p.roots; exports = p.exports; reads = (p.reads.0, λ none. p.reads.1 refl, p.reads.2) } };

    ghost follows_number = { λ a b op p. record { tree = keeps_refused a.tree b.tree NoInodes refl p.tree; roots = p.roots; exports = p.exports; reads = (p.reads.0, λ none. p.reads.1 refl, p.reads.2) } };

    ghost unchanged_by = { λ a b op leaf told kept. untouched_by a.tree b.tree leaf told kept.tree };

    ghost unchanged_self = { λ a leaf. untouched_by a.tree a.tree leaf None (keeps_itself a.tree) };

    ghost unchanged_on = { λ a b c leaf p q. untouched_on a.tree b.tree c.tree leaf p q };

    ghost refused_on = { λ a b c op reason kept because. refused_later
        (LacksPlacesAsked 2 b.tree (held_roots b) (Concerns op))
        (LacksPlacesAsked 2 a.tree (held_roots a) (Concerns op))
        a.tree b.tree c.tree op reason
        (λ lacks.
        let now = subst (λ (r : Roots). LacksPlacesAsked 2 b.tree r (Concerns op)) (ap (λ (r : Roots). holding b.exports r) kept.roots ∙ ap (λ (e : Standing). holding e a.subtrees.roots) kept.exports) lacks in
        let before = lacked_asked 2 (λ (s : TreeState) (d : ℕ). Concerns op d) (λ (s : TreeState) (leaf : Leaf) (rank : RankNumber). IsLive s.homes s.covers leaf × Rules s (held_roots a) leaf rank) a.tree b.tree kept.tree (now.0, now.1, now.3.0, (now.2, now.3.1), now.3.2) in
        (before.0, before.1, before.3.0, (before.2, before.3.1, before.4)))
        kept.tree because };

    ghost refused_for = { λ a b op reason because. refused_so
        (LacksPlacesAsked 2 a.tree (held_roots a)
        (Concerns op)) a.tree b.tree op reason because };

    fn is_dir(&self, dir: Ino) -> bool {
        self.tree.is_dir(dir)
    }

    fn is_above(&self, dir: Ino, below: Ino) -> bool {
        self.tree.is_above(dir, below)
    }

    fn is_empty(&self, dir: Ino) -> bool {
        self.tree.is_dir_empty(dir)
    }

    fn locate(&self, rank: Rank, dir: Ino, hash: u32) -> Option<Located> {
        locate(&self.tree, &self.regions, rank, dir, hash)
    }

    fn leaves(&self, alloc: Global, dir: Ino) -> Result<Vec<Frag>, Refusal> {
        Ok(self.tree.leaves(alloc, dir)?)
    }

    fn look(&mut self, _op: &Op, dentry: &Dentry, at: &Dirfrag) -> Result<Option<Inode>, Refusal> {
        look(self.alloc, &mut self.tree, &self.regions, dentry, at)
    }

    fn list_after(
        &mut self,
        alloc: Global,
        _op: &Op,
        dir: Ino,
        after: Option<&Name>,
        max: PageSize,
    ) -> Result<(Listing, bool), Refusal> {
        list_dir(alloc, &mut self.tree, &self.regions, dir, after, max)
    }

    fn change(&mut self, _op: &Op, change: Change) -> Result<(), Refusal> {
        self.make_change(change)
    }
}

// The inode at a dentry, copied; its leaf is asked at the rank that holds it.
fn look<S: Store + Drop>(
    alloc: Global,
    tree: &mut MdCache<S>,
    regions: &Regions,
    dentry: &Dentry,
    at: &Dirfrag,
) -> Result<Option<Inode>, Refusal>
    requires at { LiesAt (shown_tree (state_of tree.old)) tree.old.covers
        (HoldsAt (state_of tree.old) (held_in regions.now)) dentry.now at.now }
    requires owned { IsOwned tree.old (held_in regions.now) }
    ensures found { IfOk result (λ found. found ≡ map.get (shown_tree (state_of tree.old)) dentry.now) }
    ensures kept { KeepsState tree.old tree.new (result_err result) }
    ensures newest { OnOk result
        (IsNewestHeld (state_of tree.old) (held_in regions.now) tree.new.caches (leaf_of at.now)) }
    ensures reads { ReadsDir (held_in regions.now) dentry.now.dir tree.old tree.new }
    ensures owned { IsOwned tree.new (held_in regions.now) }
    ensures refused { IfErr result
        (MayNotFind (LacksPlacesFor 1 tree.old (held_in regions.now) (leaf_of at.now)) tree.old.faults
        tree.new.faults) }
{
    tree.look(alloc, at, &dentry.name)
}
