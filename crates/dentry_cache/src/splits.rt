//! Fragments split into their children at their rank, in one call that can't be refused once all is ready.
ghost use Rattle.std.specs.Prelude.{◌≡◌, ◌+◌, ◌≤◌, ◌<◌, ◌^◌, true, false, Some, length, IfOk, IfErr, OnOk, OnErr};
ghost use Rattle.std.specs.FinMap as map;
ghost use Rattle.sorted_map.specs.SortedMap.{contents};
ghost use Rattle.objstore.specs.Omap.{key_cmp};
ghost use Rattle.mds_types.specs.Frag.{child_of};
ghost use Rattle.mds_types.specs.declared.refusals.Refusal.TheVariants.{NoMemory};
ghost use Rattle.mds_types.specs.Leaf.{leaf_of};
ghost use Rattle.cached_frag.specs.Cached.{AreEntries, Cached, shown_names};
ghost use Rattle.dentry_cache.specs.Cache.{HasCached, IsThere};
ghost use Rattle.dentry_cache.specs.CacheCalls.{CanKeep, CanNotKeep};
ghost use Rattle.dentry_cache.specs.CacheMap.{AreCaches, cached_at, given_up, here};
ghost use Rattle.dentry_cache.specs.CacheSplits.{AreAbsent, AreFillable, HaveKeptPlaces, IsReadyAt, KeepsAll, MayNotKeepAll, ReadiesAt, ReadsFamily, RefusesAt, SplitsInto, StaysAt, WantsChild, with_parts, without_children};
ghost use Rattle.dentry_cache.specs.Divided.{AreNumbered};

use crate::caches::Caches;
use crate::dividing::divide;
use crate::parts::{Part, Parts};
use crate::splitting::child_count;
use mds_types::{Dirfrag, Inode, Name, Refusal};
use sorted_map::SortedMap;
use std::alloc::Global;

impl Caches {
    /// Makes all ready for a split of a fragment by so many bits (`split_into`): a place of its rank is kept for each
    /// child, one after the other, and each child has room for its names. The children's generations follow one
    /// another from this number on. Where no place is free the least recently used of the rank's clean fragments goes,
    /// but for the fragment itself, which stays. Takes memory for the children and their places.
    ///
    /// Refused `NothingToEvict` where fewer places of the rank are free or can become so than there will be children,
    /// beside that of the fragment; all is as it was then. Where as many are, refused `NoMemory` alone. No place is
    /// kept then; clean fragments may have gone, but for the fragment itself.
    pub fn ready_split(
        &mut self,
        alloc: Global,
        at: Dirfrag,
        bits: u8,
        generation: u64,
    ) -> Result<Parts, Refusal>
        requires there { at.rank.0 < length self.old.used }
        requires some { 1 ≤ bits }
        requires few { bits ≤ 8 }
        requires deep { at.frag.bits + bits ≤ 24 }
        requires numbers { generation + 2 ^ bits ≤ 2 ^ 64 }
        requires cached { IsThere (here self.old at.rank.0 (leaf_of at)) }
        requires absent { AreAbsent self.old at.rank.0 at.dir at.frag bits }
        ensures ready { IfOk result (IsReadyAt at.rank.0 at.dir at.frag bits self.new) }
        ensures numbered { IfOk result (λ parts. AreNumbered generation parts) }
        ensures kept { OnOk result (HaveKeptPlaces self.new at.rank.0 at.dir at.frag bits) }
        ensures readies { OnOk result (ReadiesAt at.rank.0 at.dir at.frag bits self.old self.new) }
        ensures left { OnErr result (AreAbsent self.new at.rank.0 at.dir at.frag bits) }
        ensures refuses { IfErr result (RefusesAt at.rank.0 at.dir at.frag bits self.old self.new) }
        ensures stays { StaysAt at.rank.0 (leaf_of at) self.old self.new }
        ensures reads { ReadsFamily at.rank.0 at.dir at.frag bits self.old self.new }
        ensures refused { IfErr result (MayNotKeepAll (2 ^ bits) self.old at.rank.0) }
    {
        if !self.can_keep(&at, bits) {
            return Err(Refusal::NothingToEvict);
        }
        let parts = match self.ready_parts(alloc, &at, bits, generation) {
            Ok(parts) => parts,
            Err(_) => return Err(Refusal::NoMemory),
        };
        match self.keep_children(alloc, &at, bits) {
            Ok(()) => Ok(parts),
            Err(refusal) => {
                drop(parts);
                Err(refusal)
            }
        }
    }

    /// Gives up the places of a fragment's children by so many bits, as they are kept for a split that isn't made.
    /// Takes no memory.
    pub fn drop_children(&mut self, at: Dirfrag, bits: u8)
        requires there { at.rank.0 < length self.old.used }
        requires few { bits ≤ 8 }
        requires deep { at.frag.bits + bits ≤ 24 }
        ensures { self.new ≡ without_children at.rank.0 at.dir at.frag bits (2 ^ bits) self.old }
    {
        for i in 0..child_count(bits) {
            self.forget(child_at(&at, i, bits));
        }
    }

    /// Splits a fragment, where all is ready for it (`ready_split`): each of its names goes to the child that its hash
    /// picks. A child has a fresh base, and all its names are dirty at this version. The fragment is gone, and its
    /// children are the most recently used of its rank, the last one first. Takes no memory, and can't fail.
    pub fn split_into(&mut self, at: Dirfrag, bits: u8, parts: Parts, version: u64)
        requires there { at.rank.0 < length self.old.used }
        requires some { 1 ≤ bits }
        requires deep { at.frag.bits + bits ≤ 24 }
        requires ready { IsReadyAt at.rank.0 at.dir at.frag bits self.old parts }
        requires kept { HaveKeptPlaces self.old at.rank.0 at.dir at.frag bits }
        ensures { SplitsInto at.rank.0 at.dir at.frag bits parts version self.old self.new }
    {
        let names = self.give_names(&at);
        let mut items = parts.items;
        divide(&mut items, at.frag, bits, names, version);
        self.fill_all(&at, items);
    }

    // Whether there will be a place for each child: one that is free, or becomes so where a clean fragment goes, but
    // for the one that splits.
    fn can_keep(&self, at: &Dirfrag, bits: u8) -> bool
        requires there { at.now.rank.0 < length self.now.used }
        requires few { bits ≤ 8 }
        ensures can { result ≡ true → CanKeep (2 ^ bits) self.now at.now.rank.0 (Some (leaf_of at.now)) }
        ensures lacks { result ≡ false → CanNotKeep (2 ^ bits) self.now at.now.rank.0 (Some (leaf_of at.now)) }
        ensures valid { AreCaches self.now }
    {
        let cache = &self.caches[at.rank.0 as usize];
        cache.can_keep(child_count(bits) as usize, Some((at.dir, at.frag)))
    }

    // Keeps a place for each child. There are as many that are free or can become so.
    fn keep_children(&mut self, alloc: Global, at: &Dirfrag, bits: u8) -> Result<(), Refusal>
        requires there { at.now.rank.0 < length self.old.used }
        requires some { 1 ≤ bits }
        requires few { bits ≤ 8 }
        requires deep { at.now.frag.bits + bits ≤ 24 }
        requires absent { AreAbsent self.old at.now.rank.0 at.now.dir at.now.frag bits }
        requires valid { AreCaches self.old }
        requires can { CanKeep (2 ^ bits) self.old at.now.rank.0 (Some (leaf_of at.now)) }
        ensures kept { OnOk result (HaveKeptPlaces self.new at.now.rank.0 at.now.dir at.now.frag bits) }
        ensures keeps { OnOk result (KeepsAll at.now.rank.0 at.now.dir at.now.frag bits self.old self.new) }
        ensures left { OnErr result (AreAbsent self.new at.now.rank.0 at.now.dir at.now.frag bits) }
        ensures refuses { OnErr result (WantsChild at.now.rank.0 at.now.dir at.now.frag bits self.old self.new) }
        ensures stays { here self.new at.now.rank.0 (leaf_of at.now) ≡ here self.old at.now.rank.0 (leaf_of at.now) }
        ensures reads { ReadsFamily at.now.rank.0 at.now.dir at.now.frag bits self.old self.new }
        ensures refused { IfErr result (λ reason. reason ≡ NoMemory) }
    {
        for i in 0..child_count(bits) {
            let child = child_at(at, i, bits);
            if let Err(refusal) = self.keep(alloc, child, Some((at.dir, at.frag))) {
                self.drop_children(*at, bits);
                return Err(refusal);
            }
        }
        Ok(())
    }

    // Takes a fragment out that is ready for it, and gives away the names that it shows.
    fn give_names(&mut self, at: &Dirfrag) -> SortedMap<Name, Inode>
        requires there { at.now.rank.0 < length self.old.used }
        requires ready { HasCached (cached_at self.old at.now) (λ (f : Cached). map.len f.dirty ≤ f.places) }
        ensures names { HasCached (cached_at self.old at.now) (λ (f : Cached). contents key_cmp result ≡ shown_names f) }
        ensures entries { AreEntries (contents key_cmp result) }
        ensures without { self.new ≡ given_up self.old at.now.rank.0 (leaf_of at.now) }
    {
        match self.take(*at) {
            Some(fragment) => fragment.into_names(),
            None => unreachable!(),
        }
    }

    // Fills the places of these children.
    fn fill_all(&mut self, at: &Dirfrag, parts: Vec<Part>)
        requires there { at.now.rank.0 < length self.old.used }
        requires kept { AreFillable at.now.rank.0 at.now.dir parts.items self.old }
        ensures { self.new ≡ with_parts at.now.dir at.now.rank.0 parts.items self.old }
    {
        for part in parts {
            let child = Dirfrag {
                dir: at.dir,
                frag: part.frag,
                rank: at.rank,
            };
            self.fill(child, part.fragment);
        }
    }
}

// The child of so many more bits at this place among them, at the same rank.
fn child_at(at: &Dirfrag, i: u32, bits: u8) -> Dirfrag
    requires deep { at.now.frag.bits + bits ≤ 24 }
    requires among { i < 2 ^ bits }
    ensures { result ≡ record at.now { frag = child_of at.now.frag i bits } }
{
    match at.frag.child(i, bits) {
        Some(frag) => Dirfrag {
            dir: at.dir,
            frag,
            rank: at.rank,
        },
        None => unreachable!(),
    }
}
