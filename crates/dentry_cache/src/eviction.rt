//! Places for others: the least recently used of the clean fragments goes.
ghost use Rattle.std.specs.Prelude.{◌≡◌, ◌+◌, ◌<◌, ◌≤◌, true, false, filter, length, MatchOption, None, OnOk, IfErr, OnErr};
ghost use Rattle.mds_types.specs.declared.refusals.Refusal.TheVariants.{NothingToEvict};
ghost use Rattle.dentry_cache.specs.Cache.{Evicts, IsFull, IsOldest, MakesRoom, NoneGoes, is_evictable, may_go, is_to_stay};

use crate::cache::{Cache, Place};
use mds_types::{Frag, Ino, Refusal};

impl Place {
    // Whether it holds a clean fragment.
    fn is_evictable(&self) -> bool
        ensures { result ≡ is_evictable self.now }
    {
        !self.kept && self.frag.is_clean()
    }
}

impl Cache {
    /// Drops the least recently used of the clean fragments. Takes no memory.
    ///
    /// Refused `NothingToEvict` where no fragment is clean.
    pub fn evict(&mut self) -> Result<(), Refusal>
        ensures evicted { OnOk result (Evicts None self.old self.new) }
        ensures refused { IfErr result (λ refusal. refusal ≡ NothingToEvict) }
        ensures none { OnErr result (NoneGoes None self.old.entries) }
        ensures same { OnErr result (self.new ≡ self.old) }
    {
        self.drop_oldest(None)
    }

    // Whether so many places are free, or can become so while a fragment is to stay. From the least recently used on,
    // no more places are looked at than that takes.
    pub(crate) fn can_keep(&self, count: usize, stay: Option<(Ino, Frag)>) -> bool
        ensures can { result ≡ true → length self.now.entries + count ≤ self.now.cap + length
            (filter (may_go stay) self.now.entries) }
        ensures lacks { result ≡ false → self.now.cap + length
            (filter (may_go stay) self.now.entries) < length self.now.entries + count }
    {
        let mut found = self.capacity() - self.len();
        let mut rest = self.places.iter();
        while let Some((leaf, place)) = rest.next_back() {
            if found >= count {
                return true;
            }
            found += usize::from(may_go(&stay, leaf, place));
        }
        found >= count
    }

    // Makes a place free, if none is.
    pub(crate) fn make_room(&mut self, stay: Option<(Ino, Frag)>) -> Result<(), Refusal>
        ensures room { OnOk result (MakesRoom stay self.old self.new) }
        ensures free { OnOk result (length self.new.entries < self.new.cap) }
        ensures refused { IfErr result (λ refusal. refusal ≡ NothingToEvict) }
        ensures full { OnErr result (IsFull stay self.old) }
        ensures same { OnErr result (self.new ≡ self.old) }
    {
        if self.len() < self.capacity() {
            return Ok(());
        }
        self.drop_oldest(stay)
    }

    // Drops the least recently used of the clean fragments but for one.
    fn drop_oldest(&mut self, stay: Option<(Ino, Frag)>) -> Result<(), Refusal>
        ensures evicted { OnOk result (Evicts stay self.old self.new) }
        ensures free { OnOk result (length self.new.entries < self.new.cap) }
        ensures refused { IfErr result (λ refusal. refusal ≡ NothingToEvict) }
        ensures none { OnErr result (NoneGoes stay self.old.entries) }
        ensures same { OnErr result (self.new ≡ self.old) }
    {
        // The contract of `len` is what says here that no leaf has two places.
        let _ = self.places.len();
        match self.oldest(stay) {
            Some(leaf) => {
                drop(self.give_up(&leaf));
                Ok(())
            }
            None => Err(Refusal::NothingToEvict),
        }
    }

    // The least recently used of the clean fragments but for one. Only the places behind it are looked at.
    fn oldest(&self, stay: Option<(Ino, Frag)>) -> Option<(Ino, Frag)>
        ensures { MatchOption result (NoneGoes stay self.now.entries) (IsOldest stay self.now.entries) }
    {
        let mut places = self.places.iter();
        while let Some((leaf, place)) = places.next_back() {
            if may_go(&stay, leaf, place) {
                return Some(*leaf);
            }
        }
        None
    }
}

// Whether a fragment may go, while another one is to stay.
fn may_go(stay: &Option<(Ino, Frag)>, leaf: &(Ino, Frag), place: &Place) -> bool
    ensures { result ≡ may_go stay.now (leaf.now, place.now) }
{
    place.is_evictable() && !stays(stay, leaf)
}

// Whether a leaf is the one that is to stay.
fn stays(stay: &Option<(Ino, Frag)>, leaf: &(Ino, Frag)) -> bool
    ensures { result ≡ is_to_stay stay.now leaf.now }
{
    match stay {
        Some(one) => one == leaf,
        None => false,
    }
}
