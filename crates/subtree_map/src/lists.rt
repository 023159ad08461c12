//! `Lists`: for each rank a list of what it knows of leaves. A contract sees the roots, which are what all of them
//! claim.
ghost use Rattle.std.specs.Prelude.{◌^◌, ◌≡◌, ◌+◌, ◌<◌, ◌≤◌, false, None, Some, IsOk, IsSome, IfErr, IfOk, IfSome, OnErr, OnOk, is_some, length};
ghost use Rattle.std.specs.FinMap as map;
ghost use Rattle.mds_types.specs.Leaf.{Leaf};
ghost use Rattle.mds_types.specs.declared.refusals.Refusal.TheVariants.{NoMemory};
ghost use Rattle.subtree_map.specs.Changes.{AreGone};
ghost use Rattle.subtree_map.specs.Lists.{AreEach, HasGrown, HasHints, HasSame, HaveNone, IsClaimed, home_of, is_leaf_after};
ghost use Rattle.subtree_map.specs.Rows.{IsFirst};

use crate::entries::{Known, News};
use crate::list_changes::{correct, drop_each, has_rows, hint_each, reserve_each};
use crate::list_firsts::first_claim;
use crate::list_learning::learn_all;
use crate::list_rows::{Rows, claim_by, claim_in, home_of, promise_in, tell};
use mds_types::{Frag, Ino, Rank, Refusal};
use sorted_map::SortedMap;
use std::alloc::{AllocError, Global};
use std::marker::Model;

/// For each rank a list, rank 0 first: the roots that it claims, those of others with the rank last known, and those
/// promised to it. Each root is claimed in one list, that of its rank, and a promise stands in one. Ranks that have no
/// list of their own share the last one. Each list has room for so many more rows.
#[derive(Debug, Drop)]
pub(crate) struct Lists {
    lists: Vec<Rows>,
    room: usize,
}

impl Model for Lists {
    ghost use Rattle.std.specs.Coded.{codes};
    ghost use Rattle.std.specs.FinMap as map;
    ghost use Rattle.subtree_map.specs.Changes.{Subtrees};
    ghost use Rattle.subtree_map.specs.Lists.{AreLists, claimed, promised, told};

    ghost Value = { Subtrees };

    ghost coded = { Prim.hlevel (codes, map.code) };

    ghost view = { λ l. record
        { roots = told claimed l.lists.items; promises = told promised l.lists.items; room = l.room } };

    ghost invariant = { λ l. AreLists l.room l.lists.items };
}

impl Lists {
    /// A list for each of so many ranks, but one at least, with no row. Takes memory for the lists.
    pub(crate) fn new(alloc: Global, ranks: u8) -> Result<Lists, AllocError>
        ensures { IfOk result (λ lists. lists ≡ record { roots = map.empty; promises = map.empty; room = 0 }) }
    {
        let lists = empty_lists(alloc, ranks.max(1))?;
        Ok(Lists { lists, room: 0 })
    }

    /// The rank of a root; none for a leaf that is no root. The ranks are asked from 0 upwards.
    pub(crate) fn get(&self, dir: Ino, frag: Frag) -> Option<Rank>
        ensures { result ≡ map.get self.now.roots (dir, frag) }
    {
        claim_in(&self.lists, &(dir, frag))
    }

    /// The same, where a rank asks: first its own list, and if that has a hint, the list of the rank that it names.
    pub(crate) fn get_by(&self, rank: Rank, dir: Ino, frag: Frag) -> Option<Rank>
        ensures { result ≡ map.get self.now.roots (dir, frag) }
    {
        match known_by(&self.lists, rank, &(dir, frag)) {
            Some(rank) => Some(rank),
            None => claim_in(&self.lists, &(dir, frag)),
        }
    }

    /// Whether a leaf is a root.
    pub(crate) fn contains(&self, dir: Ino, frag: Frag) -> bool
        ensures { result ≡ is_some (map.get self.now.roots (dir, frag)) }
    {
        self.get(dir, frag).is_some()
    }

    /// Whether a list has a row of one of a directory's leaves: none of these is a root where none has.
    pub(crate) fn knows_of(&self, dir: Ino) -> bool
        ensures { result ≡ false → (leaf : Leaf) → leaf.0.0 ≡ dir.0 → map.get self.now.roots leaf ≡ None }
    {
        has_rows(&self.lists, dir)
    }

    /// The rank that a root is promised to.
    pub(crate) fn promised(&self, dir: Ino, frag: Frag) -> Option<Rank>
        ensures { result ≡ map.get self.now.promises (dir, frag) }
    {
        promise_in(&self.lists, &(dir, frag))
    }

    /// The first root.
    pub(crate) fn first(&self) -> Option<(Ino, Frag)>
        ensures { IsFirst self.now.roots (is_leaf_after None) result }
    {
        first_claim(&self.lists, &None)
    }

    /// The first root behind a leaf.
    pub(crate) fn first_after(&self, dir: Ino, frag: Frag) -> Option<(Ino, Frag)>
        ensures { IsFirst self.now.roots (is_leaf_after (Some (dir, frag))) result }
    {
        first_claim(&self.lists, &Some((dir, frag)))
    }

    /// Makes room for so many more roots. Where it is there already nothing is done. Refused for want of memory alone,
    /// and then all is left as it was.
    pub(crate) fn reserve(&mut self, additional: usize) -> Result<(), Refusal>
        ensures ok { OnOk result (additional ≤ self.new.room) }
        ensures roots { self.new.roots ≡ self.old.roots }
        ensures promises { self.new.promises ≡ self.old.promises }
        ensures grows { self.old.room ≤ self.new.room }
        ensures ready { additional ≤ self.old.room → IsOk result × (self.new ≡ self.old) }
        ensures err { IfErr result (λ reason. reason ≡ NoMemory) }
        ensures left { OnErr result (self.new ≡ self.old) }
    {
        if additional <= self.room {
            return Ok(());
        }
        reserve_each(&mut self.lists, additional)?;
        self.room = additional;
        Ok(())
    }

    /// Makes a leaf a root of a rank, or gives a root another rank: it is a claim of that rank, and another's claim is
    /// a hint from then on. There has to be room. Takes no memory.
    pub(crate) fn insert(&mut self, dir: Ino, frag: Frag, rank: Rank)
        requires { 0 < self.old.room }
        ensures roots { self.new.roots ≡ map.insert self.old.roots (dir, frag) rank }
        ensures promises { self.new.promises ≡ self.old.promises }
        ensures room { self.old.room ≤ self.new.room + 1 }
    {
        let home = home_of(self.lists.len(), rank);
        tell(&mut self.lists, (dir, frag), home, News::Claimed(rank));
        self.room -= 1;
    }

    /// A root is none any more, and no rank has a hint of it. Returns the rank that it had.
    pub(crate) fn take(&mut self, dir: Ino, frag: Frag) -> Option<Rank>
        ensures value { result ≡ map.get self.old.roots (dir, frag) }
        ensures removed { self.new.roots ≡ map.remove self.old.roots (dir, frag) }
        ensures promises { self.new.promises ≡ self.old.promises }
        ensures absent { map.get self.old.roots (dir, frag) ≡ None → self.new ≡ self.old }
        ensures room { self.old.room ≤ self.new.room }
    {
        let rank = self.get(dir, frag)?;
        tell(&mut self.lists, (dir, frag), 0, News::Ended);
        Some(rank)
    }

    /// Promises a leaf to a rank, in place of any earlier promise of it. Refused for want of memory alone, and then all
    /// is left as it was.
    pub(crate) fn promise(&mut self, dir: Ino, frag: Frag, rank: Rank) -> Result<(), Refusal>
        ensures ok { OnOk result (self.new.promises ≡ map.insert self.old.promises (dir, frag) rank) }
        ensures roots { self.new.roots ≡ self.old.roots }
        ensures room { self.new.room ≡ self.old.room }
        ensures err { IfErr result (λ reason. reason ≡ NoMemory) }
        ensures left { OnErr result (self.new ≡ self.old) }
    {
        reserve_more(&mut self.lists, self.room, 1)?;
        let home = home_of(self.lists.len(), rank);
        tell(&mut self.lists, (dir, frag), home, News::Promised(rank));
        Ok(())
    }

    /// Takes back the promise of a leaf, if there is one. Takes no memory.
    pub(crate) fn withdraw(&mut self, dir: Ino, frag: Frag)
        ensures promises { self.new.promises ≡ map.remove self.old.promises (dir, frag) }
        ensures roots { self.new.roots ≡ self.old.roots }
        ensures room { self.new.room ≡ self.old.room }
    {
        tell(&mut self.lists, (dir, frag), 0, News::Withdrawn);
    }

    /// The promise of a leaf becomes a claim, and another's claim a hint. Takes no memory: the row of the promise is
    /// there.
    pub(crate) fn keep_promise(&mut self, dir: Ino, frag: Frag, rank: Rank)
        requires { map.get self.old.promises (dir, frag) ≡ Some rank }
        ensures roots { self.new.roots ≡ map.insert self.old.roots (dir, frag) rank }
        ensures promises { self.new.promises ≡ map.remove self.old.promises (dir, frag) }
        ensures room { self.new.room ≡ self.old.room }
    {
        let home = home_of(self.lists.len(), rank);
        tell(&mut self.lists, (dir, frag), home, News::Handed(rank));
    }

    /// A directory goes: no list has a row of one of its leaves any more. Takes no memory.
    pub(crate) fn drop_dir(&mut self, dir: Ino)
        ensures roots { AreGone self.old.roots self.new.roots dir.0 }
        ensures promises { AreGone self.old.promises self.new.promises dir.0 }
        ensures room { self.new.room ≡ self.old.room }
    {
        drop_each(&mut self.lists, dir);
    }

    /// Where a rank has a hint on a root, it names the root's rank.
    pub(crate) fn correct(&mut self, rank: Rank, dir: Ino, frag: Frag)
        ensures { self.new ≡ self.old }
    {
        let Some(of) = self.get(dir, frag) else {
            return;
        };
        correct(&mut self.lists, rank, &(dir, frag), of);
    }

    /// A rank hears whose these leaves are: it has a hint on each that is a root of another. Refused for want of memory
    /// alone.
    pub(crate) fn learn(&mut self, rank: Rank, leaves: &[(Ino, Frag)]) -> Result<(), Refusal>
        ensures same { self.new ≡ self.old }
        ensures err { IfErr result (λ reason. reason ≡ NoMemory) }
    {
        reserve_more(&mut self.lists, self.room, leaves.len())?;
        let home = home_of(self.lists.len(), rank);
        learn_all(&mut self.lists, home, leaves);
        Ok(())
    }

    /// The rank that a rank's hint on a leaf names.
    pub(crate) fn hint(&self, rank: Rank, dir: Ino, frag: Frag) -> Option<Rank> {
        let _ = self.room;
        hint_by(&self.lists, rank, &(dir, frag))
    }

    /// Each hint of each list names this rank.
    pub(crate) fn set_hints(&mut self, rank: Rank)
        ensures { self.new ≡ self.old }
    {
        hint_each(&mut self.lists, rank);
    }
}

// Makes room for so many more rows in each list, and so many besides.
fn reserve_more(lists: &mut [Rows], room: usize, more: usize) -> Result<(), AllocError>
    ensures ok { OnOk result (AreEach (λ i. HasGrown (room + more)) lists.old lists.new) }
    ensures left { OnErr result (AreEach (λ i. HasSame) lists.old lists.new) }
{
    reserve_each(lists, in_all(room, more)?)
}

// So many rows and so many besides. An error says that they are more than can be counted.
fn in_all(room: usize, more: usize) -> Result<usize, AllocError>
    ensures ok { IfOk result (λ all. all ≡ room + more) }
    ensures err { OnErr result (2 ^ 64 ≤ room + more) }
{
    room.checked_add(more).ok_or(AllocError)
}

// So many lists with no row.
fn empty_lists(alloc: Global, count: u8) -> Result<Vec<Rows>, AllocError>
    ensures { IfOk result (λ lists. HaveNone count lists.items) }
{
    let mut lists = Vec::with_capacity(alloc, usize::from(count))?;
    for _ in 0..count {
        lists.push(SortedMap::new(alloc))?;
    }
    Ok(lists)
}

// The rank that the hint of a rank's list on a leaf names.
fn hint_by(lists: &[Rows], rank: Rank, leaf: &(Ino, Frag)) -> Option<Rank>
    requires { 0 < length lists.now }
{
    let entry = *lists[home_of(lists.len(), rank)].get(leaf)?;
    match entry.known {
        Known::Hint(of) => Some(of),
        Known::Nothing => None,
        Known::Claim(_) => None,
    }
}

// The rank of a root, where the list of a rank claims it or has a hint that is right.
fn known_by(lists: &[Rows], rank: Rank, leaf: &(Ino, Frag)) -> Option<Rank>
    requires { 0 < length lists.now }
    ensures { IfSome result (IsClaimed lists.now leaf.now) }
{
    // one list is all that there is to ask
    if lists.len() == 1 {
        return None;
    }
    let entry = *lists[home_of(lists.len(), rank)].get(leaf)?;
    match entry.known {
        Known::Claim(rank) => Some(rank),
        Known::Hint(rank) => claim_by(&lists[home_of(lists.len(), rank)], leaf),
        Known::Nothing => None,
    }
}
