//! Fragments as they are sent, in the order of an export.
ghost use Rattle.std.specs.Prelude.{◌≡◌, ◌<◌, ◌≤◌, ◌+◌, ◌^◌, ◌&&◌, true, length, nat_lt, IfOk, option_copied};
ghost use Rattle.std.specs.List.{list_all};
ghost use Rattle.std.specs.FinMap as map;
ghost use Rattle.sorted_map.specs.SortedMap.{contents};
ghost use Rattle.mds_types.specs.Leaf.{leaf_cmp};
ghost use Rattle.cached_frag.specs.Marks.{AreDirtyNames};
ghost use Rattle.dirfrag_codec.specs.Values.{is_fragment};
ghost use Rattle.dentry_cache.specs.Cache.{HasCached};
ghost use Rattle.dentry_cache.specs.CacheMap.{here};
ghost use Rattle.export_bytes.specs.Export.{is_sent_frag};
ghost use Rattle.export_regions.specs.Regions.{sent_names, values};
ghost use Rattle.export_regions.specs.Sending.{AreSendable, IsWord, MaySend, MaySendAll, gathered, sent_from};

use cached_frag::{Base, CachedFrag, Mark};
use dentry_cache::Caches;
use export_bytes::{SentFrag, SentFrags, SentNames};
use mds_types::{Dirfrag, Frag, Ino, Inode, Name, Rank};
use sorted_map::SortedMap;
use std::alloc::{AllocError, Global};

/// The fragments of these leaves at a rank, as they are sent: by inode and then by value. Takes memory for them, with a
/// copy of each dirty name.
pub(crate) fn sent_frags(
    alloc: Global,
    caches: &Caches,
    rank: Rank,
    leaves: &[(Ino, Frag)],
) -> Result<SentFrags, AllocError>
    requires there { rank.0 < length caches.now.used }
    requires may { MaySendAll caches.now rank.0 leaves.now }
    ensures sent { IfOk result (λ frags. frags ≡ values (gathered caches.now rank.0 leaves.now)) }
    ensures sendable { IfOk result (λ frags. list_all is_sent_frag frags ≡ true) }
{
    let sent = gather(alloc, caches, rank, leaves)?;
    in_order(alloc, sent)
}

// The fragments of these leaves at a rank, as they are sent, by leaf.
fn gather(
    alloc: Global,
    caches: &Caches,
    rank: Rank,
    leaves: &[(Ino, Frag)],
) -> Result<SortedMap<(Ino, Frag), SentFrag>, AllocError>
    requires there { rank.0 < length caches.now.used }
    requires may { MaySendAll caches.now rank.0 leaves.now }
    ensures sent { IfOk result (λ sent. contents leaf_cmp sent ≡ gathered caches.now rank.0 leaves.now) }
    ensures sendable { IfOk result (λ sent. AreSendable (contents leaf_cmp sent)) }
{
    let mut sent: SortedMap<(Ino, Frag), SentFrag> = SortedMap::new(alloc);
    sent.reserve(leaves.len())?;
    let mut i = leaves.len();
    while i > 0 {
        i -= 1;
        let leaf = leaves[i];
        let frag = sent_at(alloc, caches, rank, &leaf)?;
        put(&mut sent, leaf, frag);
    }
    Ok(sent)
}

// Puts a fragment to its leaf, where there is room.
fn put(sent: &mut SortedMap<(Ino, Frag), SentFrag>, leaf: (Ino, Frag), frag: SentFrag)
    requires { 0 < sent.old.room }
    ensures inserted { contents leaf_cmp sent.new ≡ map.insert (contents leaf_cmp sent.old) leaf frag }
    ensures room { sent.old.room ≤ sent.new.room + 1 }
{
    drop(sent.insert(leaf, frag));
}

// The fragment of a leaf at a rank, as it is sent.
fn sent_at(
    alloc: Global,
    caches: &Caches,
    rank: Rank,
    leaf: &(Ino, Frag),
) -> Result<SentFrag, AllocError>
    requires there { rank.0 < length caches.now.used }
    requires may { HasCached (here caches.now rank.0 leaf.now) MaySend }
    ensures sent { IfOk result
        (λ sent. HasCached (here caches.now rank.0 leaf.now) (λ f. sent ≡ sent_from leaf.now f)) }
    ensures sendable { IfOk result (λ sent. is_sent_frag sent ≡ true) }
{
    let at = Dirfrag {
        dir: leaf.0,
        frag: leaf.1,
        rank,
    };
    match caches.get(at) {
        Some(fragment) => copy_of(alloc, leaf, fragment),
        None => unreachable!(),
    }
}

// A fragment as it is sent, with a copy of each dirty name.
fn copy_of(alloc: Global, leaf: &(Ino, Frag), fragment: &CachedFrag) -> Result<SentFrag, AllocError>
    requires { MaySend fragment.now }
    ensures sent { IfOk result (λ sent. sent ≡ sent_from leaf.now fragment.now) }
    ensures sendable { IfOk result (λ sent. is_sent_frag sent ≡ true) }
{
    knows_leaf(leaf.0, leaf.1);
    let base = fragment.base();
    knows_base(base);
    let names = names_of(alloc, fragment)?;
    Ok(SentFrag {
        ino: leaf.0,
        frag: leaf.1,
        base,
        names: SentNames::from_vec(names),
    })
}

/// What holds of each leaf, by its type.
pub(crate) fn knows_leaf(ino: Ino, frag: Frag)
    ensures { (nat_lt ino.0 (2 ^ 64) && is_fragment frag) ≡ true }
{
    let _ = ino.0;
    let _ = frag.bits();
}

// What holds of each base, by its type: a commit version has 64 bits.
fn knows_base(base: Base)
    ensures { IsWord base }
{
    match base {
        Base::Stored(version) => knows_word(version),
        Base::Fresh => {}
    }
}

fn knows_word(number: u64)
    ensures { number < 2 ^ 64 }
{
    let _ = number;
}

// The dirty names of a fragment as they are sent.
fn names_of(alloc: Global, fragment: &CachedFrag) -> Result<Vec<(Name, Option<Inode>)>, AllocError>
    ensures sent { IfOk result (λ names. names.items ≡ sent_names fragment.now.dirty) }
    ensures valid { AreDirtyNames fragment.now.dirty }
{
    let dirty = fragment.dirty_iter();
    let count = fragment.dirty_count();
    let mut names: Vec<(Name, Option<Inode>)> = Vec::with_capacity(alloc, count)?;
    for (name, mark) in dirty {
        names.push(sent_name(name, mark)?)?;
    }
    Ok(names)
}

// A dirty name as it is sent.
fn sent_name(name: &Name, mark: &Mark) -> Result<(Name, Option<Inode>), AllocError>
    ensures { IfOk result (λ sent. sent ≡ (name.now, mark.now.inode)) }
{
    let name = name.try_clone()?;
    match copied(mark.inode.as_ref()) {
        Ok(inode) => Ok((name, inode)),
        Err(refused) => {
            drop(name);
            Err(refused)
        }
    }
}

// A copy of an inode, if there is one.
fn copied(inode: Option<&Inode>) -> Result<Option<Inode>, AllocError>
    ensures { IfOk result (λ copy. copy ≡ option_copied inode.entry) }
{
    match inode {
        Some(inode) => Ok(Some(inode.try_clone()?)),
        None => Ok(None),
    }
}

// The fragments in the order of their leaves.
fn in_order(alloc: Global, sent: SortedMap<(Ino, Frag), SentFrag>) -> Result<SentFrags, AllocError>
    requires { AreSendable (contents leaf_cmp sent) }
    ensures sent { IfOk result (λ frags. frags ≡ values (contents leaf_cmp sent)) }
    ensures sendable { IfOk result (λ frags. list_all is_sent_frag frags ≡ true) }
{
    let mut sent = sent;
    let mut frags = Vec::with_capacity(alloc, sent.len())?;
    while let Some((_, frag)) = sent.pop_first() {
        frags.push(frag)?;
    }
    Ok(SentFrags::from_vec(frags))
}
