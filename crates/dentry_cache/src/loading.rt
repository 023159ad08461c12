//! A fragment, read from its object in the store.
ghost use Rattle.std.specs.Prelude.{◌≡◌, ◌+◌, ◌≤◌, ℕ, List, Option, Some, None, IfOk, IfErr, OnOk, option_copied};
ghost use Rattle.objstore.specs.Omap.{PairMap, key_cmp, page_of, pairs_after};
ghost use Rattle.sorted_map.specs.SortedMap.{contents};
ghost use Rattle.std.specs.Result.{result_err};
ghost use Rattle.objstore.specs.Objects.{MayRefuse, faults_told};
ghost use Rattle.std.specs.FinMap as map;
ghost use Rattle.dentry_cache.specs.Calls.{AreCalls, LeavesPages, PagesLeft, calls_to_load, header_in, pages_read};
ghost use Rattle.dentry_cache.specs.Loading.{Loads, MayNotLoad, object_of};
ghost use Rattle.dentry_cache.specs.Pairs.{ArePairNames, EndsPage, EndsPairs, HasHeaderCounts, IsEndOf, IsHeaderOf, pairs_left};

use crate::pairs::add_pairs;
use cached_frag::CachedFrag;
use dirfrag_codec::{FragHeader, decode_header};
use mds_types::{Bytes, Frag, Ino, Inode, Name, ObjName, Refusal, Spelt};
use objstore::{Page, Store};
use sorted_map::SortedMap;
use std::alloc::{AllocError, Global};

// How many pairs are read at once.
const PAGE: usize = 64;

// What follows a page.
pub enum PageEnd {
    // Nothing is read: the object is absent, or a pair is off the grammar or belongs elsewhere.
    Off,
    // Nothing: these were all pairs.
    Last,
    // The pairs behind this key.
    More(Bytes),
}

/// The fragment of a leaf, read from its object: the header, and then its pairs by pages of 64. Takes memory for the
/// names.
///
/// Refused `Damaged`, with the object's name, where the object is absent or isn't one that spells a fragment with no
/// name of another leaf, and otherwise as the store refuses a call (`StoreFault`), or `NoMemory`. The objects stay as
/// they are. The store is called once for the header, and, where that is one, once for each page up to the first with
/// a pair that is off, or the last; no call is made behind one that is refused.
pub fn load<S: Store>(
    alloc: Global,
    store: &mut S,
    dir: Ino,
    frag: Frag,
) -> Result<CachedFrag, Refusal>
    ensures loaded { IfOk result (λ loaded. Loads frag (object_of (S.objects store.old) dir frag) (Some loaded)) }
    ensures refused { IfErr result
        (MayNotLoad dir frag (object_of (S.objects store.old) dir frag) (S.faults store.old) (S.faults store.new)) }
    ensures same { S.objects store.new ≡ S.objects store.old }
    ensures counted { S.faults store.new ≡ S.faults store.old + faults_told (result_err result) }
    ensures called { AreCalls S.IsCall (calls_to_load frag (object_of (S.objects store.old) dir frag)) store.old
        (result_err result) store.new }
{
    let text = Spelt::of(ObjName::Frag(dir, frag));
    match load_object(alloc, store, text.as_str(), frag)? {
        Some(loaded) => Ok(loaded),
        None => Err(Refusal::Damaged(ObjName::Frag(dir, frag))),
    }
}

// The fragment that the object of this name spells; none, where it spells none.
fn load_object<S: Store>(
    alloc: Global,
    store: &mut S,
    text: &str,
    frag: Frag,
) -> Result<Option<CachedFrag>, Refusal>
    ensures loaded { IfOk result (Loads frag (map.get (S.objects store.old) text.now)) }
    ensures refused { IfErr result (MayRefuse (S.faults store.old) (S.faults store.new)) }
    ensures same { S.objects store.new ≡ S.objects store.old }
    ensures counted { S.faults store.new ≡ S.faults store.old + faults_told (result_err result) }
    ensures called { AreCalls S.IsCall (calls_to_load frag (map.get (S.objects store.old) text.now)) store.old
        (result_err result) store.new }
{
    let Some(header) = read_header(alloc, store, text)? else {
        return Ok(None);
    };
    let Some(names) = read_names(alloc, store, text, frag)? else {
        return Ok(None);
    };
    let loaded = CachedFrag::stored(alloc, header.version, names)?;
    Ok(counted(loaded, header))
}

// The fragment, if the header has its counts.
fn counted(loaded: CachedFrag, header: FragHeader) -> Option<CachedFrag>
    ensures { HasHeaderCounts loaded header result }
{
    let counts = loaded.counts();
    if counts.files == header.files && counts.dirs == header.dirs {
        Some(loaded)
    } else {
        None
    }
}

// The header of the object; none, where the object is absent or its header is off the grammar.
fn read_header<S: Store>(
    alloc: Global,
    store: &mut S,
    text: &str,
) -> Result<Option<FragHeader>, Refusal>
    ensures read { IfOk result (IsHeaderOf (map.get (S.objects store.old) text.now)) }
    ensures value { IfOk result (λ header. header ≡ header_in (map.get (S.objects store.old) text.now)) }
    ensures refused { IfErr result (MayRefuse (S.faults store.old) (S.faults store.new)) }
    ensures same { S.objects store.new ≡ S.objects store.old }
    ensures counted { S.faults store.new ≡ S.faults store.old + faults_told (result_err result) }
    ensures called { AreCalls S.IsCall 1 store.old (result_err result) store.new }
{
    match store.header(alloc, text)? {
        Some(bytes) => Ok(decode_header(bytes.as_slice())),
        None => Ok(None),
    }
}

// The names of the object's pairs; none, where the object is absent, or a pair is off the grammar or belongs elsewhere.
fn read_names<S: Store>(
    alloc: Global,
    store: &mut S,
    text: &str,
    frag: Frag,
) -> Result<Option<SortedMap<Name, Inode>>, Refusal>
    ensures read { IfOk result (ArePairNames frag (map.get (S.objects store.old) text.now)) }
    ensures refused { IfErr result (MayRefuse (S.faults store.old) (S.faults store.new)) }
    ensures same { S.objects store.new ≡ S.objects store.old }
    ensures counted { S.faults store.new ≡ S.faults store.old + faults_told (result_err result) }
    ensures called { AreCalls S.IsCall (pages_read frag (pairs_left (map.get (S.objects store.old) text.now) None))
        store.old (result_err result) store.new }
{
    let mut names = SortedMap::new(alloc);
    let mut after = None;
    loop {
        match read_page(alloc, store, text, frag, &mut names, after.as_ref())? {
            PageEnd::Off => return Ok(None),
            PageEnd::Last => return Ok(Some(names)),
            PageEnd::More(key) => after = Some(key),
        }
    }
}

// Adds the names of the next pairs of the object.
fn read_page<S: Store>(
    alloc: Global,
    store: &mut S,
    text: &str,
    frag: Frag,
    names: &mut SortedMap<Name, Inode>,
    after: Option<&Bytes>,
) -> Result<PageEnd, Refusal>
    ensures read { IfOk result
        (EndsPage frag (map.get (S.objects store.old) text.now) (option_copied after.entry)
        (contents key_cmp names.old) (contents key_cmp names.new)) }
    ensures refused { IfErr result (MayRefuse (S.faults store.old) (S.faults store.new)) }
    ensures same { S.objects store.new ≡ S.objects store.old }
    ensures counted { S.faults store.new ≡ S.faults store.old + faults_told (result_err result) }
    ensures left { IfOk result
        (PagesLeft frag (map.get (S.objects store.old) text.now) (option_copied after.entry)) }
    ensures called { AreCalls S.IsCall 1 store.old (result_err result) store.new }
{
    match store.page(alloc, text, after, PAGE)? {
        Some(page) => Ok(add_page(alloc, names, frag, page)?),
        None => Ok(PageEnd::Off),
    }
}

// Adds the names of a page.
fn add_page(
    alloc: Global,
    names: &mut SortedMap<Name, Inode>,
    frag: Frag,
    page: Page,
) -> Result<PageEnd, AllocError>
    ensures ended { (pairs : PairMap) (after : Option (List ℕ)) → page ≡ page_of pairs after 64
        → IfOk result (EndsPairs frag pairs after (contents key_cmp names.old) (contents key_cmp names.new)) }
    ensures left { (pairs : PairMap) (after : Option (List ℕ)) → page ≡ page_of pairs after 64
        → IfOk result (LeavesPages frag (pairs_after pairs after) pairs) }
{
    let more = page.more();
    let pairs = page.into_pairs();
    if !add_pairs(alloc, names, frag, &pairs)? {
        return Ok(PageEnd::Off);
    }
    Ok(end_of(more, pairs))
}

// What follows a page whose pairs are good.
fn end_of(more: bool, mut pairs: Vec<(Bytes, Bytes)>) -> PageEnd
    ensures { IsEndOf more pairs.items result }
{
    if !more {
        return PageEnd::Last;
    }
    match pairs.pop() {
        Some((key, value)) => {
            drop(value);
            PageEnd::More(key)
        }
        None => PageEnd::Last,
    }
}
