//! A fragment's names, each given to the child that its hash picks.
ghost use Rattle.std.specs.Prelude.{◌≡◌, ◌+◌, ◌≤◌, ◌<◌, ◌^◌, true, length, Some, ℕ};
ghost use Rattle.std.specs.List.{slice_index_or};
ghost use Rattle.std.specs.FinMap as map;
ghost use Rattle.objstore.specs.Omap.{key_cmp};
ghost use Rattle.sorted_map.specs.SortedMap.{contents};
ghost use Rattle.mds_types.specs.Frag.{child_of, span};
ghost use Rattle.namehash.specs.Rjenkins.{hash_of};
ghost use Rattle.dirfrag_codec.specs.EntryRecord.{IsRecordable};
ghost use Rattle.cached_frag.specs.Cached.{AreEntries};
ghost use Rattle.dentry_cache.specs.Pairs.{holds};
ghost use Rattle.dentry_cache.specs.declared.parts.Part.{Part as Child};
ghost use Rattle.dentry_cache.specs.Divided.{AreChildren, AreReady};
ghost use Rattle.dentry_cache.specs.Parting.{EachThen, Puts, is_place};

use crate::parts::Part;
use mds_types::{Frag, Inode, Name};
use namehash::rjenkins;
use sorted_map::{Finger, SortedMap};

/// The place, among the children of a fragment by so many bits, of the one that contains a name. A name of another
/// fragment has none, or one behind all of them.
pub(crate) fn place_of(frag: Frag, nb: u8, name: &Name) -> Option<usize>
    requires { frag.bits + nb ≤ 24 }
    ensures { (i : ℕ) → holds (child_of frag i nb) (hash_of name.now) ≡ is_place result i }
{
    let size = span(frag.bits() + nb);
    let part = rjenkins(name.as_bytes()) % (1 << 24) / size;
    match part.checked_sub(frag.value() / size) {
        Some(place) => Some(place as usize),
        None => None,
    }
}

/// How many hashes a fragment of so many bits contains.
pub(crate) fn span(bits: u8) -> u32
    requires { bits ≤ 24 }
    ensures value { result ≡ span bits }
    ensures some { 0 < result }
{
    1 << (24 - bits)
}

/// Gives each of these names to the child that contains it, dirty at this version. Takes no memory.
pub(crate) fn divide(
    parts: &mut Vec<Part>,
    frag: Frag,
    nb: u8,
    mut names: SortedMap<Name, Inode>,
    version: u64,
)
    requires bits { frag.bits + nb ≤ 24 }
    requires entries { AreEntries (contents key_cmp names) }
    requires ready { AreReady frag nb (contents key_cmp names) parts.old.items }
    ensures { AreChildren frag nb (contents key_cmp names) version parts.old.items parts.new.items }
{
    while let Some(pair) = names.pop_first() {
        let at = place_of(frag, nb, &pair.0);
        put_in(parts, at, pair.0, pair.1, version);
    }
}

// Gives a name to a child.
fn put_in(parts: &mut Vec<Part>, at: Option<usize>, name: Name, inode: Inode, version: u64)
    requires recordable { IsRecordable inode }
    requires room { (i : ℕ) (d : Child) → i < length parts.old.items → is_place at i ≡ true
        → 0 < (slice_index_or parts.old.items i d).fragment.room }
    ensures count { length parts.new.items ≡ length parts.old.items }
    ensures each { EachThen
        (λ i. Puts name (record { version = version; inode = Some inode })
        (is_place at i)) parts.old.items parts.new.items }
{
    let Some(at) = at else {
        return;
    };
    if at < parts.len() {
        parts[at]
            .fragment
            .put(&Finger::none(), name, inode, version);
    }
}
