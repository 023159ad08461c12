//! The pairs of a fragment's object, read as names.
ghost use Rattle.std.specs.Prelude.{◌≡◌, ◌≤◌, true, IfOk};
ghost use Rattle.namehash.specs.Rjenkins.{hash_of};
ghost use Rattle.std.specs.FinMap as map;
ghost use Rattle.objstore.specs.Omap.{key_cmp};
ghost use Rattle.sorted_map.specs.SortedMap.{contents};
ghost use Rattle.mds_types.specs.Frag.{Fragment};
ghost use Rattle.dirfrag_codec.specs.FragmentObject.{with_pair};
ghost use Rattle.dirfrag_codec.specs.Values.{inode_of_record, name_of_key};
ghost use Rattle.dentry_cache.specs.Pairs.{IsRead, added, are_good, holds, is_good};

use dirfrag_codec::decode_entry;
use mds_types::{Bytes, Frag, Inode, Name};
use namehash::rjenkins;
use objstore::name_of;
use sorted_map::SortedMap;
use std::alloc::{AllocError, Global};

/// Adds the names of these pairs, if each of them is the record of a name of the fragment under its key, and tells
/// whether they are.
pub(crate) fn add_pairs(
    alloc: Global,
    names: &mut SortedMap<Name, Inode>,
    frag: Frag,
    pairs: &[(Bytes, Bytes)],
) -> Result<bool, AllocError>
    ensures good { IfOk result (λ good. good ≡ are_good frag pairs.now) }
    ensures added { IfOk result
        (λ good. good ≡ true → contents key_cmp names.new ≡ added (contents key_cmp names.old) pairs.now) }
{
    for (key, bytes) in pairs {
        if !add_pair(alloc, names, frag, key, bytes)? {
            return Ok(false);
        }
    }
    Ok(true)
}

// Adds the name of a pair.
fn add_pair(
    alloc: Global,
    names: &mut SortedMap<Name, Inode>,
    frag: Frag,
    key: &Bytes,
    bytes: &Bytes,
) -> Result<bool, AllocError>
    ensures good { IfOk result (λ good. good ≡ is_good frag (key.now, bytes.now)) }
    ensures added { IfOk result
        (λ good. good ≡ true → contents key_cmp names.new ≡ with_pair (contents key_cmp names.old)
        (name_of_key key.now) (inode_of_record bytes.now)) }
{
    names.reserve(1)?;
    let Some((name, inode)) = read_pair(alloc, frag, key, bytes)? else {
        return Ok(false);
    };
    put(names, name, inode);
    Ok(true)
}

// The name and the inode of a pair, if it is the record of a name of the fragment under its key.
fn read_pair(
    alloc: Global,
    frag: Frag,
    key: &Bytes,
    bytes: &Bytes,
) -> Result<Option<(Name, Inode)>, AllocError>
    ensures { IfOk result (IsRead frag (key.now, bytes.now)) }
{
    let Some(name) = named(alloc, key.as_slice())? else {
        return Ok(None);
    };
    let Some(inode) = recorded(alloc, bytes.as_slice())? else {
        return Ok(None);
    };
    if !holds(frag, &name) {
        return Ok(None);
    }
    Ok(Some((name, inode)))
}

// The name whose key this is.
fn named(alloc: Global, key: &[u8]) -> Result<Option<Name>, AllocError>
    ensures { IfOk result (λ name. name ≡ name_of_key key.now) }
{
    name_of(alloc, key)
}

// The inode whose record this is.
fn recorded(alloc: Global, bytes: &[u8]) -> Result<Option<Inode>, AllocError>
    ensures { IfOk result (λ inode. inode ≡ inode_of_record bytes.now) }
{
    decode_entry(alloc, bytes)
}

// Whether the name belongs to the fragment.
fn holds(frag: Frag, name: &Name) -> bool
    ensures { result ≡ holds frag (hash_of name.now) }
{
    frag.contains(rjenkins(name.as_bytes()))
}

// Puts a name in, where there is room.
fn put(names: &mut SortedMap<Name, Inode>, name: Name, inode: Inode)
    requires { 1 ≤ names.old.room }
    ensures { contents key_cmp names.new ≡ map.insert (contents key_cmp names.old) name inode }
{
    let _ = names.insert(name, inode);
}
