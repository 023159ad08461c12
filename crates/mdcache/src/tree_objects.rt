//! The object of a directory's tree, written to a store or removed from it.
ghost use Rattle.std.specs.Prelude.{◌≡◌, ◌+◌, ◌<◌, true, MatchOption, Some, IfOk, OnOk, OnErr, IfErr, length};
ghost use Rattle.std.specs.Result.{result_err};
ghost use Rattle.std.specs.FinMap as map;
ghost use Rattle.objstore.specs.Objects.{MayRefuse, faults_told};
ghost use Rattle.inode_table.specs.Dirs.{leaves_of};
ghost use Rattle.dirfrag_codec.specs.TreeObject.{SpellsTree};
ghost use Rattle.mdcache.specs.Objects.{with_tree_at};

use dirfrag_codec::encode_tree;
use inode_table::Dirs;
use mds_types::{Bytes, Ino, Refusal};
use objstore::{Store, WriteOp};
use std::alloc::{AllocError, Global};

/// Makes the object of this name say what leaves a directory has: it is written, if there is more than one and it isn't
/// so already, and removed, if there is one. Takes memory before it writes.
///
/// Refused as the store refuses a call, and `NoMemory`. The objects stay as they were then.
pub fn save_tree<S: Store>(
    alloc: Global,
    dirs: &Dirs,
    store: &mut S,
    dir: Ino,
    name: &str,
) -> Result<(), Refusal>
    ensures saved { OnOk result
        (S.objects store.new ≡ with_tree_at (S.objects store.old) name.now (leaves_of dirs.now.trees dir.0)) }
    ensures same { OnErr result (S.objects store.new ≡ S.objects store.old) }
    ensures refused { IfErr result (MayRefuse (S.faults store.old) (S.faults store.new)) }
    ensures counted { S.faults store.new ≡ S.faults store.old + faults_told (result_err result) }
{
    let Some(header) = header_of(alloc, dirs, dir)? else {
        return store.remove(name);
    };
    match is_written(alloc, store, name, &header) {
        Ok(false) => write_tree(alloc, store, name, header),
        Ok(true) => {
            drop(header);
            Ok(())
        }
        Err(refusal) => {
            drop(header);
            Err(refusal)
        }
    }
}

// The header of the object that says what leaves a directory has; none where it has one.
fn header_of(alloc: Global, dirs: &Dirs, dir: Ino) -> Result<Option<Vec<u8>>, AllocError>
    ensures { IfOk result
        (λ header. MatchOption header (length (leaves_of dirs.now.trees dir.0) < 2)
        (λ bytes. SpellsTree bytes.items (leaves_of dirs.now.trees dir.0))) }
{
    let tree = dirs.tree(alloc, dir)?;
    if tree.len() < 2 {
        drop(tree);
        return Ok(None);
    }
    let header = encode_tree(alloc, &tree);
    drop(tree);
    Ok(Some(header?))
}

// Whether the object of this name has this header, and no pairs.
fn is_written<S: Store>(
    alloc: Global,
    store: &mut S,
    name: &str,
    header: &[u8],
) -> Result<bool, Refusal>
    ensures so { IfOk result
        (λ so. so ≡ true → map.get (S.objects store.old) name.now ≡ Some
        (record { header = header.now; pairs = map.empty })) }
    ensures same { S.objects store.new ≡ S.objects store.old }
    ensures refused { IfErr result (MayRefuse (S.faults store.old) (S.faults store.new)) }
    ensures counted { S.faults store.new ≡ S.faults store.old + faults_told (result_err result) }
{
    let Some(bytes) = store.header(alloc, name)? else {
        return Ok(false);
    };
    if bytes.as_slice() != header {
        return Ok(false);
    }
    let Some(page) = store.page(alloc, name, None, 1)? else {
        return Ok(false);
    };
    Ok(page.pairs().is_empty())
}

// Writes the object of this name: this header, and no pairs.
fn write_tree<S: Store>(
    alloc: Global,
    store: &mut S,
    name: &str,
    header: Vec<u8>,
) -> Result<(), Refusal>
    ensures written { OnOk result
        (S.objects store.new ≡ map.insert (S.objects store.old) name.now
        (record { header = header.items; pairs = map.empty })) }
    ensures same { OnErr result (S.objects store.new ≡ S.objects store.old) }
    ensures refused { IfErr result (MayRefuse (S.faults store.old) (S.faults store.new)) }
    ensures counted { S.faults store.new ≡ S.faults store.old + faults_told (result_err result) }
{
    let mut op = WriteOp::new(alloc);
    op.clear = true;
    op.header = Some(Bytes::from_vec(alloc, header)?);
    store.apply(alloc, name, &op)
}
