//! A store in memory.
ghost use Rattle.std.specs.Prelude.{◌≡◌, ◌≢◌, ◌≤◌, ℕ, List, None, map, IfOk, IfErr, IsOk, IsSome, MatchBool, OnOk, OnErr, is_some, option_copied, string_bytes};
ghost use Rattle.std.specs.FinMap as finmap;
ghost use Rattle.mds_types.specs.declared.refusals.Refusal.TheVariants.{NoMemory};
ghost use Rattle.objstore.specs.Omap.{Omap, empty_omap, key_cmp};
ghost use Rattle.objstore.specs.Writes.{applied};
ghost use Rattle.objstore.specs.Objects.{header_at, object_names_after, page_at, written};
ghost use Rattle.sorted_map.specs.SortedMap.{contents};

use crate::name_pages::{NamePage, first_names};
use crate::objects::Object;
use crate::pages::Page;
use crate::stores::Store;
use crate::write_ops::WriteOp;
use mds_types::{Bytes, Refusal, Text, TextRef};
use sorted_map::{Iter, SortedMap};
use std::alloc::{AllocError, Global};
use std::marker::Model;

/// Objects in memory, in the order of their names. It has no faults.
#[derive(Debug, Drop)]
pub struct MemStore {
    objects: SortedMap<Text, Object>,
}

impl Model for MemStore {
    ghost use Rattle.std.specs.Coded.{codes};
    ghost use Rattle.std.specs.FinMap as map;
    ghost use Rattle.objstore.specs.Omap.{key_cmp};
    ghost use Rattle.objstore.specs.Objects.{Objects};
    ghost use Rattle.sorted_map.specs.SortedMap.{contents};

    ghost Value = { Objects };

    ghost coded = { Prim.hlevel (codes, map.code) };

    ghost view = { λ s. contents key_cmp s.objects };
}

impl MemStore {
    /// A store with no object. Takes no memory.
    pub fn new(alloc: Global) -> MemStore
        ensures { result ≡ finmap.empty }
    {
        MemStore {
            objects: SortedMap::new(alloc),
        }
    }

    /// The object of this name. Takes logarithmic time.
    pub fn get(&self, name: &str) -> Option<&Object>
        ensures { option_copied result ≡ finmap.get self.now name.now }
    {
        self.objects.get(&TextRef { text: name })
    }

    /// The names of all objects, in order. Takes memory for copies of them, and none where there is no object; the only
    /// refusal is `Refusal::NoMemory`.
    pub fn names(&self, alloc: Global) -> Result<Vec<String>, Refusal>
        ensures names { IfOk result (λ names. map string_bytes names.items ≡ finmap.keys self.now) }
        ensures refused { IfErr result (λ refusal. refusal ≡ NoMemory) }
        ensures memory { OnErr result (self.now ≢ finmap.empty) }
    {
        if self.objects.is_empty() {
            return Ok(Vec::new(alloc));
        }
        let all = first_names(alloc, self.objects.iter(), self.objects.len())?;
        Ok(all.into_names())
    }

    /// Does the operation on the object of this name, as `apply` does, where there is such an object; tells whether there
    /// is. The object takes over its header and its pairs, so nothing is copied.
    pub fn apply_owned(&mut self, name: &str, op: WriteOp) -> Result<bool, AllocError>
        ensures exists { IfOk result (λ found. found ≡ is_some (finmap.get self.old name.now)) }
        ensures done { IfOk result (λ found. MatchBool found (self.new ≡ written self.old name.now op)
            (self.new ≡ self.old)) }
        ensures same { OnErr result (self.new ≡ self.old) }
    {
        write_owned(&mut self.objects, name, op)
    }

    /// A copy. Takes memory for all objects.
    pub fn try_clone(&self) -> Result<MemStore, AllocError>
        ensures { IfOk result (λ copy. copy ≡ self.now) }
    {
        Ok(MemStore {
            objects: self.objects.clone()?,
        })
    }
}

impl Store for MemStore {
    ghost objects = { λ s. s };

    ghost faults = { λ _. 0 };

    ghost IsCall = { λ _ _ _. Unit {0} };

    /// Takes memory for a copy of the header: of an object that is absent none.
    fn header(&mut self, alloc: Global, name: &str) -> Result<Option<Bytes>, Refusal>
        ensures found { IfOk result (λ header. header ≡ header_at self.old name.now) }
        ensures same { self.new ≡ self.old }
        ensures refused { IfErr result (λ refusal. (refusal ≡ NoMemory) × IsSome (finmap.get self.old name.now)) }
    {
        match self.get(name) {
            Some(object) => Ok(Some(object.header().try_clone()?)),
            None => Ok(None),
        }
    }

    /// Takes memory for copies of the pairs: of an object that is absent none.
    fn page(
        &mut self,
        alloc: Global,
        name: &str,
        after: Option<&Bytes>,
        max: usize,
    ) -> Result<Option<Page>, Refusal>
        requires { 1 ≤ max }
        ensures found { IfOk result (λ page. page ≡ page_at self.old name.now (option_copied after.entry) max) }
        ensures same { self.new ≡ self.old }
        ensures refused { IfErr result (λ refusal. (refusal ≡ NoMemory) × IsSome (finmap.get self.old name.now)) }
    {
        match self.get(name) {
            Some(object) => Ok(Some(object.page(alloc, after, max)?)),
            None => Ok(None),
        }
    }

    fn apply(&mut self, alloc: Global, name: &str, op: &WriteOp) -> Result<(), Refusal> {
        Ok(write(&mut self.objects, alloc, name, op)?)
    }

    /// Never refused, whether the object is there or not.
    fn remove(&mut self, name: &str) -> Result<(), Refusal>
        ensures done { IsOk result }
        ensures removed { self.new ≡ finmap.remove self.old name.now }
    {
        let _ = self.objects.remove(&TextRef { text: name });
        Ok(())
    }

    fn names_page(
        &mut self,
        alloc: Global,
        after: Option<&str>,
        max: usize,
    ) -> Result<NamePage, Refusal> {
        Ok(first_names(alloc, rest_after(&self.objects, after), max)?)
    }
}

// Does the operation on the object of this name, and makes the object where it is absent.
fn write(
    objects: &mut SortedMap<Text, Object>,
    alloc: Global,
    name: &str,
    op: &WriteOp,
) -> Result<(), AllocError>
    ensures done { OnOk result (contents key_cmp objects.new ≡ written (contents key_cmp objects.old) name.now op.now) }
    ensures same { OnErr result (contents key_cmp objects.new ≡ contents key_cmp objects.old) }
{
    let Some(object) = objects.get_mut(&TextRef { text: name }) else {
        return add(objects, alloc, name, op);
    };
    object.apply(op)
}

// Does the operation on the object of this name, and tells whether there is one.
fn write_owned(
    objects: &mut SortedMap<Text, Object>,
    name: &str,
    op: WriteOp,
) -> Result<bool, AllocError>
    ensures exists { IfOk result (λ found. found ≡ is_some (finmap.get (contents key_cmp objects.old) name.now)) }
    ensures done { IfOk result (λ found. MatchBool found
        (contents key_cmp objects.new ≡ written (contents key_cmp objects.old) name.now op)
        (contents key_cmp objects.new ≡ contents key_cmp objects.old)) }
    ensures same { OnErr result (contents key_cmp objects.new ≡ contents key_cmp objects.old) }
{
    let Some(object) = objects.get_mut(&TextRef { text: name }) else {
        drop(op);
        return Ok(false);
    };
    match object.apply_owned(op) {
        Ok(()) => Ok(true),
        Err(refused) => Err(refused),
    }
}

// Puts an object in that the operation makes, where none has the name.
fn add(
    objects: &mut SortedMap<Text, Object>,
    alloc: Global,
    name: &str,
    op: &WriteOp,
) -> Result<(), AllocError>
    requires { finmap.get (contents key_cmp objects.old) name.now ≡ None }
    ensures done { OnOk result (contents key_cmp objects.new ≡ written (contents key_cmp objects.old) name.now op.now) }
    ensures same { OnErr result (contents key_cmp objects.new ≡ contents key_cmp objects.old) }
{
    objects.reserve(1)?;
    let name = Text::copy_of(alloc, name)?;
    match object_of(alloc, op) {
        Ok(object) => {
            let _ = objects.insert(name, object);
            Ok(())
        }
        Err(refused) => {
            drop(name);
            Err(refused)
        }
    }
}

// The object that an operation makes.
fn object_of(alloc: Global, op: &WriteOp) -> Result<Object, AllocError>
    ensures { IfOk result (λ object. object ≡ applied op.now empty_omap) }
{
    let mut object = Object::new(alloc);
    match object.apply(op) {
        Ok(()) => Ok(object),
        Err(refused) => {
            drop(object);
            Err(refused)
        }
    }
}

// The objects whose names come after one.
fn rest_after<'a>(
    objects: &'a SortedMap<Text, Object>,
    after: Option<&str>,
) -> Iter<'a, Text, Object>
    ensures { map (λ (e : List ℕ × Omap). e.0) result
        ≡ object_names_after (contents key_cmp objects.entry.now) (option_copied after.entry) }
{
    match after {
        Some(name) => objects.iter_after(&TextRef { text: name }),
        None => objects.iter(),
    }
}
