//! `Object`: a header and an ordered map.
ghost use Rattle.std.specs.Cmp.{partial_equiv_from_equiv, decided};
ghost use Rattle.std.specs.Prelude.{◌≡◌, ◌≤◌, ◌↔◌, IfOk, IsTrue, OnOk, OnErr, option_copied, cond};
ghost use Rattle.std.specs.FinMap as map;
ghost use Rattle.objstore.specs.Equal.{same_omap, omap_decides};
ghost use Rattle.objstore.specs.Omap.{empty_omap, page_of};
ghost use Rattle.objstore.specs.Writes.{applied, header_after, pairs_before};
ghost use Rattle.sorted_map.specs.Overlay.{overlaid};

use crate::pages::Page;
use crate::pairs::Pairs;
use crate::write_ops::WriteOp;
use mds_types::Bytes;
use std::alloc::{AllocError, Global};
use std::marker::Model;

/// An object of the store: a header, and pairs of keys and values in the order of the keys.
#[derive(Debug, Drop)]
pub struct Object {
    header: Bytes,
    pairs: Pairs,
}

impl Model for Object {
    ghost use Rattle.std.specs.Coded.{codes};
    ghost use Rattle.std.specs.FinMap as map;
    ghost use Rattle.objstore.specs.Omap.{Omap};

    ghost Value = { Omap };

    ghost coded = { Prim.hlevel (codes, map.code) };

    ghost view = { λ o. record { header = o.header; pairs = o.pairs } };
}

impl Object {
    /// An object with an empty header and no pairs. Takes no memory.
    pub fn new(alloc: Global) -> Object
        ensures { result ≡ empty_omap }
    {
        Object {
            header: Bytes::empty(),
            pairs: Pairs::new(alloc),
        }
    }

    /// The header.
    pub fn header(&self) -> &Bytes
        ensures { result.now ≡ self.now.header }
    {
        &self.header
    }

    /// The pairs.
    pub fn pairs(&self) -> &Pairs
        ensures { result.now ≡ self.now.pairs }
    {
        &self.pairs
    }

    /// The next pairs after a key, at most `max` of them, and whether more follow. Takes memory for copies of them.
    pub fn page(&self, alloc: Global, after: Option<&Bytes>, max: usize) -> Result<Page, AllocError>
        requires { 1 ≤ max }
        ensures { IfOk result (λ page. page ≡ page_of self.now.pairs (option_copied after.entry) max) }
    {
        self.pairs.page(alloc, after, max)
    }

    /// Does the operation, in full or, if memory is refused, not at all.
    pub fn apply(&mut self, op: &WriteOp) -> Result<(), AllocError>
        ensures ok { OnOk result (self.new ≡ applied op.now self.old) }
        ensures err { OnErr result (self.new ≡ self.old) }
    {
        // All growth comes first: what is left of it for `put_pairs` is that call's own first step.
        let header = op.header_copy()?;
        let set = op.set.try_clone()?;
        put_pairs(&mut self.pairs, op.clear, set)?;
        put_header(&mut self.header, op.clear, header);
        self.pairs.remove_all(&op.remove);
        Ok(())
    }

    /// Does the operation, in full or, if memory is refused, not at all. The object takes over its header and its pairs,
    /// so nothing is copied.
    pub fn apply_owned(&mut self, op: WriteOp) -> Result<(), AllocError>
        ensures ok { OnOk result (self.new ≡ applied op self.old) }
        ensures err { OnErr result (self.new ≡ self.old) }
    {
        let WriteOp {
            clear,
            header,
            set,
            remove,
        } = op;
        if let Err(refused) = put_pairs(&mut self.pairs, clear, set) {
            drop(header);
            drop(remove);
            return Err(refused);
        }
        put_header(&mut self.header, clear, header);
        self.pairs.remove_all(&remove);
        drop(remove);
        Ok(())
    }

    /// A copy. Takes memory for header and pairs.
    pub fn try_clone(&self) -> Result<Object, AllocError>
        ensures { IfOk result (λ copy. copy ≡ self.now) }
    {
        Ok(Object {
            header: self.header.try_clone()?,
            pairs: self.pairs.try_clone()?,
        })
    }
}

impl Clone for Object {
    ghost is_clone = { λ old new. new ≡ old };

    fn clone(&self) -> Result<Object, AllocError> {
        self.try_clone()
    }
}

impl PartialEq for Object {
    ghost eq = { same_omap };

    ghost laws = { partial_equiv_from_equiv (decided _ omap_decides) };

    /// Whether both have the same header and the same pairs.
    fn eq(&self, other: &Object) -> bool
        ensures value { result ≡ same_omap self.now other.now }
        ensures same { IsTrue result ↔ (self.now ≡ other.now) }
    {
        self.header == other.header && self.pairs == other.pairs
    }
}

impl Eq for Object {
    ghost laws = { decided _ omap_decides };
}

// Clears the pairs, if so asked, and sets these.
fn put_pairs(pairs: &mut Pairs, clear: bool, set: Pairs) -> Result<(), AllocError>
    ensures ok { OnOk result (pairs.new ≡ overlaid (pairs_before clear pairs.old) set) }
    ensures err { OnErr result (pairs.new ≡ pairs.old) }
{
    if clear {
        *pairs = set;
        return Ok(());
    }
    pairs.overlay(set)
}

// Clears the header, if so asked, and writes the one given.
fn put_header(old: &mut Bytes, clear: bool, header: Option<Bytes>)
    ensures { old.new ≡ header_after clear header old.old }
{
    if let Some(header) = header {
        *old = header;
    } else if clear {
        old.clear();
    }
}
