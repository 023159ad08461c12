//! `Store`: what the store of objects promises.
ghost use Rattle.std.specs.Prelude.{◌≡◌, ◌+◌, ◌≤◌, ℕ, Option, IfOk, IfErr, OnOk, OnErr, option_copied};
ghost use Rattle.std.specs.Result.{result_err};
ghost use Rattle.std.specs.FinMap as map;
ghost use Rattle.mds_types.specs.declared.refusals.Refusal.{Refusal as Reason};
ghost use Rattle.objstore.specs.Objects.{Objects, MayRefuse, faults_told, first_names, header_at, object_names_after, page_at, written};

use crate::name_pages::NamePage;
use crate::pages::Page;
use crate::write_ops::WriteOp;
use mds_types::{Bytes, Refusal};
use std::alloc::Global;

/// A map from names, which are texts, to objects.
///
/// Each call can be refused for want of memory (`Refusal::NoMemory`), or by a fault (`Refusal::StoreFault`). Either way
/// all objects stay as they were. The count of faults rises by one in a call that answers a fault, and in no other
/// call: so no fault is hidden, tried again, or told as anything else.
pub trait Store {
    ghost objects: { Self → Objects };

    ghost faults: { Self → ℕ };

    // What exactly one call of the store leads to, from the state before it and the refusal that it answers, if any. No
    // law says more: so a store that stands on another can show that it made one call of it, and gave its answer on.
    ghost IsCall: { Self → Option Reason → Self → Type 0 };

    /// The header of the object; none, where the object is absent.
    fn header(&mut self, alloc: Global, name: &str) -> Result<Option<Bytes>, Refusal>
        ensures found { IfOk result (λ header. header ≡ header_at (objects self.old) name.now) }
        ensures same { objects self.new ≡ objects self.old }
        ensures grows { faults self.old ≤ faults self.new }
        ensures refused { IfErr result (MayRefuse (faults self.old) (faults self.new)) }
        ensures counted { faults self.new ≡ faults self.old + faults_told (result_err result) }
        ensures called { IsCall self.old (result_err result) self.new };

    /// The next pairs of the object after a key, at most `max` of them, and whether more follow; none, where the object
    /// is absent.
    fn page(
        &mut self,
        alloc: Global,
        name: &str,
        after: Option<&Bytes>,
        max: usize,
    ) -> Result<Option<Page>, Refusal>
        requires { 1 ≤ max }
        ensures found { IfOk result (λ page. page
            ≡ page_at (objects self.old) name.now (option_copied after.entry) max) }
        ensures same { objects self.new ≡ objects self.old }
        ensures grows { faults self.old ≤ faults self.new }
        ensures refused { IfErr result (MayRefuse (faults self.old) (faults self.new)) }
        ensures counted { faults self.new ≡ faults self.old + faults_told (result_err result) }
        ensures called { IsCall self.old (result_err result) self.new };

    /// Does the operation on the object, in full or not at all. An object that is absent is made.
    fn apply(&mut self, alloc: Global, name: &str, op: &WriteOp) -> Result<(), Refusal>
        ensures done { OnOk result (objects self.new ≡ written (objects self.old) name.now op.now) }
        ensures same { OnErr result (objects self.new ≡ objects self.old) }
        ensures grows { faults self.old ≤ faults self.new }
        ensures refused { IfErr result (MayRefuse (faults self.old) (faults self.new)) }
        ensures counted { faults self.new ≡ faults self.old + faults_told (result_err result) }
        ensures called { IsCall self.old (result_err result) self.new };

    /// Removes the object. Where it is absent there is nothing to do, and that is no fault.
    fn remove(&mut self, name: &str) -> Result<(), Refusal>
        ensures done { OnOk result (objects self.new ≡ map.remove (objects self.old) name.now) }
        ensures same { OnErr result (objects self.new ≡ objects self.old) }
        ensures grows { faults self.old ≤ faults self.new }
        ensures refused { IfErr result (MayRefuse (faults self.old) (faults self.new)) }
        ensures counted { faults self.new ≡ faults self.old + faults_told (result_err result) }
        ensures called { IsCall self.old (result_err result) self.new };

    /// The next names after one, at most `max` of them, and whether more follow.
    fn names_page(
        &mut self,
        alloc: Global,
        after: Option<&str>,
        max: usize,
    ) -> Result<NamePage, Refusal>
        requires { 1 ≤ max }
        ensures found { IfOk result (λ page. page
            ≡ first_names max (object_names_after (objects self.old) (option_copied after.entry))) }
        ensures same { objects self.new ≡ objects self.old }
        ensures grows { faults self.old ≤ faults self.new }
        ensures refused { IfErr result (MayRefuse (faults self.old) (faults self.new)) }
        ensures counted { faults self.new ≡ faults self.old + faults_told (result_err result) }
        ensures called { IsCall self.old (result_err result) self.new };
}
