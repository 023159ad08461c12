//! A store that fails one call.
ghost use Rattle.std.specs.Prelude.{◌≡◌, ◌-◌, ◌+◌, ◌↔◌, IsTrue, if◌then◌else◌};
ghost use Rattle.objstore.specs.Faulty.{IsPassedOn, all_faults};

use crate::name_pages::NamePage;
use crate::pages::Page;
use crate::stores::Store;
use crate::write_ops::WriteOp;
use mds_types::{Bytes, Refusal};
use std::alloc::Global;
use std::marker::Model;

/// A store over another one, of which one call fails: it isn't done, and answers a fault. Each other call is one call
/// of the store below, whose answer is given on.
#[derive(Debug, Drop)]
pub struct FaultStore<S: Store + Drop> {
    store: S,
    left: u64,
    failed: bool,
}

impl<S: Store + Drop> Model for FaultStore<S> {
    ghost use Rattle.std.specs.Prelude.{◌≡◌, true, if◌then◌else◌};
    ghost use Rattle.objstore.specs.Faulty.{Faulty, faulty_code};

    ghost Value = { Faulty S };

    ghost coded = { faulty_code S.code };

    ghost view = { λ s. record { store = s.store; left = s.left; failed = if s.failed then 1 else 0 } };

    ghost invariant = { λ s. s.failed ≡ true → s.left ≡ 0 };
}

impl<S: Store + Drop> FaultStore<S> {
    /// The store, of which the `k`-th call from now on will fail; none, for 0.
    pub fn new(store: S, k: u64) -> FaultStore<S>
        ensures { result ≡ record { store = store; left = k; failed = 0 } }
    {
        FaultStore {
            store,
            left: k,
            failed: false,
        }
    }

    /// How many calls have failed: 0 or 1.
    pub fn failed(&self) -> u64
        ensures { result ≡ self.now.failed }
    {
        u64::from(self.failed)
    }

    /// The store below.
    pub fn inner(&self) -> &S
        ensures { result.now ≡ self.now.store }
    {
        &self.store
    }

    // Counts a call, and tells whether it is the one that fails.
    fn fails(&mut self) -> bool
        ensures told { IsTrue result ↔ (self.old.left ≡ 1) }
        ensures left { self.new.left ≡ self.old.left - 1 }
        ensures failed { self.new.failed ≡ self.old.failed + (if result then 1 else 0) }
        ensures store { self.new.store ≡ self.old.store }
    {
        if self.left == 0 {
            return false;
        }
        self.left -= 1;
        let last = self.left == 0;
        if last {
            self.failed = true;
        }
        last
    }
}

impl<S: Store + Drop> Store for FaultStore<S> {
    ghost objects = { λ s. S.objects s.store };

    ghost faults = { all_faults S.faults };

    ghost IsCall = { IsPassedOn S.IsCall };

    fn header(&mut self, alloc: Global, name: &str) -> Result<Option<Bytes>, Refusal> {
        if self.fails() {
            return Err(Refusal::StoreFault);
        }
        self.store.header(alloc, name)
    }

    fn page(
        &mut self,
        alloc: Global,
        name: &str,
        after: Option<&Bytes>,
        max: usize,
    ) -> Result<Option<Page>, Refusal> {
        if self.fails() {
            return Err(Refusal::StoreFault);
        }
        self.store.page(alloc, name, after, max)
    }

    fn apply(&mut self, alloc: Global, name: &str, op: &WriteOp) -> Result<(), Refusal> {
        if self.fails() {
            return Err(Refusal::StoreFault);
        }
        self.store.apply(alloc, name, op)
    }

    fn remove(&mut self, name: &str) -> Result<(), Refusal> {
        if self.fails() {
            return Err(Refusal::StoreFault);
        }
        self.store.remove(name)
    }

    fn names_page(
        &mut self,
        alloc: Global,
        after: Option<&str>,
        max: usize,
    ) -> Result<NamePage, Refusal> {
        if self.fails() {
            return Err(Refusal::StoreFault);
        }
        self.store.names_page(alloc, after, max)
    }
}
