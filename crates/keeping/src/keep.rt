//! A store that can be told to keep its objects.
ghost use Rattle.std.specs.Prelude.{◌≡◌, false, Bool, IfErr, IsTrue, List, OnOk};
ghost use Rattle.keeping.specs.declared.rows.RowEdit.{RowEdit as Edit};

use crate::rows::RowEdit;
use crate::unkept::Unkept;
use objstore::{MemStore, Store};

/// A store that has all its objects in memory, and can be told to bring them where they outlive the process, as into a
/// file. A program calls `keep` where what it wrote belongs together, as at the end of a flush, and `settle` once, at
/// its end.
pub trait Keep: Store {
    /// Whether `keep` and `settle` may fail. Of a store that is nowhere else they never do.
    ghost may_fail: { Type 0 };

    // Whether the store keeps rows beside its objects.
    ghost has_rows: { Bool };

    // What a `keep` of these edits that answers Ok makes of the store.
    ghost Takes: { Self → List Edit → Self → Type 0 };

    /// The objects, to read.
    fn memory(&self) -> &MemStore
        ensures { result.now ≡ Self.Store.objects self.now };

    /// Whether the store keeps rows beside its objects. One that keeps none ignores edits.
    fn keeps_rows(&self) -> bool
        ensures rows { result ≡ has_rows }
        ensures failing { IsTrue result → may_fail };

    /// Writes all objects that changed since the last call that returned Ok, and makes these edits of the rows that the
    /// store keeps beside them: all of it, or nothing. Whatever it returns, the objects are unchanged.
    fn keep(&mut self, edits: &[RowEdit]) -> Result<(), Unkept>
        ensures objects { Self.Store.objects self.new ≡ Self.Store.objects self.old }
        ensures taken { OnOk result (Takes self.old edits.now self.new) }
        ensures failed { IfErr result (λ _. may_fail) };

    /// Leaves what was kept whole in one place, as a database file whose log is empty. It brings nothing that `keep`
    /// has not, and what was kept stays so, whatever it answers.
    fn settle(&mut self) -> Result<(), Unkept>
        ensures objects { Self.Store.objects self.new ≡ Self.Store.objects self.old }
        ensures failed { IfErr result (λ _. may_fail) };

    // No call tells a fault.
    ghost faultless: { (s : Self) → Self.Store.faults s ≡ 0 };
}

/// A store that is nowhere else.
impl Keep for MemStore {
    ghost may_fail = { ⊥ };

    ghost has_rows = { false };

    ghost Takes = { λ old _ new. new ≡ old };

    ghost faultless = { λ _ _. 0 };

    fn memory(&self) -> &MemStore {
        self
    }

    fn keeps_rows(&self) -> bool {
        false
    }

    fn keep(&mut self, _edits: &[RowEdit]) -> Result<(), Unkept> {
        Ok(())
    }

    fn settle(&mut self) -> Result<(), Unkept> {
        Ok(())
    }
}
