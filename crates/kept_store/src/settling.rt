//! Tables that can be settled.
ghost use Rattle.std.specs.Prelude.{◌≡◌, IsTrue};
ghost use Rattle.sqlite_trees.specs.View.{IsQuiet};

use sqlite_disk::Disk;
use sqlite_store::FileStore;
use sqlite_trees::error::StoreError;
use sqlite_trees::memory::MemStore;
use sqlite_trees::store::Store;

/// Tables that can be gathered in one place at the end of a run.
pub trait Settle: Store {
    /// Gathers all that was committed in one place, such as the log of a database in its file. While the tables are
    /// open their content is the same. A crash leaves only what it could leave before. Called between transactions.
    fn settle(&mut self) -> Result<(), StoreError>
        ensures same { IsTrue (Self.Store.view self.new).is_open → Self.Store.view self.new ≡ Self.Store.view self.old }
        ensures quiet { IsQuiet Self.Store.view Self.Store.faults Self.Store.recovers Self.Store.is_shielded self.old self.new };
}

/// Writes the log of a database into its file.
impl<D: Disk + Drop> Settle for FileStore<D> {
    fn settle(&mut self) -> Result<(), StoreError> {
        self.checkpoint()
    }
}

/// Tables in memory are always in one place.
impl Settle for MemStore {
    fn settle(&mut self) -> Result<(), StoreError> {
        Ok(())
    }
}
