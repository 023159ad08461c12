//! Objects that nothing owns any more are removed, one by one.
ghost use Rattle.std.specs.Prelude.{◌≡◌, ◌+◌};
ghost use Rattle.objstore.specs.Objects.{faults_told};
ghost use Rattle.std.specs.Result.{result_err};
ghost use Rattle.mdcache.specs.Objects.{Purges};
ghost use Rattle.mdcache.specs.Core.{IsSoundCore, state_of};

use crate::mdcache::MdCache;
use mds_types::Refusal;
use objstore::Store;

impl<S: Store + Drop> MdCache<S> {
    /// Removes the first object of the purge list from the store, and its name from the list. Where the list is empty
    /// there is nothing to do. Takes no memory of its own.
    ///
    /// Refused as the store refuses; the name stays on the list then.
    pub fn purge(&mut self) -> Result<(), Refusal>
        requires { IsSoundCore self.old }
        ensures purged { Purges (state_of self.old) (state_of self.new) self.old.faults self.new.faults result }
        ensures caches { self.new.caches ≡ self.old.caches }
        ensures counted { self.new.faults ≡ self.old.faults + faults_told (result_err result) }
        ensures sound { IsSoundCore self.new }
    {
        let Some(name) = self.purge.first() else {
            return Ok(());
        };
        let text = name.text();
        if let Err(refusal) = self.store.remove(text.as_str()) {
            return Err(refusal);
        }
        self.purge.remove_first();
        Ok(())
    }
}
