//! The object of a directory's tree is brought up to date.
ghost use Rattle.std.specs.Prelude.{◌≡◌, ◌+◌, ◌<◌};
ghost use Rattle.objstore.specs.Objects.{faults_told};
ghost use Rattle.std.specs.Result.{result_err};
ghost use Rattle.mdcache.specs.Objects.{SavesTree};
ghost use Rattle.mdcache.specs.Core.{IsSoundCore, state_of};

use crate::mdcache::MdCache;
use crate::tree_objects::save_tree;
use mds_types::{Ino, ObjName, ObjText, Refusal, Spelt};
use objstore::Store;
use std::alloc::Global;

impl<S: Store + Drop> MdCache<S> {
    /// Makes the object of a directory's tree say what leaves the directory has: it is written, if there is more than
    /// one and the object isn't so already, and removed, if there is one. Its name leaves the purge list. Takes memory
    /// before it writes.
    ///
    /// Refused `NoSuchFrag` exactly where there is no such directory; otherwise as the store refuses, and `NoMemory`.
    pub fn commit_tree(&mut self, alloc: Global, dir: Ino) -> Result<(), Refusal>
        requires { IsSoundCore self.old }
        ensures saved { SavesTree (state_of self.old) (state_of self.new) self.old.faults self.new.faults dir result }
        ensures caches { self.new.caches ≡ self.old.caches }
        ensures counted { self.new.faults ≡ self.old.faults + faults_told (result_err result) }
        ensures sound { IsSoundCore self.new }
    {
        if !self.dirs.contains(dir) {
            return Err(Refusal::NoSuchFrag);
        }
        let text = Spelt::of(ObjName::Tree(dir));
        if let Err(refusal) = save_tree(alloc, &self.dirs, &mut self.store, dir, text.as_str()) {
            return Err(refusal);
        }
        let listed = ObjText::of(ObjName::Tree(dir));
        self.purge.remove(&listed);
        Ok(())
    }
}
