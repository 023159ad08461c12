//! What splits and merges share: the numbers that they take, and the names of objects.
ghost use Rattle.std.specs.Prelude.{◌≡◌, ◌⊎◌, ◌+◌, ◌-◌, ◌<◌, ◌≤◌, ◌^◌, cond, OnOk, IfErr};
ghost use Rattle.mds_types.specs.declared.refusals.Refusal.TheVariants.{NoInodes};
ghost use Rattle.mdcache.specs.Core.{state_of};
ghost use Rattle.mdcache.specs.Ready.{LacksNumbers};
ghost use Rattle.mdcache.specs.Regroups.{LacksCounts};
ghost use Rattle.mdcache.specs.State.{text_of};

use crate::counters::Counters;
use crate::mdcache::MdCache;
use mds_types::{Frag, Ino, ObjName, ObjText, Refusal};
use objstore::Store;

impl<S: Store + Drop> MdCache<S> {
    /// Whether numbers are left for so many fragments that come, and for their names: what `split` and `merge` ask
    /// before they take memory. Refused `NoInodes` exactly where they aren't. Takes no memory.
    pub fn check_numbers(&self, count: u64) -> Result<(), Refusal>
        ensures ok { OnOk result (LacksCounts count (state_of self.now) → ⊥) }
        ensures left { OnOk result ((self.now.next_generation + count < 2 ^ 64)
            × (self.now.next_version < 2 ^ 64 - 1)) }
        ensures err { IfErr result (λ reason. (reason ≡ NoInodes) × LacksCounts count (state_of self.now)) }
    {
        check_counts(self.next.generation, count, self.next.version)
    }
}

// Whether numbers are left for so many fragments that come, and for their names.
fn check_counts(generation: u64, count: u64, version: u64) -> Result<(), Refusal>
    ensures ok { OnOk result ((generation + count < 2 ^ 64) × (version < 2 ^ 64 - 1)) }
    ensures err { IfErr result (λ reason. (reason ≡ NoInodes)
        × (LacksNumbers count generation ⊎ LacksNumbers 1 version)) }
{
    if u64::MAX - generation < count || version == u64::MAX {
        return Err(Refusal::NoInodes);
    }
    Ok(())
}

/// Takes the generations of so many fragments that came, and a version, if they have names.
pub(crate) fn take_counts(next: &mut Counters, count: u64, empty: bool)
    requires generation { next.old.generation + count < 2 ^ 64 }
    requires version { next.old.version < 2 ^ 64 - 1 }
    ensures { next.new ≡ record next.old
        { generation = next.old.generation + count; version = next.old.version + cond empty 0 1 } }
{
    next.generation += count;
    if !empty {
        next.version += 1;
    }
}

/// How many children a fragment has that is split by so many bits, at most 8.
pub(crate) fn child_count(nb: u8) -> u32
    requires { nb ≤ 8 }
    ensures { result ≡ 2 ^ nb }
{
    1 << nb
}

/// The name of a leaf's object.
pub(crate) fn object_name(dir: Ino, frag: Frag) -> ObjText
    ensures { result ≡ text_of (dir, frag) }
{
    ObjText::of(ObjName::Frag(dir, frag))
}
