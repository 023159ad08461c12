//! Whether names and fragments rise.
ghost use Rattle.std.specs.Prelude.{◌≡◌, None};
ghost use Rattle.export_bytes.specs.Export.{is_frag_before, is_name_before, rise};

use crate::exports::SentFrag;
use mds_types::{Inode, Name};

/// Whether each name is above the one before it.
pub(crate) fn names_rise(names: &[(Name, Option<Inode>)]) -> bool
    ensures { result ≡ rise is_name_before None names.now }
{
    let mut last: Option<&(Name, Option<Inode>)> = None;
    for name in names {
        if let Some(last) = last
            && !is_name_before(last, name)
        {
            return false;
        }
        last = Some(name);
    }
    true
}

// Whether one name is below the other.
fn is_name_before(one: &(Name, Option<Inode>), other: &(Name, Option<Inode>)) -> bool
    ensures { result ≡ is_name_before one.now other.now }
{
    one.0.cmp(&other.0).is_lt()
}

/// Whether each fragment comes after the one before it, by inode and then by value.
pub(crate) fn frags_rise(frags: &[SentFrag]) -> bool
    ensures { result ≡ rise is_frag_before None frags.now }
{
    let mut last: Option<&SentFrag> = None;
    for frag in frags {
        if let Some(last) = last
            && !is_frag_before(last, frag)
        {
            return false;
        }
        last = Some(frag);
    }
    true
}

// Whether one fragment comes before the other.
fn is_frag_before(one: &SentFrag, other: &SentFrag) -> bool
    ensures { result ≡ is_frag_before one.now other.now }
{
    one.ino < other.ino || one.ino == other.ino && one.frag.value() < other.frag.value()
}
