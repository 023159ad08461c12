//! Laws of this crate's constants and orders: they are those that the definitions name. A law is its contract: its body
//! does nothing.
ghost use Rattle.std.specs.Prelude.{◌≡◌};
ghost use Rattle.mds_types.specs.Frag.{Fragment, frag_cmp, root_fragment};

use crate::errno::{
    EEXIST, EINVAL, EISDIR, ENAMETOOLONG, ENOENT, ENOSPC, ENOTDIR, ENOTEMPTY, ESTALE,
};
use crate::frags::Frag;
use crate::ids::Ino;
use crate::limits::Limit;
use crate::modes::Mode;
use crate::names::Name;
use crate::page_sizes::PageSize;
use crate::targets::Target;

/// The error numbers are Linux's.
pub fn error_numbers_are_linux()
    ensures no_entry { ENOENT ≡ 2 }
    ensures exists { EEXIST ≡ 17 }
    ensures no_directory { ENOTDIR ≡ 20 }
    ensures directory { EISDIR ≡ 21 }
    ensures invalid { EINVAL ≡ 22 }
    ensures no_space { ENOSPC ≡ 28 }
    ensures too_long { ENAMETOOLONG ≡ 36 }
    ensures not_empty { ENOTEMPTY ≡ 39 }
    ensures stale { ESTALE ≡ 116 }
{}

/// The public constants of types are those that the definitions name; those that are seen as a model are given back.
pub fn constants_are_named() -> (Frag, PageSize, Mode, Limit)
    ensures root { Ino.ROOT ≡ record { 0 = 1 } }
    ensures bits { Frag.MAX_BITS ≡ 24 }
    ensures name { Name.MAX_LEN ≡ 255 }
    ensures target { Target.MAX_LEN ≡ 4095 }
    ensures whole { result.0 ≡ root_fragment }
    ensures page { result.1 ≡ 1024 }
    ensures link { result.2 ≡ 511 }
    ensures entries { result.3 ≡ 1048576 }
{
    (Frag::ROOT, PageSize::MAX, Mode::LINK, Limit::MAX)
}

/// Fragments are ordered by value, and then by how many bits they fix.
pub fn fragments_are_ordered_by_value()
    ensures { (f g : Fragment) → ⟦<Frag as Ord>⟧.cmp f g ≡ frag_cmp f g }
{}
