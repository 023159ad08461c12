//! Pages of the names of objects.
ghost use Rattle.std.specs.Prelude.{◌≡◌, IfOk, List, ℕ, map, string_bytes};
ghost use Rattle.objstore.specs.Omap.{Omap};
ghost use Rattle.objstore.specs.Objects.{first_names};

use crate::objects::Object;
use mds_types::Text;
use sorted_map::Iter;
use std::alloc::{AllocError, Global};
use std::marker::Model;

/// Some names of objects in order, and whether more follow in the store.
#[derive(Debug, Drop)]
pub struct NamePage {
    names: Vec<String>,
    more: bool,
}

impl Model for NamePage {
    ghost use Rattle.std.specs.Prelude.{map, string_bytes};
    ghost use Rattle.objstore.specs.Objects.{NameList};

    ghost Value = { NameList };

    ghost view = { λ p. record { names = map string_bytes p.names.items; more = p.more } };
}

impl NamePage {
    /// The names.
    pub fn names(&self) -> &[String]
        ensures { map string_bytes result.now ≡ self.now.names }
    {
        &self.names
    }

    /// Whether more names follow in the store.
    pub fn more(&self) -> bool
        ensures { result ≡ self.now.more }
    {
        self.more
    }

    /// The names, given away. Takes no memory.
    pub fn into_names(self) -> Vec<String>
        ensures { map string_bytes result.items ≡ self.names }
    {
        self.names
    }
}

/// Copies of the names of the first `max` of these objects, and whether more follow.
pub(crate) fn first_names(
    alloc: Global,
    mut rest: Iter<'_, Text, Object>,
    max: usize,
) -> Result<NamePage, AllocError>
    ensures { IfOk result (λ page. page ≡ first_names max (map (λ (e : List ℕ × Omap). e.0) rest.entry)) }
{
    let mut names = Vec::with_capacity(alloc, rest.len().min(max))?;
    while let Some((name, _)) = rest.next() {
        if names.len() == max {
            return Ok(NamePage { names, more: true });
        }
        names.push(String::from_str(alloc, name.as_str())?)?;
    }
    Ok(NamePage { names, more: false })
}
