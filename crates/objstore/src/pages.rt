//! Pages of an object's pairs.
ghost use Rattle.std.specs.Prelude.{◌≡◌, IfOk};
ghost use Rattle.objstore.specs.Omap.{first_page};

use mds_types::Bytes;
use sorted_map::Iter;
use std::alloc::{AllocError, Global};
use std::marker::Model;

/// Some pairs in the order of their keys, and whether more follow in the object.
#[derive(Debug, Drop)]
pub struct Page {
    pairs: Vec<(Bytes, Bytes)>,
    more: bool,
}

impl Model for Page {
    ghost use Rattle.objstore.specs.Omap.{PairPage};

    ghost Value = { PairPage };

    ghost view = { λ p. record { pairs = p.pairs.items; more = p.more } };
}

impl Page {
    /// The pairs.
    pub fn pairs(&self) -> &[(Bytes, Bytes)]
        ensures { result.now ≡ self.now.pairs }
    {
        &self.pairs
    }

    /// Whether more pairs follow in the object.
    pub fn more(&self) -> bool
        ensures { result ≡ self.now.more }
    {
        self.more
    }

    /// The pairs, given away. Takes no memory.
    pub fn into_pairs(self) -> Vec<(Bytes, Bytes)>
        ensures { result.items ≡ self.pairs }
    {
        self.pairs
    }
}

/// Copies of the first `max` of these pairs, and whether more follow.
pub(crate) fn first_page(
    alloc: Global,
    mut rest: Iter<'_, Bytes, Bytes>,
    max: usize,
) -> Result<Page, AllocError>
    ensures { IfOk result (λ page. page ≡ first_page max rest.entry) }
{
    let mut pairs = Vec::with_capacity(alloc, rest.len().min(max))?;
    while let Some(pair) = rest.next() {
        if pairs.len() == max {
            return Ok(Page { pairs, more: true });
        }
        pairs.push(copy_of(pair)?)?;
    }
    Ok(Page { pairs, more: false })
}

// A copy of a pair.
fn copy_of(pair: &(Bytes, Bytes)) -> Result<(Bytes, Bytes), AllocError>
    ensures { IfOk result (λ copy. copy ≡ pair.now) }
{
    let key = pair.0.try_clone()?;
    match pair.1.try_clone() {
        Ok(value) => Ok((key, value)),
        Err(refused) => {
            drop(key);
            Err(refused)
        }
    }
}
