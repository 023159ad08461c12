//! An iterator that gives pairs away in the order in which they stand.
ghost use Rattle.std.specs.Prelude.{◌≡◌, ◌++◌};
ghost use Rattle.std.specs.Iterator.{YieldsFirst, item_count};
ghost use Rattle.sorted_map.specs.Chunks.{flat, AllSome};

use crate::chunks::chunk::Chunk;
use std::alloc::Global;
use std::marker::Model;
use std::vec;

/// An iterator that gives pairs away in the order in which they stand: those of a vector, and then those of chunks.
#[derive(Drop)]
pub struct IntoIter<K, V> {
    front: vec::IntoIter<(K, V), Global>,
    rest: vec::IntoIter<Chunk<K, V>, Global>,
}

impl<K, V> Model for IntoIter<K, V> {
    ghost use Rattle.std.specs.Prelude.{List, ◌++◌};
    ghost use Rattle.std.specs.Vec.Iter.{into_iter_items, into_iter_len};
    ghost use Rattle.sorted_map.specs.Chunks.{flat};
    ghost use Rattle.sorted_map.specs.Iters.{AreLeft};

    ghost Value = { List (K × V) };

    ghost view = { λ a. into_iter_items a.front ++ flat (into_iter_items a.rest) };

    ghost invariant = { λ a. AreLeft (into_iter_items a.front) (into_iter_len a.front) (into_iter_items a.rest)
        (into_iter_len a.rest) };
}

impl<K, V> IntoIter<K, V> {
    /// The pairs of a vector, and then those of chunks, of which none is empty.
    pub(crate) fn new(front: Vec<(K, V)>, rest: Vec<Chunk<K, V>>) -> Self
        requires { AllSome rest.items }
        ensures { result ≡ front.items ++ flat rest.items }
    {
        IntoIter {
            front: front.into_iter(),
            rest: rest.into_iter(),
        }
    }
}

impl<K: Drop, V: Drop> Iterator for IntoIter<K, V> {
    type Item = (K, V);

    ghost next_gives = { YieldsFirst (λ s. s) };

    ghost remaining = { item_count (λ s. s) };

    fn next(&mut self) -> Option<(K, V)> {
        if self.front.len() == 0 {
            let chunk = self.rest.next()?;
            self.front = chunk.into_pairs().into_iter();
        }
        self.front.next()
    }
}
