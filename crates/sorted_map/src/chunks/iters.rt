//! An iterator over pairs in the order in which they stand.
ghost use Rattle.std.specs.Prelude.{◌≡◌, ◌<◌, ◌^◌, ◌++◌, length, Some, IfSome};
ghost use Rattle.std.specs.Iterator.{UpTo, YieldsFirstRef, at_most, item_count};
ghost use Rattle.std.specs.Iterator.SizeHint.{IsWithinCount};
ghost use Rattle.sorted_map.specs.Chunks.{flat, total};
ghost use Rattle.sorted_map.specs.Iters.{IsRest};

use crate::chunks::chunk::Chunk;
use std::iter::FusedIterator;
use std::marker::Model;

/// An iterator over pairs in the order in which they stand: those of a slice, and then those of chunks. Of a map it
/// gives them from the least key to the greatest.
#[derive(Drop)]
pub struct Iter<'a, K, V> {
    front: &'a [(K, V)],
    rest: &'a [Chunk<K, V>],
}

impl<'a, K, V> Model for Iter<'a, K, V> {
    ghost use Rattle.std.specs.Prelude.{List, ◌++◌};
    ghost use Rattle.sorted_map.specs.Chunks.{flat};
    ghost use Rattle.sorted_map.specs.Iters.{IsRest};

    ghost Value = { List (K × V) };

    ghost view = { λ a. a.front.now ++ flat a.rest.now };

    ghost invariant = { λ a. IsRest a.front.now a.rest.now };
}

impl<'a, K, V> Iter<'a, K, V> {
    /// The pairs of a slice.
    pub fn of_pairs(pairs: &'a [(K, V)]) -> Self
        ensures { result ≡ pairs.now }
    {
        Iter {
            front: pairs,
            rest: &[],
        }
    }

    /// The pairs of a slice, and then those of chunks, of which none is empty.
    pub fn of_chunks(front: &'a [(K, V)], rest: &'a [Chunk<K, V>]) -> Self
        requires { IsRest front.now rest.now }
        ensures { result ≡ front.now ++ flat rest.now }
    {
        Iter { front, rest }
    }
}

impl<'a, K, V> Iterator for Iter<'a, K, V> {
    type Item = &'a (K, V);

    ghost next_gives = { YieldsFirstRef (λ s. s) };

    ghost remaining = { item_count (λ s. s) };

    fn next(&mut self) -> Option<&'a (K, V)> {
        if self.front.is_empty() {
            let (chunk, rest) = self.rest.split_first()?;
            self.front = chunk.pairs();
            self.rest = rest;
        }
        let (first, front) = self.front.split_first()?;
        self.front = front;
        Some(first)
    }

    fn size_hint(&self) -> (usize, Option<usize>)
        ensures lower { IsWithinCount result.0 (at_most (length self.now)) }
        ensures upper { IfSome result.1 (UpTo (at_most (length self.now))) }
        ensures exact { result ≡ (length self.now, Some (length self.now)) }
    {
        let len = self.len();
        (len, Some(len))
    }
}

impl<'a, K, V> ExactSizeIterator for Iter<'a, K, V> {
    fn len(&self) -> usize {
        self.front.len() + count(self.rest)
    }
}

impl<'a, K, V> FusedIterator for Iter<'a, K, V> {}

// How many pairs there are in chunks.
fn count<K, V>(chunks: &[Chunk<K, V>]) -> usize
    requires { total length chunks.now < 2 ^ 64 }
    ensures { result ≡ total length chunks.now }
{
    let mut count = 0;
    for chunk in chunks {
        count += chunk.len();
    }
    count
}
