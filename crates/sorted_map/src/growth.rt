//! The calls that take memory for more pairs.
ghost use Rattle.std.specs.Prelude.{◌≡◌, ◌+◌, ◌^◌, ◌<◌, ◌≤◌, IsOk, OnOk, OnErr, IfOk};
ghost use Rattle.std.specs.FinMap as map;
ghost use Rattle.sorted_map.specs.SortedMap.{contents};
ghost use Rattle.sorted_map.specs.Overlay.{overlaid};

use crate::chunked::map::ChunkMap;
use crate::chunks::MOST;
use crate::keys::ExactOrd;
use crate::map::{SortedMap, Store};
use std::alloc::{AllocError, Global};
use std::mem;

impl<K: ExactOrd + Drop, V: Drop> SortedMap<K, V> {
    /// Makes room for `additional` more keys, so that as many insertions cannot fail.
    ///
    /// An error says that memory ran out. Where the room is there already nothing is done, and there is no error.
    #[inline(always)]
    pub fn reserve(&mut self, additional: usize) -> Result<(), AllocError>
        ensures ok { OnOk result (additional ≤ self.new.room) }
        ensures same { contents K.cmp self.new ≡ contents K.cmp self.old }
        ensures grows { self.old.room ≤ self.new.room }
        ensures ready { additional ≤ self.old.room → IsOk result × (self.new ≡ self.old) }
        ensures err { OnErr result (self.new ≡ self.old) }
    {
        if additional <= self.room() {
            return Ok(());
        }
        self.grow(additional)
    }

    // Makes room for so many more keys, where there is less.
    #[inline(never)]
    fn grow(&mut self, additional: usize) -> Result<(), AllocError>
        requires { self.old.room < additional }
        ensures ok { OnOk result (additional ≤ self.new.room) }
        ensures same { contents K.cmp self.new ≡ contents K.cmp self.old }
        ensures grows { self.old.room ≤ self.new.room }
        ensures err { OnErr result (self.new ≡ self.old) }
    {
        match &mut self.store {
            Store::Flat(flat) => {
                if additional <= MOST.saturating_sub(flat.len()) {
                    return flat.reserve(additional);
                }
                let alloc = flat.allocator();
                self.part(alloc, additional)
            }
            Store::Chunked(chunked) => chunked.reserve(additional),
        }
    }

    /// Lays another map over this one: each of its keys gets the value that it has there.
    ///
    /// All the memory is taken first.
    pub fn overlay(&mut self, over: SortedMap<K, V>) -> Result<(), AllocError>
        ensures ok { OnOk result (contents K.cmp self.new ≡ overlaid (contents K.cmp self.old) (contents K.cmp over)) }
        ensures err { OnErr result (contents K.cmp self.new ≡ contents K.cmp self.old) }
    {
        self.reserve(over.len())?;
        self.put_all(over);
        Ok(())
    }

    // Puts the pairs into chunks, with room for so many more.
    fn part(&mut self, alloc: Global, additional: usize) -> Result<(), AllocError>
        ensures ok { OnOk result (additional ≤ self.new.room) }
        ensures same { contents K.cmp self.new ≡ contents K.cmp self.old }
        ensures err { OnErr result (self.new ≡ self.old) }
    {
        let total = in_all(self.len(), additional)?;
        let mut chunked = ChunkMap::new(alloc);
        chunked.reserve(total)?;
        let chunked = Box::new(alloc, chunked)?;
        let fresh = SortedMap {
            store: Store::Chunked(chunked),
        };
        let pairs = mem::replace(self, fresh);
        self.put_all(pairs);
        Ok(())
    }

    // Puts all pairs of another map in, for which there is room.
    fn put_all(&mut self, over: SortedMap<K, V>)
        requires { map.len (contents K.cmp over) ≤ self.old.room }
        ensures laid { contents K.cmp self.new ≡ overlaid (contents K.cmp self.old) (contents K.cmp over) }
        ensures room { self.old.room ≤ self.new.room + map.len (contents K.cmp over) }
    {
        for pair in over {
            self.put(pair);
        }
    }

    // Puts a pair in, for which there is room.
    pub(crate) fn put(&mut self, pair: (K, V))
        requires { 0 < self.old.room }
        ensures put { contents K.cmp self.new ≡ map.insert (contents K.cmp self.old) pair.0 pair.1 }
        ensures room { self.old.room ≤ self.new.room + 1 }
    {
        let _ = self.insert(pair.0, pair.1);
    }
}

// So many pairs and so many more. An error says that they are more than can be counted.
fn in_all(len: usize, additional: usize) -> Result<usize, AllocError>
    ensures ok { IfOk result (λ total. total ≡ len + additional) }
    ensures err { OnErr result (2 ^ 64 ≤ len + additional) }
{
    len.checked_add(additional).ok_or(AllocError)
}
