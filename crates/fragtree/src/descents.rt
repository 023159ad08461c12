//! How a descent goes through the splits, from `*` to the leaf of a hash.
ghost use Rattle.std.specs.Prelude.{◌≡◌, ℕ, ◌+◌, ◌^◌, ◌<◌, ◌≤◌};
ghost use Rattle.mds_types.specs.Frag.{IsFragment, frag_cmp, span};
ghost use Rattle.sorted_map.specs.SortedMap.{contents};
ghost use Rattle.fragtree.specs.Descents.{AllSome, Ends, EndsBeyond, frag_of_hash, splits_round};

use mds_types::Frag;
use sorted_map::SortedMap;

/// The fragment at which the descent of a 24-bit hash ends. Takes no memory.
pub fn leaf_of(splits: &SortedMap<Frag, u8>, hash: u32) -> Frag
    requires low { hash < 2 ^ 24 }
    requires some { AllSome (contents frag_cmp splits.now) }
    requires ends { EndsBeyond (contents frag_cmp splits.now) hash 0 }
    ensures { (bits : ℕ) → bits ≤ 24 → Ends (splits_round (contents frag_cmp splits.now) hash) bits
        → result ≡ frag_of_hash bits hash }
{
    let mut leaf = Frag::ROOT;
    while let Some(nb) = splits.get(&leaf) {
        leaf = frag_at(leaf.bits() + *nb, hash);
    }
    leaf
}

/// The fragment of so many bits that contains a 24-bit hash.
pub fn frag_at(bits: u8, hash: u32) -> Frag
    requires few { bits ≤ 24 }
    requires low { hash < 2 ^ 24 }
    ensures { result ≡ frag_of_hash bits hash }
{
    let span = 1 << (Frag::MAX_BITS - bits);
    Frag::new(hash - hash % span, bits).unwrap()
}

/// The last of the 24-bit hashes that a fragment contains.
pub fn last_hash(f: Frag) -> u32
    ensures last { result + 1 ≡ f.value + span f.bits }
    ensures low { result < 2 ^ 24 }
    ensures valid { IsFragment f }
{
    f.value() + ((1 << (Frag::MAX_BITS - f.bits())) - 1)
}
