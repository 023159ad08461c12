//! How descents are made to end at a fragment, for a merge there.
ghost use Rattle.std.specs.Prelude.{◌≡◌, ℕ, ◌+◌, ◌*◌, ◌<◌, ◌≤◌, Some, None, IfNone, IfSome, IsSome};
ghost use Rattle.std.specs.FinMap as map;
ghost use Rattle.mds_types.specs.Frag.{Fragment, IsFragment, ContainsFragment, child_of, frag_cmp};
ghost use Rattle.sorted_map.specs.SortedMap.{contents};
ghost use Rattle.fragtree.specs.Descents.{AllSome, Descends, EndsBeyond, IsClosed, IsForgotten, KeepsEnds, halved, splits_round};

use crate::descents::{frag_at, last_hash};
use mds_types::Frag;
use sorted_map::SortedMap;

/// Makes the descents of the hashes of a fragment end at it, where they went on before. Those of other hashes end where
/// they did. A fragment that they don't pass is first made one that they do: the splits round it are written anew.
pub fn close(splits: &mut SortedMap<Frag, u8>, f: Frag)
    requires some { AllSome (contents frag_cmp splits.old) }
    requires beyond { EndsBeyond (contents frag_cmp splits.old) f.value (f.bits + 1) }
    requires room { 2 * f.bits ≤ splits.old.room }
    ensures some { AllSome (contents frag_cmp splits.new) }
    ensures closed { IsClosed (contents frag_cmp splits.old) (contents frag_cmp splits.new) f }
{
    lead_to(splits, f);
    forget(splits, f);
}

// Makes the descents of the hashes of a fragment pass it. All of them end where they did.
fn lead_to(splits: &mut SortedMap<Frag, u8>, f: Frag)
    requires some { AllSome (contents frag_cmp splits.old) }
    requires beyond { EndsBeyond (contents frag_cmp splits.old) f.value (f.bits + 1) }
    requires room { 2 * f.bits ≤ splits.old.room }
    ensures some { AllSome (contents frag_cmp splits.new) }
    ensures same { KeepsEnds (contents frag_cmp splits.old) (contents frag_cmp splits.new) }
    ensures passes { Descends (splits_round (contents frag_cmp splits.new) f.value) f.bits 0 }
    ensures valid { IsFragment f }
{
    let mut bits = 0;
    while bits < f.bits() {
        bits = lead_on(splits, f, bits);
    }
}

// Leads the descent to f on from the fragment of so many bits that it passes, and returns the bits of the next one. A
// split there that passes over f is halved.
fn lead_on(splits: &mut SortedMap<Frag, u8>, f: Frag, bits: u8) -> u8
    requires before { bits < f.bits }
    requires some { AllSome (contents frag_cmp splits.old) }
    requires passes { Descends (splits_round (contents frag_cmp splits.old) f.value) bits 0 }
    requires beyond { EndsBeyond (contents frag_cmp splits.old) f.value (f.bits + 1) }
    requires room { 2 ≤ splits.old.room }
    ensures on { bits < result }
    ensures within { result ≤ f.bits }
    ensures some { AllSome (contents frag_cmp splits.new) }
    ensures same { KeepsEnds (contents frag_cmp splits.old) (contents frag_cmp splits.new) }
    ensures passes { Descends (splits_round (contents frag_cmp splits.new) f.value) result 0 }
    ensures room { splits.old.room ≤ splits.new.room + 2 }
{
    let passed = frag_at(bits, f.value());
    let nb = split_at(splits, passed);
    if nb <= f.bits() - bits {
        return bits + nb;
    }
    halve(splits, passed, nb);
    bits + 1
}

// By how many bits a fragment is split.
fn split_at(splits: &SortedMap<Frag, u8>, f: Frag) -> u8
    requires { IsSome (map.get (contents frag_cmp splits.now) f) }
    ensures { map.get (contents frag_cmp splits.now) f ≡ Some result }
{
    match splits.get(&f) {
        Some(nb) => *nb,
        None => unreachable!(),
    }
}

// Splits a fragment by 1 bit that is split by more, and its two halves by the bits that are left.
fn halve(splits: &mut SortedMap<Frag, u8>, f: Frag, nb: u8)
    requires split { map.get (contents frag_cmp splits.old) f ≡ Some nb }
    requires some { 1 ≤ nb }
    requires fits { f.bits + 1 ≤ 24 }
    requires room { 2 ≤ splits.old.room }
    ensures halved { contents frag_cmp splits.new ≡ halved (contents frag_cmp splits.old) f nb }
    ensures room { splits.old.room ≤ splits.new.room + 2 }
{
    let _ = splits.insert(f, 1);
    let _ = splits.insert(half(f, 0), nb - 1);
    let _ = splits.insert(half(f, 1), nb - 1);
}

// One of the two halves of a fragment.
fn half(f: Frag, i: u32) -> Frag
    requires fits { f.bits + 1 ≤ 24 }
    requires below { i < 2 }
    ensures { result ≡ child_of f i 1 }
{
    f.child(i, 1).unwrap()
}

// Forgets the splits of a fragment and of all within it.
fn forget(splits: &mut SortedMap<Frag, u8>, f: Frag)
    ensures { IsForgotten (contents frag_cmp splits.old) (contents frag_cmp splits.new) f }
{
    while let Some(within) = first_within(splits, f) {
        let _ = splits.remove(&within);
    }
}

// The first fragment within another that is split. They stand side by side, from the other one on.
fn first_within(splits: &SortedMap<Frag, u8>, f: Frag) -> Option<Frag>
    ensures valid { IsFragment f }
    ensures none { IfNone result ((g : Fragment) → IsFragment g → ContainsFragment f g
        → map.get (contents frag_cmp splits.now) g ≡ None) }
    ensures some { IfSome result (λ g. IsSome (map.get (contents frag_cmp splits.now) g) × ContainsFragment f g) }
{
    let last = last_hash(f);
    let (first, _) = splits.iter_from(&f).next()?;
    (first.value() <= last).then_some(*first)
}
