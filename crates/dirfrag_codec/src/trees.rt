//! The header of a fragment tree's object.
ghost use Rattle.std.specs.Prelude.{◌≡◌, ◌+◌, ◌≤◌, ◌↔◌, IfOk, IsSome, IsTrue, MatchOption, OnErr, length};
ghost use Rattle.mds_types.specs.Frag.{span, word_of};
ghost use Rattle.dirfrag_codec.specs.Grammar.{Decodes};
ghost use Rattle.dirfrag_codec.specs.Leaves.{AreLeavesOf, AreTilesFrom, AreTreeOf, BeginsWithNone, EndsAt, IsFragmentOf};
ghost use Rattle.dirfrag_codec.specs.Reading.{Gives, words_at};
ghost use Rattle.dirfrag_codec.specs.TreeObject.{SpellsTree, StatesLeaves};
ghost use Rattle.dirfrag_codec.specs.Values.{tree_of_bytes};

use crate::fields::{after_tag, put_u16, put_u32, u16_at, u32_at};
use fragtree::FragTree;
use mds_types::Frag;
use std::alloc::{AllocError, Global};

// How a tree begins: its letter, and the version of the format.
const LETTER: u8 = b'T';

const VERSION: u8 = 1;

// How many bytes stand before the leaves, and how many each leaf has.
const FRONT_LEN: usize = 4;

const LEAF_LEN: usize = 4;

/// The bytes of a tree of two leaves or more. Takes memory for them.
pub fn encode_tree(alloc: Global, tree: &FragTree) -> Result<Vec<u8>, AllocError>
    requires { 2 ≤ length tree.now }
    ensures { IfOk result (λ bytes. SpellsTree bytes.items tree.now) }
{
    let count = tree.len();
    let mut bytes = Vec::with_capacity(alloc, FRONT_LEN + LEAF_LEN * count)?;
    bytes.extend_from_slice(&[LETTER, VERSION])?;
    put_u16(&mut bytes, count as u16)?;
    for leaf in tree {
        put_u32(&mut bytes, leaf.word())?;
    }
    Ok(bytes)
}

/// The tree whose bytes these are; none, where they are no tree of two leaves or more. Takes memory for the leaves, and
/// only once they are known to be a tree's, so there is an error for trees alone.
pub fn decode_tree(alloc: Global, bytes: &[u8]) -> Result<Option<FragTree>, AllocError>
    ensures spelled { IfOk result (Decodes SpellsTree bytes.now) }
    ensures value { IfOk result (λ answer. answer ≡ tree_of_bytes bytes.now) }
    ensures memory { OnErr result (StatesLeaves bytes.now) }
    ensures tree { OnErr result (IsSome (tree_of_bytes bytes.now)) }
{
    let Some(words) = words_of(bytes) else {
        return Ok(None);
    };
    if !are_tree(words) {
        return Ok(None);
    }
    let Some(leaves) = leaves_of(alloc, words)? else {
        return Ok(None);
    };
    FragTree::from_leaves(alloc, &leaves)
}

// The bytes of the leaves: as many as the front states, 2 leaves at least.
#[tactic(auto, unfolding(crate::specs::Reading::words_at))]
fn words_of(bytes: &[u8]) -> Option<&[u8]>
    ensures { Gives (λ words. words.now) result (words_at bytes.now) }
{
    let rest = after_tag(bytes, LETTER, VERSION)?;
    let (count, words) = u16_at(rest)?;
    if count < 2 || words.len() != LEAF_LEN * usize::from(count) {
        return None;
    }
    Some(words)
}

// Whether the words are those of a tree's leaves. Takes no memory.
fn are_tree(words: &[u8]) -> bool
    ensures { IsTrue result ↔ AreTreeOf words.now }
{
    if words.len() > LEAF_LEN * FragTree::MAX_LEAVES {
        return false;
    }
    do_tile(words)
}

// Whether the words are those of fragments that tile the hashes: each begins where the one before it ends.
fn do_tile(words: &[u8]) -> bool
    ensures { IsTrue result ↔ AreTilesFrom 0 words.now }
{
    let mut next = 0;
    let mut rest = words;
    while let Some((end, after)) = end_at(rest, next) {
        next = end;
        rest = after;
    }
    rest.is_empty() && next == 1 << Frag::MAX_BITS
}

// Where a fragment ends that begins at a hash, if its word stands at the front, and the bytes after it.
fn end_at(bytes: &[u8], low: u32) -> Option<(u32, &[u8])>
    ensures { MatchOption result (BeginsWithNone bytes.now low) (λ x. EndsAt bytes.now low x.0 x.1.now) }
{
    let Some((word, rest)) = u32_at(bytes) else {
        return None;
    };
    let Some(leaf) = frag_of(word) else {
        return None;
    };
    if leaf.value() != low {
        return None;
    }
    Some((end_of(leaf), rest))
}

// Where a fragment ends: the hash after its last.
fn end_of(f: Frag) -> u32
    ensures { result ≡ f.value + span f.bits }
{
    f.value() + (1 << (Frag::MAX_BITS - f.bits()))
}

// The fragments of these words, in the order of the words; none, where one is no fragment.
fn leaves_of(alloc: Global, words: &[u8]) -> Result<Option<Vec<Frag>>, AllocError>
    ensures { IfOk result (λ leaves. AreLeavesOf words.now leaves) }
{
    let mut leaves = Vec::with_capacity(alloc, words.len() / LEAF_LEN)?;
    let mut rest = words;
    while let Some((word, after)) = u32_at(rest) {
        let Some(leaf) = frag_of(word) else {
            return Ok(None);
        };
        leaves.push(leaf)?;
        rest = after;
    }
    if !rest.is_empty() {
        return Ok(None);
    }
    Ok(Some(leaves))
}

// The fragment of a word: the number of bits above the 24 bits of the value.
fn frag_of(word: u32) -> Option<Frag>
    ensures { IsFragmentOf word result }
{
    Frag::new(word % (1 << Frag::MAX_BITS), (word >> Frag::MAX_BITS) as u8)
}
