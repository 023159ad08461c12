// The hash of a name.
ghost use Rattle.std.specs.Prelude.{◌≡◌};
ghost use Rattle.namehash.specs.Rjenkins.{hash_of};

use crate::block::BLOCK_LEN;
use crate::state::State;

/// Jenkins' hash of a name. It takes no memory and never fails; a name may be any bytes, and of a
/// length of 2^32 or more only the low 32 bits count.
#[tactic(auto, using(crate::proofs::Blocks::steps))]
pub fn rjenkins(name: &[u8]) -> u32
    ensures { result ≡ hash_of name.now }
{
    let mut state = State::new();
    let mut rest = name;
    while let Some((block, tail)) = rest.split_first_chunk::<BLOCK_LEN>() {
        state = state.absorb_block(block);
        rest = tail;
    }
    state.absorb_last(rest, name.len()).c
}
