// The blocks of 12 bytes that a name is read in.
ghost use Rattle.std.specs.Prelude.{◌≡◌, ◌+◌, ◌<◌, ◌≤◌, length};
ghost use Rattle.namehash.specs.Rjenkins.{last_block, block_word};

pub const BLOCK_LEN: usize = 12;

pub type Block = [u8; BLOCK_LEN];

/// The rest of a name, too short for a block, with zeros after it.
#[tactic(auto, unfolding(crate::specs::Rjenkins::last_block))]
pub fn last_block(rest: &[u8]) -> Block
    requires { length rest.now < BLOCK_LEN }
    ensures { result ≡ last_block rest.now }
{
    let mut block = [0; BLOCK_LEN];
    block[..rest.len()].copy_from_slice(rest);
    block
}

/// The little-endian word at byte `i` of a block.
#[tactic(auto, unfolding(crate::specs::Rjenkins::block_word))]
pub fn word_at(block: &Block, i: usize) -> u32
    requires { i + 4 ≤ BLOCK_LEN }
    ensures { result ≡ block_word block.now i }
{
    u32::from_le_bytes([block[i], block[i + 1], block[i + 2], block[i + 3]])
}
