// The state of a hash under way, and how it takes in a block.
ghost use Rattle.std.specs.Prelude.{◌≡◌, ◌<◌, length};
ghost use Rattle.namehash.specs.Rjenkins.{start, mix_round, mix, absorb, absorb_block, absorb_last};

use crate::block::{BLOCK_LEN, Block, last_block, word_at};

/// The three words that a hash is made of.
#[derive(Clone, Copy)]
pub struct State {
    pub a: u32,
    pub b: u32,
    pub c: u32,
}

impl State {
    /// The state before the first byte.
    pub fn new() -> State
        ensures { result ≡ start }
    {
        State {
            a: 0x9e37_79b9,
            b: 0x9e37_79b9,
            c: 0,
        }
    }

    /// Takes in a whole block.
    #[tactic(auto, unfolding(crate::specs::Rjenkins::absorb_block))]
    pub fn absorb_block(self, block: &Block) -> State
        ensures { result ≡ absorb_block self block.now }
    {
        self.absorb(word_at(block, 0), word_at(block, 4), word_at(block, 8))
    }

    /// Takes in the rest of a name of `total` bytes, and its length.
    #[tactic(auto, unfolding(crate::specs::Rjenkins::absorb_last))]
    pub fn absorb_last(self, rest: &[u8], total: usize) -> State
        requires { length rest.now < BLOCK_LEN }
        ensures { result ≡ absorb_last self rest.now total }
    {
        let block = last_block(rest);
        let length = (total % (1 << 32)) as u32;
        let third = (word_at(&block, 8) << 8).wrapping_add(length);
        self.absorb(word_at(&block, 0), word_at(&block, 4), third)
    }

    // Adds a word to each of the three, and mixes the sums.
    #[tactic(auto, unfolding(crate::specs::Rjenkins::absorb))]
    fn absorb(self, x: u32, y: u32, z: u32) -> State
        ensures { result ≡ absorb self x y z }
    {
        let sums = State {
            a: self.a.wrapping_add(x),
            b: self.b.wrapping_add(y),
            c: self.c.wrapping_add(z),
        };
        sums.mix()
    }

    #[tactic(auto, unfolding(crate::specs::Rjenkins::mix))]
    fn mix(self) -> State
        ensures { result ≡ mix self }
    {
        self.mix_round(13, 8, 13)
            .mix_round(12, 16, 5)
            .mix_round(3, 10, 15)
    }

    // A third of the mix, by its three shifts.
    #[tactic(auto, unfolding(crate::specs::Rjenkins::mix_round))]
    fn mix_round(self, first: u32, second: u32, third: u32) -> State
        requires first { first < 32 }
        requires second { second < 32 }
        requires third { third < 32 }
        ensures { result ≡ mix_round first second third self }
    {
        let a = self.a.wrapping_sub(self.b).wrapping_sub(self.c) ^ (self.c >> first);
        let b = self.b.wrapping_sub(self.c).wrapping_sub(a) ^ (a << second);
        let c = self.c.wrapping_sub(a).wrapping_sub(b) ^ (b >> third);
        State { a, b, c }
    }
}
