// SplitMix64, a source of draws from a 64-bit seed.
ghost use Rattle.std.specs.Prelude.{◌≡◌, ℕ};
ghost use Rattle.arrange.specs.SplitMix.{split_rule};

use crate::draws::Draws;

// 2^64 over the golden ratio, made odd: the state runs through every 64-bit number before it comes round.
const GOLDEN_GAMMA: u64 = 0x9e3779b97f4a7c15;

const FIRST_MULTIPLIER: u64 = 0xbf58476d1ce4e5b9;

const SECOND_MULTIPLIER: u64 = 0x94d049bb133111eb;

// The state is all that it remembers, and its value.
#[derive(Drop)]
pub struct SplitMix64 {
    state: u64,
}

impl SplitMix64 {
    // The source that starts at this seed.
    pub fn seed_from_u64(seed: u64) -> SplitMix64
        ensures { result.state ≡ seed }
    {
        SplitMix64 { state: seed }
    }
}

impl Draws for SplitMix64 {
    ghost Value = { ℕ };

    ghost value = { λ s. s.state };

    ghost rule = { split_rule };

    fn draw(&mut self) -> u64 {
        self.state = self.state.wrapping_add(GOLDEN_GAMMA);
        let z = self.state;
        let z = (z ^ (z >> 30)).wrapping_mul(FIRST_MULTIPLIER);
        let z = (z ^ (z >> 27)).wrapping_mul(SECOND_MULTIPLIER);
        z ^ (z >> 31)
    }
}
