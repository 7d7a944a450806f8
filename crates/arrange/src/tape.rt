// A tape of draws, written down beforehand.
ghost use Rattle.std.specs.Prelude.{◌≡◌, ℕ, List};
ghost use Rattle.arrange.specs.Tape.{left, tape_rule};

use crate::draws::Draws;
use std::vec::IntoIter;

// Draws what stands on it, from first to last, and then zeros.
#[derive(Drop)]
pub struct Tape {
    draws: IntoIter<u64>,
}

impl Tape {
    // The tape with these draws on it.
    pub fn new(draws: Vec<u64>) -> Tape
        ensures { left result ≡ draws.items }
    {
        Tape {
            draws: draws.into_iter(),
        }
    }
}

// A tape's value is the list of the draws that are left on it.
impl Draws for Tape {
    ghost Value = { List ℕ };

    ghost value = { left };

    ghost rule = { tape_rule };

    fn draw(&mut self) -> u64 {
        self.draws.next().unwrap_or(0)
    }
}
