// The arranger that shuffles.
ghost use Rattle.std.specs.Prelude.{◌≡◌};
ghost use Rattle.arrange.specs.Shuffle.{shuffle_rule};

use crate::arranger::Arranger;
use crate::draws::Draws;
use crate::fisher_yates;

// Shuffles what it is given by the next draws of its source; its value is the source's.
#[derive(Drop)]
pub struct Shuffle<D> {
    source: D,
}

impl<D> Shuffle<D> {
    // The shuffle over a source of draws.
    pub fn new(source: D) -> Shuffle<D>
        ensures { result.source ≡ source }
    {
        Shuffle { source }
    }
}

impl<T, D: Draws> Arranger<T> for Shuffle<D> {
    ghost Value = { D.Value };

    ghost value = { λ s. D.value s.source };

    ghost rule = { shuffle_rule D.rule };

    fn arrange(&mut self, items: &mut [T]) {
        fisher_yates::shuffle(items, &mut self.source);
    }
}
