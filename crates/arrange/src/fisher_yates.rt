// The shuffle of Fisher and Yates, over any items and any source of draws.
ghost use Rattle.std.specs.Prelude.{◌≡◌};
ghost use Rattle.std.specs.List.Sorted.{IsPermutation};
ghost use Rattle.arrange.specs.Deck.{deck, shuffled};
ghost use Rattle.arrange.specs.Order.{EquallyOften};
ghost use Rattle.arrange.specs.Reach.{EveryOrder};

use crate::draws::Draws;

// Shuffles the items by the next draws of the source, one fewer than there are items: from the last place down to place 1, each
// place is swapped with a drawn one at or before it.
pub fn shuffle<T, D: Draws>(items: &mut [T], source: &mut D)
    ensures order { deck (D.value source.new) items.new ≡ shuffled D.rule (deck (D.value source.old) items.old) }
    ensures same { IsPermutation items.old items.new }
    ensures often { EquallyOften items.old items.new }
    ensures reach { EveryOrder }
{
    for i in (1..items.len()).rev() {
        let j = (source.draw() % (i as u64 + 1)) as usize;
        items.swap(i, j);
    }
}
