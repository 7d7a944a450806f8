// Who orders the items of a queue.
ghost use Rattle.std.specs.Prelude.{◌≡◌, List};
ghost use Rattle.std.specs.List.Sorted.{IsPermutation};
ghost use Rattle.arrange.specs.Order.{asked, EquallyOften, Order};

// Below this many items there is nothing to order.
const FEWEST_TO_ORDER: usize = 2;

// An arranger puts items of type T in an order. What it does is told by its value alone: from value and items the rule
// gives the value after and the order, with the proof that the items are the same, each equally often.
pub trait Arranger<T> {
    ghost Value: { Type 0 };

    ghost value: { Self → Value };

    ghost rule: { Value → (items : List T) → Order Value T items };

    // Puts the items in the rule's order.
    fn arrange(&mut self, items: &mut [T])
        ensures order { items.new ≡ (rule (value self.old) items.old).order }
        ensures next { value self.new ≡ (rule (value self.old) items.old).value };
}

// Has the arranger order the items where there are two or more. It is not asked about fewer: its value stays, so a shuffle
// makes no draw.
pub fn put_in_order<T, W: Arranger<T>>(arranger: &mut W, items: &mut [T])
    ensures order { items.new ≡ (asked W.rule (W.value arranger.old) items.old).order }
    ensures next { W.value arranger.new ≡ (asked W.rule (W.value arranger.old) items.old).value }
    ensures same { IsPermutation items.old items.new }
    ensures often { EquallyOften items.old items.new }
{
    if items.len() >= FEWEST_TO_ORDER {
        arranger.arrange(items);
    }
}
