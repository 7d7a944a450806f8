// The arranger that leaves the order.
ghost use Rattle.arrange.specs.Order.{kept};

use crate::arranger::Arranger;

// Items are dealt as they were queued. There is nothing to remember, so its value says nothing.
#[derive(Drop)]
pub struct Keep;

impl<T> Arranger<T> for Keep {
    ghost Value = { Unit {0} };

    ghost value = { λ _. tt };

    ghost rule = { kept };

    fn arrange(&mut self, _items: &mut [T]) {}
}
