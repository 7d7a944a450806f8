// How a run hands its state to a body, and gets it back.
ghost use Rattle.std.specs.Prelude.{◌≡◌};
ghost use Rattle.bounds.specs.Kept.{Bounded};
ghost use Rattle.state.specs.View.{view as seen};
ghost use Rattle.executor.specs.View.{view};

use crate::Executor;
use state::State;

impl Executor {
    // The executor over a state that keeps within its bounds.
    pub fn over(state: State) -> Executor
        requires bounded { Bounded (seen state) }
        ensures state { view result ≡ seen state }
    {
        Executor { state }
    }

    // The state, which keeps within its bounds whatever the body did.
    pub fn into_state(self) -> State
        ensures state { seen result ≡ view self }
        ensures bounded { Bounded (seen result) }
    {
        let Executor { state } = self;
        state
    }
}
