// The executor of a rehearsal, as the body of a task meets it.
#![tactic(auto)]

ghost use Rattle.bounds.specs.Kept.{Bounded};
ghost use Rattle.state.specs.View.{view};

use state::State;

pub mod crew;
pub mod handing;

// An executor while a body is called. What a body can do to it are the calls, and nothing else.
#[derive(Drop)]
pub struct Executor {
    state: State,
    // Who is registered, listed and seated agrees, and every number is far below 2^64; at most 449 ids wait; and enough entries
    // are free for the end of the task.
    ghost bounded: { Bounded (view state) },
}
