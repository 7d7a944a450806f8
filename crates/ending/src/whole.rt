// A task ends.
ghost use Rattle.std.specs.Prelude.{◌≡◌, ◌+◌, ◌≤◌};
ghost use Rattle.deterministic.specs.Model.{free};
ghost use Rattle.deterministic.specs.Moves.{after_doing};
ghost use Rattle.deterministic.specs.Ending.{ending_of};
ghost use Rattle.deterministic.specs.Bounds.{Sound, Calm};
ghost use Rattle.state.specs.View.{view};

use crate::steps::{
    cascade, close_contexts, keep_fault, leave_registry, let_signal_go, stop_running,
};
use reasons::ending::Ending;
use state::State;

// Ends a task, with the code of its fault if it faulted.
pub fn end_task(state: &mut State, task: u64, ending: Ending, fault: Option<u32>)
    requires sound { Sound (view state.old) }
    requires calm { Calm (view state.old) }
    requires room { 194 ≤ free (view state.old) }
    ensures state { view state.new ≡ after_doing (ending_of task ending fault) (view state.old) }
{
    close_contexts(state, task);
    let_signal_go(state, task);
    keep_fault(state, fault);
    cascade(state, task);
    stop_running(state, task);
    leave_registry(state, task, ending);
}
