// The steps of a task's end.
// Each takes the state and the task: a struct of both would only borrow the state, and its methods say the same of it.
ghost use Rattle.std.specs.Prelude.{◌≡◌, ◌<◌};
ghost use Rattle.deterministic.specs.Model.{free};
ghost use Rattle.deterministic.specs.Moves.{after_doing, leave};
ghost use Rattle.deterministic.specs.Moves as moved;
ghost use Rattle.deterministic.specs.Ending.{contexts_close, signal_goes, fault_kept, cascade as cascading_below, stops_running};
ghost use Rattle.dispatch.specs.Seen.{HasRoom, MarksFit, SpendsByMarks};
ghost use Rattle.state.specs.View.{view};
ghost use Rattle.ending.specs.Spent.{SpendsAtMost};

use entry::Entry;
use reasons::cause::Cause;
use reasons::ending::Ending;
use state::State;
use state::making::ROOT;

// Closes every context that the task holds.
pub fn close_contexts(state: &mut State, task: u64)
    ensures state { view state.new ≡ after_doing (contexts_close task) (view state.old) }
    ensures spent { SpendsAtMost state.old.dispatcher state.new.dispatcher 0 }
{
    state.tree.close_all(task);
}

// Lets the task's signal go. If completion comes with this, those who asked for it are queued, but not the task itself.
pub fn let_signal_go(state: &mut State, task: u64)
    requires room { HasRoom state.old.dispatcher 64 64 }
    ensures state { view state.new ≡ after_doing (signal_goes task) (view state.old) }
    ensures spent { SpendsAtMost state.old.dispatcher state.new.dispatcher 64 }
{
    state.stop.end(task);
    state.dispatcher.queue_all(state.stop.woken(), Cause::Stop);
}

// Keeps a fault, if the task ended by one, unless faults are caught or one was kept before; then the root is queued.
pub fn keep_fault(state: &mut State, fault: Option<u32>)
    requires room { HasRoom state.old.dispatcher 1 1 }
    ensures state { view state.new ≡ after_doing (fault_kept fault) (view state.old) }
    ensures spent { SpendsAtMost state.old.dispatcher state.new.dispatcher 1 }
{
    let Some(code) = fault else {
        return;
    };
    if state.faults.keep(code) {
        state
            .dispatcher
            .queue(ROOT, Entry::Wake(ROOT, Cause::Fault));
    }
}

// Aborts the task's node and all below it, and marks the tasks that sit there, but not the task itself.
pub fn cascade(state: &mut State, task: u64)
    requires fit { MarksFit state.old.dispatcher }
    ensures state { view state.new ≡ after_doing (cascading_below task) (view state.old) }
    ensures spent { SpendsByMarks state.old.dispatcher state.new.dispatcher }
{
    let Some(ending) = state.dispatcher.tasks.find(task) else {
        return;
    };
    if let Some(node) = ending.node {
        state.tree.cascade(node);
        state
            .dispatcher
            .mark_all(state.tree.marks(), task, &mut state.counts);
    }
}

// Counts the task as running no more, unless its mark has told so already.
pub fn stop_running(state: &mut State, task: u64)
    ensures state { view state.new ≡ after_doing (stops_running task) (view state.old) }
    ensures room { free (view state.new) ≡ free (view state.old) }
{
    let Some(ending) = state.dispatcher.tasks.find(task) else {
        return;
    };
    if !ending.marked {
        state.counts.running = state.counts.running.saturating_sub(1);
    }
}

// The task leaves the registry and its node, and the ledger says how it ended.
pub fn leave_registry(state: &mut State, task: u64, ending: Ending)
    requires room { 0 < free (view state.old) }
    ensures state { view state.new ≡ moved.move (leave task ending) (view state.old) }
{
    state.dispatcher.tasks.remove(task);
    state.tree.leave(task);
    state.dispatcher.write(Entry::Done(task, ending));
}
