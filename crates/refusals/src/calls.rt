// Whether each call may be made: the first of its conditions that fails answers its refusal, in the order of the tests.
ghost use Rattle.std.specs.Prelude.{◌≡◌};
ghost use Rattle.keyed.specs.Choices.{answered};
ghost use Rattle.deterministic.specs.Refusals.{◌else◌, room as room_left, context_held, task_free, node_left, link_left, place_free};
ghost use Rattle.deterministic.specs.Calls.{refusal, wake, abort, sleep_until};
ghost use Rattle.state.specs.View.{view};

use crate::conditions::{
    alarm_fits, context_held, id_known, link_left, node_left, not_root, place_free, room, task_free,
};
use deterministic::refusal::Refusal;
use state::State;

// A task may be spawned on the context, as far as is tested before its label is looked at.
pub fn may_spawn(state: &State, context: u64) -> Result<(), Refusal>
    ensures { result ≡ answered (room_left (view state.now) else context_held context (view state.now)) tt }
{
    // A spawn without room is told so before its context is looked at.
    room(state)?;
    context_held(state, context)
}

// A task may be seated at the context, which is not aborted: there is a task, a node, a link and a place in the queue for it.
pub fn may_seat(state: &State, context: u64) -> Result<(), Refusal>
    ensures { result ≡ answered (task_free (view state.now) else node_left (view state.now) else link_left context (view state.now) else place_free (view state.now)) tt }
{
    task_free(state)?;
    node_left(state)?;
    link_left(state, context)?;
    place_free(state)
}

// The task may sleep until a time.
pub fn may_sleep_until(state: &State, time: u64, serial: Option<u64>) -> Result<(), Refusal>
    ensures { result ≡ answered (refusal (sleep_until time serial) (view state.now)) tt }
{
    // A sleep without room is told so before its alarm is looked at.
    room(state)?;
    alarm_fits(state, time, serial)
}

// A task may be woken.
pub fn may_wake(state: &State, id: u64) -> Result<(), Refusal>
    ensures { result ≡ answered (refusal (wake id) (view state.now)) tt }
{
    room(state)?;
    // An id that was never given out is told so before the queue is looked at.
    id_known(state, id)?;
    place_free(state)
}

// A task may be aborted.
pub fn may_abort(state: &State, id: u64) -> Result<(), Refusal>
    ensures { result ≡ answered (refusal (abort id) (view state.now)) tt }
{
    room(state)?;
    id_known(state, id)?;
    not_root(id)
}
