// The conditions of a call: each is one test, which is passed or answers its refusal.
ghost use Rattle.std.specs.Prelude.{◌≡◌, nat_le};
ghost use Rattle.keyed.specs.Choices.{answered};
ghost use Rattle.deterministic.specs.declared.refusal.Refusal.TheVariants.{NoRoom};
ghost use Rattle.deterministic.specs.Model.{free};
ghost use Rattle.deterministic.specs.Refusals.{unless, call_granted, room as room_left, id_known, not_root, context_held, task_free, node_left, link_left, place_free, alarm_fits};
ghost use Rattle.state.specs.View.{view};

use alarms::MOST_ALARMS;
use deterministic::refusal::Refusal;
use state::State;
use state::making::ROOT;
use tasks::MOST_TASKS;

// The most calls that are granted in a poll.
pub const MOST_CALLS: u64 = 4_096;

// The free entries that a call asks for which may write.
pub const FREE_ENTRIES: usize = 512;

// The ids that may wait before a spawn or a wake is refused.
pub const MOST_QUEUED: usize = 256;

// The refusal, where the condition does not hold.
fn require(holds: bool, refusal: Refusal) -> Result<(), Refusal>
    ensures { result ≡ answered (unless holds refusal) tt }
{
    if holds { Ok(()) } else { Err(refusal) }
}

// The conditions take the state and what is asked of it: a struct of both would only borrow the state, and is no plainer. Each
// compares another part of the state with its limit. `answered .. tt` says in each that the refusal of the definitions is the error:
// a word of its own would hide that and say no more.
// At most MOST_CALLS are granted in a poll.
pub fn call_granted(state: &State) -> Result<(), Refusal>
    ensures { result ≡ answered (call_granted (view state.now)) tt }
{
    require(state.body.granted < MOST_CALLS, Refusal::NoRoom)
}

// FREE_ENTRIES are free.
fn entries_free(state: &State) -> Result<(), Refusal>
    ensures { result ≡ answered (unless (nat_le 512 (free (view state.now))) NoRoom) tt }
{
    require(state.dispatcher.free() >= FREE_ENTRIES, Refusal::NoRoom)
}

// A call that may write is granted, and has room.
pub fn room(state: &State) -> Result<(), Refusal>
    ensures { result ≡ answered (room_left (view state.now)) tt }
{
    call_granted(state)?;
    entries_free(state)
}

// The id was given out.
pub fn id_known(state: &State, id: u64) -> Result<(), Refusal>
    ensures { result ≡ answered (id_known id (view state.now)) tt }
{
    require(id < state.dispatcher.tasks.next_id(), Refusal::UnknownTask)
}

// The id is not the root's.
pub fn not_root(id: u64) -> Result<(), Refusal>
    ensures { result ≡ answered (not_root id) tt }
{
    require(id > ROOT, Refusal::UnknownTask)
}

// The context is open, and the calling task holds it.
pub fn context_held(state: &State, context: u64) -> Result<(), Refusal>
    ensures { result ≡ answered (context_held context (view state.now)) tt }
{
    require(
        state.tree.is_open(state.body.task, context),
        Refusal::NotOpen,
    )
}

// One more task may be registered.
pub fn task_free(state: &State) -> Result<(), Refusal>
    ensures { result ≡ answered (task_free (view state.now)) tt }
{
    require(
        state.dispatcher.tasks.len() < MOST_TASKS,
        Refusal::TooManyTasks,
    )
}

// One more node may live.
pub fn node_left(state: &State) -> Result<(), Refusal>
    ensures { result ≡ answered (node_left (view state.now)) tt }
{
    require(state.tree.has_node(), Refusal::TooManyNodes)
}

// A link is free for a child of the context's node, or none is needed.
pub fn link_left(state: &State, context: u64) -> Result<(), Refusal>
    ensures { result ≡ answered (link_left context (view state.now)) tt }
{
    let free = state.tree.is_aborted(context) || state.tree.has_link(context);
    require(free, Refusal::TooManyLinks)
}

// Fewer than MOST_QUEUED ids wait.
pub fn place_free(state: &State) -> Result<(), Refusal>
    ensures { result ≡ answered (place_free (view state.now)) tt }
{
    require(
        state.dispatcher.queues.waiting() < MOST_QUEUED,
        Refusal::TooManyWaiting,
    )
}

// A time that is not reached is waited for by an alarm: a serial that is given is that of the task's own alarm for the time, and
// without one, one more alarm may stand.
pub fn alarm_fits(state: &State, time: u64, serial: Option<u64>) -> Result<(), Refusal>
    ensures { result ≡ answered (alarm_fits time serial (view state.now)) tt }
{
    if time <= state.clock.time {
        return Ok(());
    }
    match serial {
        Some(serial) => {
            let own = state.alarms.stands(serial, state.body.task, time);
            require(own, Refusal::NotOwnAlarm)
        }
        None => require(state.alarms.count() < MOST_ALARMS, Refusal::TooManyAlarms),
    }
}
