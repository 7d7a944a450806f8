// The stop signal: running or stopped, who holds a signal, and when the stop is complete.
#![tactic(auto)]

ghost use Rattle.std.specs.Prelude.{◌≡◌, is_some};
ghost use Rattle.oneshot.specs.Cell.{held};
ghost use Rattle.roster.specs.Model.{view as roll_of};
ghost use Rattle.signal.specs.Complete.{complete_with};

use oneshot::OneShot;
use reserved::Reserved;
use roster::{MOST_TASKS, Roster};

mod calls;

// Why a task may not ask.
#[derive(Clone, Copy, PartialEq, Eq, Debug)]
pub enum Refusal {
    // It asked a signal, and holds none.
    NoSignal,
    // It asked for completion before the stop.
    NotStopped,
}

// Coordinates the stop of all tasks: the first stop value stays, and completion comes once, when the
// executor is stopped and no task holds a signal that it took before.
#[derive(Drop)]
pub struct Stopper {
    // The first stop value, once there was a stop.
    value: OneShot<i32>,
    // Sent when completion comes, so that who asks for it need not ask the rows.
    completion: OneShot<()>,
    roster: Roster,
    // Those whom the last stop, letting go or end of a task woke.
    woken: Reserved<u64, MOST_TASKS>,
    ghost settled: { is_some (held completion) ≡ complete_with (held value) (roll_of roster).rows },
}
