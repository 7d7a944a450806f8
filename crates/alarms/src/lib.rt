// The alarms of sleeping tasks, in the order in which they ring.
#![tactic(auto)]

ghost use Rattle.std.specs.Prelude.{◌≡◌, true};
ghost use Rattle.reserved.specs.Held.{held};
ghost use Rattle.alarms.specs.Order.{ordered};

use reserved::Reserved;

mod calls;

// The most alarms that stand at a time.
pub const MOST_ALARMS: usize = 128;

// A task's wish to be queued when the clock reaches a time, in nanoseconds since the Unix epoch.
// Serials count armings from 0, so that of two alarms for one time the lower serial was armed first.
#[derive(Clone, Copy, PartialEq, Eq, Debug)]
pub struct Alarm {
    pub time: u64,
    pub serial: u64,
    pub task: u64,
}

// The refusal of an alarm while MOST_ALARMS stand.
#[derive(Clone, Copy, PartialEq, Eq, Debug)]
pub struct Full;

// The alarms that stand, the next to ring first, and the serial of the next arming.
#[derive(Drop)]
pub struct Alarms {
    standing: Reserved<Alarm, MOST_ALARMS>,
    next: u64,
    ghost order: { ordered next (held standing) ≡ true },
}
