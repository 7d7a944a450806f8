// One line of the ledger: what happened, to which task, at what time; and how it is printed.
#![tactic(auto)]

pub mod lines;
pub mod report;

use reasons::cause::Cause;
use reasons::end::End;
use reasons::ending::Ending;

// Ids of tasks and times, in nanoseconds since the Unix epoch, are plain numbers here.
#[derive(Clone, Copy, PartialEq, Eq, Debug)]
pub enum Entry {
    // (reg id): the task was registered and queued.
    Reg(u64),
    // (round n): n ids were drained.
    Round(u64),
    // (poll id b): the task was dealt, and its body called or not.
    Poll(u64, bool),
    // (skip id): an id was dealt that is not registered.
    Skip(u64),
    // (arm id t): the task has a new alarm at t.
    Arm(u64, u64),
    // (ring id t): the alarm for t rang and queued the task.
    Ring(u64, u64),
    // (tick t): one cycle later the clock is t.
    Tick(u64),
    // (jump t): the clock went on to the earliest alarm, t.
    Jump(u64),
    // (wake id c): the task was queued for that cause.
    Wake(u64, Cause),
    // (mark id): the task was marked aborted.
    Mark(u64),
    // (done id h): the task ended so.
    Done(u64, Ending),
    // (end e): the run ended so.
    End(End),
}
