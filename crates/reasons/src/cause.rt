// Why an id was queued again.
ghost use Rattle.std.specs.Prelude.{◌≡◌};
ghost use Rattle.reasons.specs.Numbers.{cause_number};

// Each has the number by which the ledger writes it.
#[derive(Clone, Copy, PartialEq, Eq, Debug)]
pub enum Cause {
    // A body asked for it.
    Wake = 0,
    // The task was marked aborted.
    Abort = 1,
    // The stop value came, or the stop is complete.
    Stop = 2,
    // A task's fault is kept for the root.
    Fault = 3,
}

impl From<Cause> for u8 {
    ghost from_gives = { λ cause number. number ≡ cause_number cause };

    fn from(cause: Cause) -> u8 {
        cause as u8
    }
}
