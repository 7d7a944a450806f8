// How a run ended.
ghost use Rattle.std.specs.Prelude.{◌≡◌};
ghost use Rattle.reasons.specs.Numbers.{end_number};

// Each has the number by which the ledger writes it.
#[derive(Clone, Copy, PartialEq, Eq, Debug)]
pub enum End {
    // The root's body was done.
    RootDone = 0,
    // The root faulted, or was dealt with a kept fault.
    Fault = 1,
    // The clock had reached the deadline.
    Timeout = 2,
    // Nothing waited and no alarm was left to ring.
    Stalled = 3,
    // One cycle more would pass the greatest time.
    Clock = 4,
    // The ledger had too few free places to go on.
    Ledger = 5,
}

impl From<End> for u8 {
    ghost from_gives = { λ end number. number ≡ end_number end };

    fn from(end: End) -> u8 {
        end as u8
    }
}
