// How a task ended.
ghost use Rattle.std.specs.Prelude.{◌≡◌};
ghost use Rattle.reasons.specs.Numbers.{ending_number};

// Each has the number by which the ledger writes it.
#[derive(Clone, Copy, PartialEq, Eq, Debug)]
pub enum Ending {
    Returned = 0,
    Aborted = 1,
    Faulted = 2,
}

impl From<Ending> for u8 {
    ghost from_gives = { λ ending number. number ≡ ending_number ending };

    fn from(ending: Ending) -> u8 {
        ending as u8
    }
}
