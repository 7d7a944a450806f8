// The report at the end of a run.
ghost use Rattle.std.specs.Prelude.{Some};
ghost use Rattle.entry.specs.Lines.{report_line};

use std::fmt;

#[derive(Clone, Copy, PartialEq, Eq, Debug)]
pub struct Report {
    // The rounds whose close was completed.
    pub rounds: u64,
    // The ids dealt, to a body or past an ended task.
    pub dealt: u64,
    // The ids that still stood in the queues, drained and waiting.
    pub undealt: u64,
    // The tasks registered, the root among them.
    pub registered: u64,
    // The ids queued by a wake or a ring.
    pub woken: u64,
}

impl fmt::Display for Report {
    ghost output = { λ r. Some (report_line r) };

    fn fmt<W: fmt::Write>(&self, f: &mut fmt::Formatter<W>) -> fmt::Result {
        let Report {
            rounds,
            dealt,
            undealt,
            registered,
            woken,
        } = *self;
        write!(
            f,
            "(report {rounds} {dealt} {undealt} {registered} {woken})"
        )
    }
}
