// The totals of a run, read off its ledger.
ghost use Rattle.std.specs.Prelude.{◌≡◌};
ghost use Rattle.ledger.specs.Totals.{totals_of};

use entry::Entry;

#[derive(Clone, Copy, PartialEq, Eq, Debug)]
pub struct Totals {
    // The ids dealt, to a body or past an ended task.
    pub dealt: u64,
    // The tasks registered, the root among them.
    pub registered: u64,
    // The ids queued by a wake or a ring.
    pub woken: u64,
}

impl Totals {
    // The totals of these entries, counted in one pass: a poll or a skip deals an id, a registration registers a task, and a
    // wake or a ring queues an id.
    pub fn of(entries: &[Entry]) -> Totals
        ensures value { result ≡ totals_of entries.now }
    {
        let mut totals = Totals {
            dealt: 0,
            registered: 0,
            woken: 0,
        };
        for entry in entries {
            match entry {
                Entry::Poll(_, _) | Entry::Skip(_) => totals.dealt += 1,
                Entry::Reg(_) => totals.registered += 1,
                Entry::Wake(_, _) | Entry::Ring(_, _) => totals.woken += 1,
                _ => {}
            }
        }
        totals
    }
}
