// What an executor counts beside its ledger.

#[derive(Clone, Copy, PartialEq, Eq)]
pub struct Counts {
    // The rounds whose close was completed.
    pub iterations: u64,
    // The tasks that bodies asked for, also those that an aborted context refused.
    pub spawned: u64,
    // The tasks that were spawned and have neither ended nor been marked aborted.
    pub running: u64,
    // The tasks polled, whether their body was called or not.
    pub polls: u64,
}
