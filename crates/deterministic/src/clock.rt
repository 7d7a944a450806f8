// The virtual clock of a run. Times are nanoseconds since the Unix epoch.

#[derive(Clone, Copy, PartialEq, Eq)]
pub struct Clock {
    pub time: u64,
    // By how much each round moves the clock.
    pub cycle: u64,
    // When the run is out of time. Without a deadline it never is.
    pub deadline: Option<u64>,
}
