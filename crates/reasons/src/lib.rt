// Why an id was queued, how a task ended and how a run ended, with their numbers.
#![tactic(auto)]

pub mod cause;
pub mod end;
pub mod ending;
