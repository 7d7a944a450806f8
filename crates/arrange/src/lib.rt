// Who puts queued items in order: arrangers, and the sources of draws that a shuffle is over.
#![tactic(auto)]

pub mod arranger;
pub mod draws;
pub mod fisher_yates;
pub mod keep;
pub mod shuffle;
pub mod split_mix;
pub mod tape;
