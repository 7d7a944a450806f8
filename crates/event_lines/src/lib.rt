// Lines of events: how one is read, and what the audit tells of each.
#![tactic(auto)]

pub mod audit;
pub mod event;
mod hex;
pub mod reader;
pub mod wrong;
