// Where and why a script is refused, and the line that says so.
#![tactic(auto)]

pub mod fault;
pub mod line;
pub mod read_fault;
