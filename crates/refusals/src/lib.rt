// Whether calls of a body may be made, and why not.
#![tactic(auto)]

pub mod calls;
pub mod conditions;
