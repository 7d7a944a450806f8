// The forms of a script: a setting or a task with its steps, one a line.
#![tactic(auto)]

pub mod fault;
pub mod form;
pub mod reader;
mod step;
