// Scripts: how a whole script is read.
#![tactic(auto)]

mod draft;
pub mod read;
pub mod script;
