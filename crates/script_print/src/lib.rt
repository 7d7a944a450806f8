// How a script is printed: the one spelling that programs write.
#![tactic(auto)]

pub mod print;
