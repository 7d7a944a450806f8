// The end of a task, in its order: its contexts close; its signal goes; a fault of its own is kept, if it is the first that is
// not caught; what is below its node is aborted; it runs no more; it leaves.
#![tactic(auto)]

mod steps;
pub mod whole;
