// The laws of every run, each proved of the definitions alone.
#![tactic(auto)]

mod queuing;
mod ringing;
mod runs;
mod supervising;
