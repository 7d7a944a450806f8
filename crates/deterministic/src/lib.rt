// What an executor is, does and answers: its definitions, and the small types that they speak of.
#![tactic(auto)]

pub mod body;
pub mod clock;
pub mod counts;
pub mod crew;
mod facts;
pub mod outcome;
pub mod refusal;
