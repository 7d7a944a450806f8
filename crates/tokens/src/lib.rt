// The tokens of a script's line, and the numbers that its words write.
#![tactic(auto)]

pub mod cursor;
pub mod expected;
pub mod number;
mod piece;
pub mod token;
