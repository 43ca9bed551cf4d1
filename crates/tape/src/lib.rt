// The message tape: reading its numbers, its set-up and its messages, and writing decimal numbers.
#![tactic(auto)]

pub mod decimal;
pub mod message;
pub mod number;
pub mod setup;
