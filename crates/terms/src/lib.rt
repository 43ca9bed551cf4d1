// The words that every part shares: refusals, letters, limits, the set-up of a book and the messages of a tape.
#![tactic(auto)]

pub mod letter;
pub mod limits;
pub mod message;
pub mod numbers;
pub mod refusal;
pub mod setup;
pub mod side;
pub mod trade;
