// The book of one warrant or stock.
#![tactic(auto)]

pub mod call;
mod cancel;
mod change;
mod change_checks;
mod checks;
mod day;
mod entry;
mod find;
mod lots;
mod matching;
pub mod phase;
pub mod play;
mod quote;
mod resting;
mod side;
pub mod sides;
mod sweep;
