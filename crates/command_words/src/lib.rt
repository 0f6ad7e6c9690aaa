//! The words of the command line: what they ask for, or that they are not of the command.
#![tactic(auto)]

mod command;
mod order;
mod refused;
mod words;

pub use order::{Mode, Order};
pub use refused::WordsRefused;
pub use words::read_words;
