//! One value that threads take in turn: each job finds the value as the job before it left it, and adds at most one entry.
#![tactic(auto)]

mod grows;
mod rule;
mod steps;
mod table;
mod turn;

pub use grows::Grows;
pub use turn::{Seat, Turn};
