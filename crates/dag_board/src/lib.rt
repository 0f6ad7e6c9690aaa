//! How the tasks of a DAG stand while it is gone through, and what they make in the end.
#![tactic(auto)]

mod before;
mod board;
mod ending;
mod firsts;
mod turns;
mod verdict;

pub use board::Board;
pub use turns::stand_existing;
