//! What is asked for of a kind and left to be done, listed ahead, so that each of many steps in a row looks at one want of it.
#![tactic(auto)]

mod listed;

pub use listed::Ahead;
