//! One item of a loop, without the others where it can be told alone.
#![tactic(auto)]

mod one;
mod places;

pub use places::loop_item;
