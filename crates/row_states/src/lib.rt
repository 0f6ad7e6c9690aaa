//! Nodes over rows of calls: the nodes of groups, of steps and of looped calls, once the calls below them are made.
#![tactic(auto)]

mod group;
mod looped;
mod rows;
mod steps;

pub use group::{group_state, group_tags};
pub use looped::loop_state;
pub use rows::row;
pub use steps::steps_state;
