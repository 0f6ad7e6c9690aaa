//! What the calls of a manifest make over what is recorded of it.
#![tactic(auto)]

mod dag;
mod over;
mod templates;
mod walk;

pub use over::{After, Group, Listed, Row, begins, group_over, steps_over};
pub use templates::{Named, Positions, find_template, positions_of};
pub use walk::{FURTHER_DEPTHS, Walk, top_state};
