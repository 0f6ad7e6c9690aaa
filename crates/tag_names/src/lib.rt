//! What the tag of a text names.
#![tactic(auto)]

pub mod law;
mod naming;
mod tag_name;

pub use naming::tag_named;
pub use tag_name::{StepField, TagName};
