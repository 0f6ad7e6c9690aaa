//! Documents that are made by a number: workflows of four shapes, and which of their pods fail.
#![tactic(auto)]

mod bundle;
mod draws;
mod fields;
mod outcomes;
mod templates;
mod workflows;

pub use bundle::{make_bundle, print_bundle};
pub use draws::{Drawn, Shape};
