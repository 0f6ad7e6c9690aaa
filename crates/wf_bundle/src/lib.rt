//! Documents: what a JSON value says, or its first refusal with the item, the rule and the field.
#![tactic(auto)]

mod checking;
mod document;
mod items;
mod outcomes;
mod parts;

pub use bundle_rules::BundleRefused;
pub use document::{Document, Schedule, ScheduleSteps, Valids, read_bundle};
pub use outcomes::Outcomes;
