//! The places of a manifest at which a rule is broken, in reading order.
#![tactic(auto)]

mod ancestry;
mod arguments;
mod around;
mod broken;
mod calls;
mod dags;
mod loops;
mod manifests;
mod names;
mod place;
mod tables;
mod tags;
mod templates;

pub use manifests::places_of;
pub use place::Place;
pub use tables::LockLimits;
