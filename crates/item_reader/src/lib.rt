//! What the items of a document read as: workflows, ConfigMaps, planned outcomes, commands and schedules.
#![tactic(auto)]

mod commands;
mod configs;
mod ends;
mod items;
mod outcome;
mod outcomes;
mod schedules;
mod steps;

pub use commands::{Command, Commands};
pub use configs::{Config, Configs};
pub use items::{Item, read_item, says};
pub use outcome::PlannedOutcome;
pub use outcomes::{Plan, PlannedPod, PlannedPods};
pub use schedules::{Schedule, ScheduleStep};
