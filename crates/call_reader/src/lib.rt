//! What calls of templates read as: arguments, loops, exit hooks, steps, tasks and DAGs.
#![tactic(auto)]

mod arguments;
mod dags;
mod depends;
mod hooks;
mod loops;
mod steps;
mod tags;
mod texts;
mod words;

pub use arguments::read_arguments;
pub use dags::DagFields;
pub use depends::DependsText;
pub use steps::{StepFields, StepGroups};
pub use tags::Tagged;
pub use words::TaskNames;
