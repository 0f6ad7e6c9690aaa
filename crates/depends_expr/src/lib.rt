//! The text of a DAG task's `depends`: read against its grammar, and evaluated over the results of the tasks that it names.
#![tactic(auto)]

pub mod depends;
mod evaluation;
mod following;
pub mod law;
mod names;
mod numbering;
mod operands;
mod refused;
pub mod results;
mod spelling;
mod steps;

pub use depends::{Depends, eval, parse_depends};
pub use refused::DependsRefused;
pub use results::TaskResult;
