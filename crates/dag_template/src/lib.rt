//! What follows the tasks of a DAG that are made.
#![tactic(auto)]

mod in_order;
mod judging;
pub mod law;
mod next;
mod standing;
mod stands;
mod states;

pub use judging::{Verdict, judge, judge_found};
pub use next::{dag_next, is_doomed, next_in_order, phase_seen};
pub use stands::{Stand, stands_at, waiting};
pub use states::{DagStep, Places, TaskState, TaskStates};
