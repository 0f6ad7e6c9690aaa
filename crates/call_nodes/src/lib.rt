//! Places, nodes, outputs and tags of calls: what an evaluation makes of a call once it knows how the call ended.
#![tactic(auto)]

mod ended;
mod endings;
mod loops;
mod nodes;
mod places;
mod tagging;

pub use ended::{computed_node, ended_node, pod_node, suspended_node};
pub use endings::{Ending, completed, computed, defaulted};
pub use loops::loop_outputs;
pub use nodes::{bare, covered, kind_of, node};
pub use places::{
    attempt_place, child, copy_place, group_place, hook_place, item_place, member_place, task_place,
};
pub use tagging::add_tags_of;
