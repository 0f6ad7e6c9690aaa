//! The names of nodes: how a node below another is named, and which nodes a name leads through.
#![tactic(auto)]

mod law;
mod naming;
mod reading;
mod seg;

pub use law::distinct_names;
pub use naming::{child_name, is_step_name};
pub use reading::segs_of;
pub use seg::{Seg, Segs};
