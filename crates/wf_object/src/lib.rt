//! What the store of workflows keeps, as code: workflows with their trees, pods, the lock book and the caches.
#![tactic(auto)]

mod carrying;
mod closing;
mod content;
mod finding;
mod following;
pub mod laws;
mod object;
mod pod;
mod start;

pub use content::WfContent;
pub use finding::{pod_at, workflow_at};
pub use object::WfObject;
pub use pod::PodObject;
pub use start::starts;
pub use tree_incr::{TreeRefused, TreeState};
