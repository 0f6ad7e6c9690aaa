//! What the texts of a call say in a scope.
#![tactic(auto)]

mod conditions;
mod halt;
mod inputs;
mod loops;
mod saying;
mod spans;
mod tops;

pub use conditions::{goes_on, has_item_tag, is_true};
pub use halt::Halt;
pub use inputs::template_scope;
pub use loops::{item_scope, loop_items};
pub use saying::{said, said_option};
pub use spans::seconds_of;
pub use tops::{status_scope, workflow_scope};
