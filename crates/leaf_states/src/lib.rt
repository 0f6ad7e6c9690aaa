//! The states of nodes below which no template is called.
#![tactic(auto)]

mod answers;
mod making;
mod pods;
mod retries;
mod suspends;

pub use answers::{hit, looking, saving, waiting};
pub use making::lone;
pub use pods::pod;
pub use retries::retried;
pub use suspends::suspended;
