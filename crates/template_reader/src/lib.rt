//! What templates read as: inputs, outputs, locks, memoization, retries and bodies.
#![tactic(auto)]

mod bodies;
mod inputs;
pub mod limits;
mod locks;
mod memos;
mod names;
mod outputs;
mod retries;
mod templates;

pub use locks::{read_lock, semaphore_lock};
pub use names::{ConfigKeyText, MutexName, ResourceName};
pub use retries::{FactorText, HoldersText, LimitText, PolicyName, Seconds};
pub use templates::TemplateFields;
