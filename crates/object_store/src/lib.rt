//! A store of versioned objects that keeps its accepted entries: each write names the version that it starts from, and
//! is refused where the object moved on.
#![tactic(auto)]

mod content;
pub mod laws;
mod ledger;
mod line;
mod refused;
mod snapshot;
mod starts;
mod store;

pub use content::Content;
pub use refused::StoreRefused;
pub use snapshot::Snapshot;
pub use starts::Starts;
pub use store::{MOST_FAULTS, Store};
