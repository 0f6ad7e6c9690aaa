//! The rules on a document as a whole: how many workflows it has, what it says twice, what it names that is not there, and
//! the steps of its schedule; and the limits that it gives to locks.
#![tactic(auto)]

mod asked;
mod claims;
mod counts;
mod limits;
mod name_set;
mod names;
mod refused;
mod schedules;
mod seconds;

pub use counts::count_workflows;
pub use limits::limits_of;
pub use names::ask_names;
pub use refused::{BundleRefused, of_item};
pub use schedules::ask_schedules;
pub use seconds::ask_seconds;
