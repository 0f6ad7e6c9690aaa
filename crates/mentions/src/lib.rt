//! Which calls and declared outputs ask for a tag that begins with a prefix, and the laws that others do not depend on
//! such tags.
#![tactic(auto)]

mod asking;
pub mod laws;
mod texts;
mod values;

pub use asking::{call_asks_for, group_asks_for, outputs_ask_for};
