//! Values whose copies share what they have in common, so that older values stay and a change costs little.
#![tactic(auto)]

mod chunks;
mod list;
mod row;

pub use base_types::Shared;
pub use list::SharedList;
pub use row::Row;
