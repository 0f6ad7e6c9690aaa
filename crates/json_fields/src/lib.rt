//! Fields of a JSON object, taken by name and kind, and the paths at which they stand.
#![tactic(auto)]

mod path;
mod refused;
mod take;

pub use base_types::Text as FieldText;
pub use path::FieldPath;
pub use refused::FieldRefused;
pub use take::{any_text, refuse, says_nothing, take_flag, take_object, take_whole};
