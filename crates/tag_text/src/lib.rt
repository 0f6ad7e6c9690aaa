//! Texts with tags, `Hello {{inputs.parameters.name}}`: which pieces such a text has, and why a text is refused.
#![tactic(auto)]

mod law;
mod part;
mod reading;
mod refused;
mod tag_text;

pub use law::spelling;
pub use part::{Part, Piece};
pub use reading::parse_tags;
pub use refused::TagRefused;
pub use tag_text::TagText;
