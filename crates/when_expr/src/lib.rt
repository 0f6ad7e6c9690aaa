//! The text of a `when`: read against its grammar, and evaluated.
#![tactic(auto)]

mod evaluation;
mod following;
mod inner;
pub mod law;
mod number;
mod operands;
mod refused;
mod steps;
pub mod when;

pub use refused::{NotNumbers, WhenRefused};
pub use when::{When, eval, parse_when};
