//! Texts whose operands are joined by `||`, `&&`, `!` and parentheses, read for any language of operands.
#![tactic(auto)]

mod bytes;
pub mod draft;
pub mod operand;
pub mod reading;
pub mod state;

pub use draft::Draft;
pub use operand::Operand;
pub use reading::read;
pub use state::Next;
