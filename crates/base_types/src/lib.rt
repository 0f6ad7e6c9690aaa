//! Texts and lists that contracts see as lists, and copies of them: what the types of every other crate are made of.
#![tactic(auto)]

mod copying;
pub mod limits;
mod list;
mod memory;
mod names;
mod shared;
mod slice;
mod text;

pub use copying::TryCopy;
pub use list::{Bytes, List};
pub use memory::Memory;
pub use names::{is_name, is_name_byte};
pub use shared::Shared;
pub use slice::SharedSlice;
pub use text::{Names, Text};
