//! The words in which the readers of documents are written: what a value at a path reads as, or its first refusal.
//!
//! A kind is such a meaning (`specs/Kinds.antt`). Each function here reads by one kind, and its one clause says so.
#![tactic(auto)]

mod fields;
mod kinds;
mod maps;
mod numbers;
mod readable;
mod refused;
mod refusing;
pub mod rules;
mod texts;
mod values;

pub use fields::{all_or_empty, list_or_empty, optional, optional_object, required, required_list};
pub use json_fields::FieldPath;
pub use kinds::{AnyText, AnyTextBy, Object, TextBy, UpTo};
pub use maps::map_of;
pub use numbers::{flag_or, number_or, optional_number, optional_whole, required_number, whole_or};
pub use readable::{Fields, Grammar, Keyed, Readable};
pub use refused::{KindRefused, refused_at, refused_field};
pub use refusing::{
    has, missing_unless, no_second, refuse_all, refuse_but, refuse_if, refuse_unless_false,
    unsupported_if,
};
pub use texts::{
    optional_any_text, optional_by, optional_text, optional_text_by, required_by, required_text,
    required_text_by, text_by_if, text_if, written_text, written_text_by, written_text_or,
};
pub use values::{all_of, list_of, members, needs_list, needs_object};
