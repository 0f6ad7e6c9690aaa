//! Loops: the items of a call with `withItems`, `withParam` or `withSequence`, or why there are none.
#![tactic(auto)]

mod fanning;
mod format;
mod lists;
mod numbers;
mod refused;
mod said;
mod sequence;
mod tags;
mod texts;

use base_types::List;
pub use fanning::items;
pub use refused::FanRefused;
pub use tags::add_item_tags;
pub use texts::{item_text, name_text};
use wf_manifest::Json;

/// The items of a loop.
pub type Items = List<Json>;
