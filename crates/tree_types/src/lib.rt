//! The data of workflows as they run: places, phases, facts and journals, node trees, entries of the store and their keys.
#![tactic(auto)]

mod copies;
mod entry;
mod fact;
mod journal;
mod node;
mod outcome;
mod path;
mod phase;
mod want;

pub use entry::{Entries, Entry, HolderKey, Key, Limit, Limits, Rank};
pub use fact::{Fact, Facts};
pub use journal::Journal;
pub use node::{Kind, Node, Nodes, Note, Tree};
pub use outcome::{Outcome, Outputs, Param, Params};
pub use path::{LockId, Path, Sel, Sels};
pub use phase::{Phase, fulfilled, worst};
pub use want::{Want, Wants};
