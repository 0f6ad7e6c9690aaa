//! What a call makes, kept as a tree of shared parts: its node, what it asks for, and what stands below it.
#![tactic(auto)]

mod beginning;
mod below;
mod chunk;
mod clue;
mod filled;
mod finding;
mod inserting;
mod kinds;
mod law;
mod listing;
mod pods;
mod questions;
mod refused;
mod room;
mod shared;
mod state;
mod sum;
mod tally;
mod told;

pub use below::Below;
pub use clue::Clue;
pub use finding::sooner;
pub use inserting::{Entry, TaskPlace};
pub use kinds::WantKind;
pub use law::counts_nodes;
pub use questions::{NodeTest, WantTest};
pub use refused::TreeRefused;
pub use room::Room;
pub use shared::Shared;
pub use state::State;
pub use told::Told;
