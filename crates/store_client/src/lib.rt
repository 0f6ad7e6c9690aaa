//! The store as workers see it: four calls, each answered at one history that goes on from all that was seen before.
#![tactic(auto)]

mod client;
mod held;
mod in_turn;
mod mem_client;
mod turn_client;
mod views;

pub use client::Client;
pub use held::Held;
pub use mem_client::MemClient;
pub use turn_client::TurnClient;
pub use views::Views;
