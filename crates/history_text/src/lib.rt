//! The text of a history, printed and read back.
#![tactic(auto)]

mod entries;
mod facts;
mod fault;
mod fits;
mod history;
mod left;
mod lines;
mod list;
mod parts;
mod read_entries;
mod read_facts;
mod read_parts;
mod read_path;
mod reading;
mod refused;

pub use history::print_history;
pub use reading::read_history;
pub use refused::HistoryRefused;
