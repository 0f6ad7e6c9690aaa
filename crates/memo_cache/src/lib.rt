//! A cache as code: what is saved under which key, and what a look-up finds.
#![tactic(auto)]

mod bucket;
mod cache;
mod kept;
mod refused;
mod table;

pub use cache::Cache;
pub use refused::SaveRefused;
