//! The lock book as code: which keys wait for which locks, which hold them, and to whom a lock goes.
#![tactic(auto)]

mod asked;
mod book;
mod bucket;
mod holder;
mod limit;
mod pieces;
mod question;
mod queue;
mod ranking;
mod refused;
mod requests;

pub use book::LockBook;
pub use question::PathTest;
pub use refused::{FileRefused, ReleaseRefused};
