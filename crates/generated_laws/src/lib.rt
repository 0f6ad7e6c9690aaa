//! The law of the documents that are made by a number: they are documents.
#![tactic(auto)]

pub mod laws;
