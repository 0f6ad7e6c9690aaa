//! Scopes: the values of tags, and what a text with tags says in a scope.
#![tactic(auto)]

mod law;
mod refused;
mod scope;
mod substituting;
mod tags;

pub use law::same_values;
pub use refused::SubstRefused;
pub use scope::Scope;
pub use substituting::subst;
pub use tags::Tags;
