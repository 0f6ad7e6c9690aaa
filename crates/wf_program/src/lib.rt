//! The top call of the program, over any source of bytes, any sink and any outage: words and bytes in, text and a status out.
#![tactic(auto)]

mod asked;
mod documents;
mod ended;
mod run;
mod status;
mod texts;
mod top;

pub use ended::Ended;
pub use status::Status;
pub use top::argo;
