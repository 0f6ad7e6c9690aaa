//! What a worker and a runner do next, by what they have read, and what an answer makes of that. The crate has definitions
//! alone; `next_laws` has the theorems.
#![tactic(auto)]
