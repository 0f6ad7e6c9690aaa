//! The edge of the program: where bytes come from and where they go.
//!
//! Everything above this crate is generic over `Source` and `Sink`. So it is proved once, and runs over standard input
//! and output as well as over bytes in memory.
#![tactic(auto)]

mod call_plan;
mod gate;
mod memory_sink;
mod memory_source;
mod outage;
mod sink;
mod source;
mod standard;
mod transfer;

pub use call_plan::CallNumbers;
pub use gate::{Gate, HoldGate};
pub use memory_sink::MemSink;
pub use memory_source::MemSource;
pub use outage::{NoOutage, Outage, PlannedOutage};
pub use sink::Sink;
pub use source::{Failed, Source};
pub use standard::{StdSink, StdSource};
pub use transfer::{ReadRefused, read_all, write_all};
