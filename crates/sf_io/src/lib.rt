//! Where a run's bytes come from and go to: sources and sinks that count their faults, the script
//! read whole from a source, and records written to a sink. Everything above answers a failed read
//! or write only where a count of faults rose. The gate that a run asks before each step of an
//! actor stands here too.
#![tactic(auto)]

mod adapters;
mod gate;
mod memory;
mod streams;
mod traits;

pub use adapters::{ReadSource, WriteSink};
pub use gate::{Gate, OpenGate};
pub use memory::{MemSink, MemSource};
pub use sf_base;
pub use streams::{ReadFault, WriteFault, put, read_all};
pub use traits::{Failed, Sink, Source};
