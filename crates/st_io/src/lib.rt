//! The program's ends: a source of bytes and a sink for bytes, which count their faults.
#![tactic(auto)]

mod edge;
mod memory_sink;
mod memory_source;
mod plan;
mod sink;
mod source;
mod whole;

pub use edge::{StdSink, StdSource};
pub use memory_sink::{MemorySink, SureSink};
pub use memory_source::{MemorySource, SureSource};
pub use sink::{Sink, SinkError};
pub use source::{Failed, Source};
pub use whole::{ReadError, read_all, write_all};
