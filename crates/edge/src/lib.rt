//! The outside of the program: sources, sinks, the words of a command line, and want of memory.
#![tactic(auto)]

mod memory_sink;
mod memory_source;
mod null;
mod plain;
mod planned_sink;
mod planned_source;
mod refused;
mod sink;
mod source;
mod streams;
mod words;

pub use memory_sink::MemorySink;
pub use memory_source::MemorySource;
pub use null::NullSink;
pub use plain::PlainSource;
pub use planned_sink::PlannedSink;
pub use planned_source::PlannedSource;
pub use refused::{Failed, NoMemory};
pub use sink::{Sink, send_all};
pub use source::{PIECE_LIMIT, ReadStop, Source, read_all};
pub use streams::{StdSink, StdSource};
pub use words::Words;
