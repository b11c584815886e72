//! Where bytes come from and where they go: a source that is read and a sink that is written, each of which may fail
//! and counts its failures; sources and sinks in memory; readers and writers of std.
#![tactic(auto)]

mod adapters;
mod memory;
mod streams;
mod sure;
mod whole;

pub use adapters::{ReaderSource, WriterSink};
pub use memory::{MemorySink, MemorySource};
pub use streams::{Failed, Sink, Source};
pub use sure::{SureSink, SureSource};
pub use whole::{ReadError, read_all, write_whole};

#[cfg(test)]
mod tests;
