//! Where bytes come from and where they go: sources, sinks, and their kinds.
//!
//! A source means the bytes that are left, where it tells them, and a sink the bytes that were
//! written. Each has a count of faults, so that whoever sees a fault knows whom to blame.
#![tactic(auto)]

pub use memory::MemSink;
pub use memory_source::MemSource;
pub use sink::{Sink, SinkFailed, put_all, put_report};
pub use source::{ReadStop, Source, SourceFailed, read_all};
pub use standard::{StdSink, StdSource};
pub use sure::{ByteSource, NullSink};

mod memory;
mod memory_source;
mod sink;
mod source;
mod standard;
mod sure;
