//! Bytes in and out: sources and sinks whose faults are counted.
//!
//! The top call reads its input by `read_all` and writes its text by `write_all`, over any `Source`
//! and any `Sink`. A fault is told only where the count of the object that was handed in rose, so a
//! body that gives up by itself has no fault to tell. Streams of the system come in by `StdSource`
//! and `StdSink`: what such a stream gives or takes, no contract says. `memory_io` has sources and
//! sinks of which all is known.
#![tactic(auto)]

mod sink;
mod source;
mod standard;

pub use sink::{Sink, WriteFault, write_all};
pub use source::{ReadError, Source, read_all, zeros};
pub use standard::{StdSink, StdSource};

/// A read or a write failed. The count of the source or sink has risen.
#[derive(Clone, Copy, Debug, PartialEq, Eq, Drop)]
pub struct Failed;
