//! Sources and sinks in memory, for tests of what reads and writes.
//!
//! Of a `MemorySource` and a `MemorySink` it is known at which calls they fail, and how much each
//! other call moves; a `SureSource` never fails, and a `SureSink` only where it is full. So a test
//! says of a run over them which bytes were read and written, also where a read or a write failed.
#![tactic(auto)]

mod held;
mod memory;
mod sure;

pub use memory::{MemorySink, MemorySource};
pub use sure::{SureSink, SureSource};
