//! One object that reads and writes, whose meaning keeps both in their order.
//!
//! A service that answers while it reads is stated over a `Stream`: `talk` is what is still to come
//! and the list of all that has happened, bytes taken and bytes given, one behind the other. So a
//! contract can say what had been written when more input was asked for, which a source and a sink
//! apart cannot. `MemoryStream` keeps that list for tests, takes its input in small pieces and
//! fails where it is told to. `StdStream` is the standard streams, the trusted edge: it reads what
//! is there, writes at once, and its list is not known. Nothing is promised of time.
#![tactic(auto)]

mod event;
mod memory;
mod standard;
mod stream;

pub use event::Event;
pub use memory::MemoryStream;
pub use standard::StdStream;
pub use stream::Stream;
