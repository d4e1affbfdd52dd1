//! One thing that passed over a stream.

/// Bytes that were taken, none of them at the end of input, or bytes that were given.
#[derive(Debug, Drop)]
pub enum Event {
    Took(Vec<u8>),
    Gave(Vec<u8>),
}
