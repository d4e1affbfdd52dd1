//! The readers and writers of std as a source and a sink: the trusted edge.

ghost use Rattle.std.specs.Prelude.{◌≡◌};
ghost use Rattle.bwe_io.specs.Streams.{CountedStream};

use crate::{Failed, Sink, Source};
use std::io::{Read, Write};
use std::marker::Model;

/// Reads from a reader of std, and counts each error as a fault.
///
/// It tells the bytes still to come where the reader does. A standard stream tells none.
#[derive(Drop)]
pub struct StdSource<R: Read> {
    reader: R,
    faults: u64,
}

impl<R: Read> Model for StdSource<R> {
    ghost use Rattle.bwe_io.specs.Streams.{CountedStream};

    ghost Value = { CountedStream };

    ghost view = { λ source. record { known = R.remaining source.reader; faults = source.faults } };
}

impl<R: Read> StdSource<R> {
    /// A source with no faults so far.
    pub fn new(reader: R) -> StdSource<R>
        ensures { result ≡ record { known = R.remaining reader; faults = 0 } }
    {
        StdSource { reader, faults: 0 }
    }
}

impl<R: Read> Source for StdSource<R> {
    ghost left = { λ source. source.known };

    ghost faults = { λ source. source.faults };

    fn read(&mut self, buffer: &mut [u8]) -> Result<usize, Failed> {
        match self.reader.read(buffer) {
            Ok(count) => Ok(count),
            Err(_) => {
                self.faults = self.faults.saturating_add(1);
                Err(Failed)
            }
        }
    }
}

/// Writes to a writer of std. It counts each error as a fault, and a write that takes nothing of a
/// piece.
///
/// It tells the bytes written so far where the writer does. A standard stream tells none.
#[derive(Drop)]
pub struct StdSink<W: Write> {
    writer: W,
    faults: u64,
}

impl<W: Write> Model for StdSink<W> {
    ghost use Rattle.bwe_io.specs.Streams.{CountedStream};

    ghost Value = { CountedStream };

    ghost view = { λ sink. record { known = W.contents sink.writer; faults = sink.faults } };
}

impl<W: Write> StdSink<W> {
    /// A sink with no faults so far.
    pub fn new(writer: W) -> StdSink<W>
        ensures { result ≡ record { known = W.contents writer; faults = 0 } }
    {
        StdSink { writer, faults: 0 }
    }
}

impl<W: Write> Sink for StdSink<W> {
    ghost written = { λ sink. sink.known };

    ghost faults = { λ sink. sink.faults };

    fn write(&mut self, bytes: &[u8]) -> Result<usize, Failed> {
        match self.writer.write(bytes) {
            Ok(count) if count > 0 || bytes.is_empty() => Ok(count),
            _ => {
                self.faults = self.faults.saturating_add(1);
                Err(Failed)
            }
        }
    }
}
