//! A reader and a writer of std as one stream: the trusted edge.

ghost use Rattle.std.specs.Prelude.{◌≡◌, ◌<◌, ◌≤◌, [], ◌∷◌, None, length, take, IfOk, OnOk, OnErr};
ghost use Rattle.std.specs.Io.KnownBytes.{Appends, Keeps, ReadConsumes};
ghost use Rattle.bwe_io.specs.Faults.{HasRisen};
ghost use Rattle.live_stream.specs.Talk.{Goes, GivesPrefix, IsOver, NeverFall, Took, gives};
ghost use Rattle.live_stream.specs.Streams.{StdTalk};

use crate::Stream;
use bwe_io::Failed;
use std::io::{Read, Write};
use std::marker::Model;

/// Reads from a reader of std and writes to a writer of std. It counts each error as a fault.
///
/// A read returns what is there, and a write leaves at once. The order of both is not told.
#[derive(Drop)]
pub struct StdStream<R: Read, W: Write> {
    reader: R,
    writer: W,
    read_faults: u64,
    write_faults: u64,
}

impl<R: Read, W: Write> Model for StdStream<R, W> {
    ghost use Rattle.live_stream.specs.Streams.{StdTalk};

    ghost Value = { StdTalk };

    ghost view = { λ stream. record {
      unread = R.remaining stream.reader;
      written = W.contents stream.writer;
      faults = record { reads = stream.read_faults; writes = stream.write_faults };
    } };
}

impl<R: Read, W: Write> StdStream<R, W> {
    /// A stream with no faults so far.
    pub fn new(reader: R, writer: W) -> StdStream<R, W>
        ensures { result ≡ record {
          unread = R.remaining reader;
          written = W.contents writer;
          faults = record { reads = 0; writes = 0 };
        } }
    {
        StdStream {
            reader,
            writer,
            read_faults: 0,
            write_faults: 0,
        }
    }
}

impl<R: Read, W: Write> Stream for StdStream<R, W> {
    ghost talk = { λ _. None };

    ghost faults = { λ stream. stream.faults };

    fn read(&mut self, buffer: &mut [u8]) -> Result<usize, Failed>
        requires { 0 < length buffer.old }
        ensures fits { IfOk result (λ count. count ≤ length buffer.new) }
        ensures took { IfOk result (λ count. Goes None None (Took (take count buffer.new) ∷ [])) }
        ensures end { IfOk result (λ count. count ≡ 0 → IsOver None) }
        ensures nothing { OnErr result (Goes None None []) }
        ensures counted { NeverFall self.old.faults self.new.faults }
        ensures failed { OnErr result (HasRisen self.old.faults.reads self.new.faults.reads) }

        // The bytes are the reader's next, and nothing is written.
        ensures bytes { ReadConsumes self.old.unread self.new.unread result buffer.new }
        ensures unwritten { self.new.written ≡ self.old.written }
    {
        match self.reader.read(buffer) {
            Ok(count) => Ok(count),
            Err(_) => {
                self.read_faults = self.read_faults.saturating_add(1);
                Err(Failed)
            }
        }
    }

    fn write(&mut self, text: &[u8]) -> Result<(), Failed>
        ensures whole { OnOk result (Goes None None (gives text.now)) }
        ensures prefix { OnErr result (GivesPrefix None None text.now) }
        ensures counted { NeverFall self.old.faults self.new.faults }
        ensures failed { OnErr result (HasRisen self.old.faults.writes self.new.faults.writes) }

        // The text is behind what the writer holds, and nothing is read.
        ensures bytes { OnOk result (Appends self.old.written self.new.written text.now) }
        ensures unread { self.new.unread ≡ self.old.unread }
    {
        if self.writer.write_all(text).is_ok() && self.writer.flush().is_ok() {
            return Ok(());
        }
        self.write_faults = self.write_faults.saturating_add(1);
        Err(Failed)
    }
}
