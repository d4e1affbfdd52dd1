//! A stream in memory, which takes its input in small pieces and fails where it is told to.

ghost use Rattle.std.specs.Prelude.{◌≡◌, ◌<◌, ◌≤◌, [], ◌∷◌, ◌++◌, Some, map, length, take, MatchOption, IfOk, OnOk, OnErr};
ghost use Rattle.bwe_io.specs.Faults.{HasRisen};
ghost use Rattle.live_stream.specs.Talk.{Faults, Goes, GivesPrefix, IsOver, NeverFall, Took, gives};
ghost use Rattle.live_stream.specs.Streams.{MemoryTalk, event_of};

use crate::{Event, Stream};
use bwe_io::Failed;
use std::alloc::{AllocError, Global};
use std::marker::Model;

/// Gives its input in pieces, takes texts as far as there is room, and keeps all that happened, in
/// its order.
///
/// Each event is copied, so a read or a write that finds no memory for it is a fault too.
#[derive(Drop)]
pub struct MemoryStream {
    alloc: Global,
    input: Vec<u8>,
    at: usize,
    chunk: usize,
    sure_reads: u64,
    room: usize,
    events: Vec<Event>,
    read_faults: u64,
    write_faults: u64,
}

impl Model for MemoryStream {
    ghost use Rattle.std.specs.Prelude.{◌<◌, ◌≤◌, drop, map, vec_len};
    ghost use Rattle.live_stream.specs.Streams.{MemoryTalk, event_of};

    ghost Value = { MemoryTalk };

    ghost view = { λ stream. record {
      talk = record {
        left = drop stream.at stream.input.items;
        events = map event_of stream.events.items;
      };
      faults = record { reads = stream.read_faults; writes = stream.write_faults };
    } };

    ghost invariant = { λ stream. (stream.at ≤ vec_len stream.input) × (0 < stream.chunk) };
}

impl MemoryStream {
    /// Gives at most `chunk` bytes a read. Reads fail after `sure_reads` of them, and writes after
    /// `room` bytes.
    pub fn new(
        alloc: Global,
        input: Vec<u8>,
        chunk: usize,
        sure_reads: u64,
        room: usize,
    ) -> MemoryStream
        requires { 1 ≤ chunk }
        ensures { result ≡ record {
          talk = record { left = input.items; events = [] };
          faults = record { reads = 0; writes = 0 };
        } }
    {
        MemoryStream {
            alloc,
            input,
            at: 0,
            chunk,
            sure_reads,
            room,
            events: Vec::new(alloc),
            read_faults: 0,
            write_faults: 0,
        }
    }

    /// All that has happened so far, in its order.
    pub fn events(&self) -> &[Event]
        ensures { map event_of result.now ≡ self.now.talk.events }
    {
        self.events.as_slice()
    }

    // Takes the next bytes into the buffer, `None` where there is no memory to note it.
    fn take_piece(&mut self, buffer: &mut [u8]) -> Option<usize>
        requires { 0 < length buffer.old }
        ensures faults { self.new.faults ≡ self.old.faults }
        ensures taken { MatchOption result
            (Goes (Some self.old.talk) (Some self.new.talk) [])
            (λ count. Goes (Some self.old.talk) (Some self.new.talk)
            (Took (take count buffer.new) ∷ [])) }
        ensures fits { MatchOption result (0 ≤ 0) (λ count. count ≤ length buffer.new) }
        ensures end { MatchOption result (0 ≤ 0) (λ count. count ≡ 0 → self.new.talk.left ≡ []) }
    {
        let left = &self.input[self.at..];
        let count = left.len().min(self.chunk).min(buffer.len());
        buffer[..count].copy_from_slice(&left[..count]);
        let bytes = Vec::from_slice(self.alloc, &buffer[..count]).ok()?;
        self.events.push(Event::Took(bytes)).ok()?;
        self.at += count;
        Some(count)
    }

    // Notes the text as given, where there is memory.
    fn note_given(&mut self, text: &[u8]) -> Result<(), AllocError>
        ensures faults { self.new.faults ≡ self.old.faults }
        ensures given { OnOk result
            (Goes (Some self.old.talk) (Some self.new.talk) (gives text.now)) }
        ensures nothing { OnErr result (Goes (Some self.old.talk) (Some self.new.talk) []) }
    {
        if text.is_empty() {
            return Ok(());
        }
        let bytes = Vec::from_slice(self.alloc, text)?;
        self.events.push(Event::Gave(bytes))?;
        Ok(())
    }

    // Gives the first bytes of the text for which there is room, where there is memory to note
    // them.
    fn give_part(&mut self, text: &[u8])
        ensures faults { self.new.faults ≡ self.old.faults }
        ensures given { GivesPrefix (Some self.old.talk) (Some self.new.talk) text.now }
    {
        let count = text.len().min(self.room);
        self.room -= count;
        match self.note_given(&text[..count]) {
            Ok(()) => {}
            Err(_) => {}
        }
    }
}

impl Stream for MemoryStream {
    ghost talk = { λ stream. Some stream.talk };

    ghost faults = { λ stream. stream.faults };

    fn read(&mut self, buffer: &mut [u8]) -> Result<usize, Failed> {
        if self.sure_reads > 0 {
            self.sure_reads -= 1;
            if let Some(count) = self.take_piece(buffer) {
                return Ok(count);
            }
        }
        self.read_faults = self.read_faults.saturating_add(1);
        Err(Failed)
    }

    fn write(&mut self, text: &[u8]) -> Result<(), Failed> {
        if text.len() <= self.room {
            self.room -= text.len();
            if self.note_given(text).is_ok() {
                return Ok(());
            }
        } else {
            self.give_part(text);
        }
        self.write_faults = self.write_faults.saturating_add(1);
        Err(Failed)
    }
}
