//! A source and a sink in memory, which fail at the calls that are listed.

ghost use Rattle.std.specs.Prelude.{◌≡◌, ◌+◌, ◌<◌, ◌≤◌, ◌↔◌, ◌⊎◌, [], ℕ, Option, Some, length, min, All, Contains, IsErr, IfOk, OnOk, OnErr};
ghost use Rattle.std.specs.Io.KnownBytes.{ReadConsumes, WriteAppends};
ghost use Rattle.bwe_io.specs.Faults.{HasRisen, last_count};
ghost use Rattle.memory_io.specs.Memory.{FailingSource, FailingSink, IsFull};

use crate::held::{Reserved, Unread};
use bwe_io::{Failed, Sink, Source};
use bwe_specs::OutOfMemory;
use std::alloc::Global;
use std::marker::Model;

/// Gives bytes from memory, and fails at the listed calls.
#[derive(Drop)]
pub struct MemorySource {
    unread: Unread,
    chunk: usize,
    failing: Vec<u64>,
    calls: u64,
    faults: u64,
}

impl Model for MemorySource {
    ghost use Rattle.std.specs.Prelude.{◌<◌};
    ghost use Rattle.memory_io.specs.Memory.{FailingSource};

    ghost Value = { FailingSource };

    ghost view = { λ source. record {
      left = source.unread;
      chunk = source.chunk;
      failing = source.failing.items;
      calls = source.calls;
      faults = source.faults;
    } };

    ghost invariant = { λ source. 0 < source.chunk };
}

impl MemorySource {
    /// Gives at most `chunk` bytes a call, and fails at the calls whose numbers, from 0, are
    /// listed.
    pub fn new(bytes: Vec<u8>, chunk: usize, failing: Vec<u64>) -> MemorySource
        requires moves { 1 ≤ chunk }
        requires failing { All (λ call. call < last_count) failing.items }
        ensures { result ≡ record {
          left = bytes.items;
          chunk = chunk;
          failing = failing.items;
          calls = 0;
          faults = 0;
        } }
    {
        MemorySource {
            unread: Unread::new(bytes),
            chunk,
            failing,
            calls: 0,
            faults: 0,
        }
    }
}

impl Source for MemorySource {
    ghost left = { λ source. Some source.left };

    ghost faults = { λ source. source.faults };

    fn read(&mut self, buffer: &mut [u8]) -> Result<usize, Failed>
        ensures fits { IfOk result (λ count. count ≤ length buffer.new) }
        ensures bytes { ReadConsumes (Some self.old.left) (Some self.new.left) result buffer.new }
        ensures counted { self.old.faults ≤ self.new.faults }
        ensures failed { OnErr result (HasRisen self.old.faults self.new.faults) }

        // It fails exactly at the listed calls, and else moves as much as one call may.
        ensures listed { IsErr result ↔ Contains self.old.failing self.old.calls }
        ensures moved { IfOk result (λ count.
            count ≡ min (length self.old.left) (min self.old.chunk (length buffer.old))) }
        ensures rises { OnErr result (self.new.faults ≡ min (self.old.faults + 1) last_count) }
        ensures stays { OnOk result (self.new.faults ≡ self.old.faults) }
        ensures calls { self.new ≡ record self.old {
          left = self.new.left;
          faults = self.new.faults;
          calls = min (self.old.calls + 1) last_count;
        } }
    {
        let call = self.calls;
        self.calls = self.calls.saturating_add(1);
        if self.failing.contains(&call) {
            self.faults = self.faults.saturating_add(1);
            return Err(Failed);
        }
        let size = self.chunk.min(buffer.len());
        Ok(self.unread.give(&mut buffer[..size]))
    }
}

/// Takes bytes into memory as far as there is room, and fails at the listed calls.
#[derive(Drop)]
pub struct MemorySink {
    held: Reserved,
    chunk: usize,
    failing: Vec<u64>,
    calls: u64,
    faults: u64,
}

impl Model for MemorySink {
    ghost use Rattle.std.specs.Prelude.{◌<◌};
    ghost use Rattle.memory_io.specs.Memory.{FailingSink};

    ghost Value = { FailingSink };

    ghost view = { λ sink. record {
      written = sink.held.bytes;
      room = sink.held.room;
      chunk = sink.chunk;
      failing = sink.failing.items;
      calls = sink.calls;
      faults = sink.faults;
    } };

    ghost invariant = { λ sink. 0 < sink.chunk };
}

impl MemorySink {
    /// Takes at most `chunk` bytes a call and `room` bytes in all. It fails at the calls whose
    /// numbers, from 0, are listed, and where there is no room. The room is reserved here, so a
    /// write takes no memory.
    pub fn new(
        alloc: Global,
        room: usize,
        chunk: usize,
        failing: Vec<u64>,
    ) -> Result<MemorySink, OutOfMemory>
        requires moves { 1 ≤ chunk }
        requires failing { All (λ call. call < last_count) failing.items }
        ensures { IfOk result (λ sink. sink ≡ record {
          written = [];
          room = room;
          chunk = chunk;
          failing = failing.items;
          calls = 0;
          faults = 0;
        }) }
    {
        let held = Reserved::new(alloc, room)?;
        Ok(MemorySink {
            held,
            chunk,
            failing,
            calls: 0,
            faults: 0,
        })
    }

    /// The bytes written so far.
    pub fn bytes(&self) -> &[u8]
        ensures { result.now ≡ self.now.written }
    {
        self.held.bytes()
    }
}

impl Sink for MemorySink {
    ghost written = { λ sink. Some sink.written };

    ghost faults = { λ sink. sink.faults };

    fn write(&mut self, bytes: &[u8]) -> Result<usize, Failed>
        ensures fits { IfOk result (λ count. count ≤ length bytes.now) }
        ensures some { IfOk result (λ count. 0 < length bytes.now → 0 < count) }
        ensures bytes { WriteAppends (Some self.old.written) (Some self.new.written) result
            bytes.now }
        ensures counted { self.old.faults ≤ self.new.faults }
        ensures failed { OnErr result (HasRisen self.old.faults self.new.faults) }

        // It fails exactly at the listed calls and where it is full, and else takes as much as one
        // call may.
        ensures fails { IsErr result
            ↔ (Contains self.old.failing self.old.calls ⊎ IsFull self.old.room bytes.now) }
        ensures moved { IfOk result (λ count.
            count ≡ min self.old.room (min self.old.chunk (length bytes.now))) }
        ensures room { self.new.room + length self.new.written
            ≡ self.old.room + length self.old.written }
        ensures rises { OnErr result (self.new.faults ≡ min (self.old.faults + 1) last_count) }
        ensures stays { OnOk result (self.new.faults ≡ self.old.faults) }
        ensures calls { self.new ≡ record self.old {
          written = self.new.written;
          room = self.new.room;
          faults = self.new.faults;
          calls = min (self.old.calls + 1) last_count;
        } }
    {
        let call = self.calls;
        self.calls = self.calls.saturating_add(1);
        if self.failing.contains(&call) || (self.held.room() == 0 && !bytes.is_empty()) {
            self.faults = self.faults.saturating_add(1);
            return Err(Failed);
        }
        let size = self.chunk.min(bytes.len());
        Ok(self.held.take_in(&bytes[..size]))
    }
}
