//! A source that never fails, and a sink that fails only where it is full.

ghost use Rattle.std.specs.Prelude.{◌≡◌, ◌+◌, ◌<◌, ◌≤◌, ◌↔◌, [], ℕ, Option, Some, length, min, IsOk, IsErr, IfOk, OnOk, OnErr};
ghost use Rattle.std.specs.Io.KnownBytes.{ReadConsumes, WriteAppends};
ghost use Rattle.bwe_io.specs.Faults.{HasRisen, last_count};
ghost use Rattle.memory_io.specs.Memory.{FillingSink, IsFull};

use crate::held::{Reserved, Unread};
use bwe_io::{Failed, Sink, Source};
use bwe_specs::OutOfMemory;
use std::alloc::Global;
use std::marker::Model;

/// Gives bytes from memory. Contracts see it as the bytes still to come.
#[derive(Drop)]
pub struct SureSource {
    unread: Unread,
}

impl Model for SureSource {
    ghost use Rattle.std.specs.Prelude.{ℕ, List};

    ghost Value = { List ℕ };

    ghost view = { λ source. source.unread };
}

impl SureSource {
    /// Gives these bytes.
    pub fn new(bytes: Vec<u8>) -> SureSource
        ensures { result ≡ bytes.items }
    {
        SureSource {
            unread: Unread::new(bytes),
        }
    }
}

impl Source for SureSource {
    ghost left = { λ source. Some source };

    ghost faults = { λ _. 0 };

    fn read(&mut self, buffer: &mut [u8]) -> Result<usize, Failed>
        ensures fits { IfOk result (λ count. count ≤ length buffer.new) }
        ensures bytes { ReadConsumes (Some self.old) (Some self.new) result buffer.new }

        // It never fails, and fills the buffer as far as it can.
        ensures sure { IsOk result }
        ensures moved { IfOk result (λ count. count ≡ min (length self.old) (length buffer.old)) }
    {
        Ok(self.unread.give(buffer))
    }
}

/// Takes bytes into memory as far as there is room.
#[derive(Drop)]
pub struct SureSink {
    held: Reserved,
    faults: u64,
}

impl Model for SureSink {
    ghost use Rattle.memory_io.specs.Memory.{FillingSink};

    ghost Value = { FillingSink };

    ghost view = { λ sink. record {
      written = sink.held.bytes;
      room = sink.held.room;
      faults = sink.faults;
    } };
}

impl SureSink {
    /// Takes `room` bytes in all. The room is reserved here, so a write takes no memory.
    pub fn new(alloc: Global, room: usize) -> Result<SureSink, OutOfMemory>
        ensures { IfOk result (λ sink. sink ≡ record { written = []; room = room; faults = 0 }) }
    {
        let held = Reserved::new(alloc, room)?;
        Ok(SureSink { held, faults: 0 })
    }

    /// The bytes written so far.
    pub fn bytes(&self) -> &[u8]
        ensures { result.now ≡ self.now.written }
    {
        self.held.bytes()
    }
}

impl Sink for SureSink {
    ghost written = { λ sink. Some sink.written };

    ghost faults = { λ sink. sink.faults };

    fn write(&mut self, bytes: &[u8]) -> Result<usize, Failed>
        ensures fits { IfOk result (λ count. count ≤ length bytes.now) }
        ensures some { IfOk result (λ count. 0 < length bytes.now → 0 < count) }
        ensures bytes { WriteAppends (Some self.old.written) (Some self.new.written) result
            bytes.now }
        ensures counted { self.old.faults ≤ self.new.faults }
        ensures failed { OnErr result (HasRisen self.old.faults self.new.faults) }

        // It fails exactly where it is full, and else takes as much as there is room for.
        ensures full { IsErr result ↔ IsFull self.old.room bytes.now }
        ensures moved { IfOk result (λ count. count ≡ min self.old.room (length bytes.now)) }
        ensures room { self.new.room + length self.new.written
            ≡ self.old.room + length self.old.written }
        ensures rises { OnErr result (self.new.faults ≡ min (self.old.faults + 1) last_count) }
        ensures stays { OnOk result (self.new.faults ≡ self.old.faults) }
    {
        if self.held.room() == 0 && !bytes.is_empty() {
            self.faults = self.faults.saturating_add(1);
            return Err(Failed);
        }
        Ok(self.held.take_in(bytes))
    }
}
