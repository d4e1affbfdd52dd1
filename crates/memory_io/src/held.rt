//! Bytes in memory that are given out from the front, and room in memory that fills up.

ghost use Rattle.std.specs.Prelude.{◌≡◌, ◌+◌, ◌++◌, [], length, take, min, IfOk};
ghost use Rattle.memory_io.specs.Memory.{Filled};

use bwe_specs::OutOfMemory;
use std::alloc::Global;
use std::marker::Model;

/// Bytes still to be given out.
#[derive(Drop)]
pub(crate) struct Unread {
    bytes: Vec<u8>,
    at: usize,
}

impl Model for Unread {
    ghost use Rattle.std.specs.Prelude.{ℕ, ◌≤◌, List, drop, vec_len};

    ghost Value = { List ℕ };

    ghost view = { λ unread. drop unread.at unread.bytes.items };

    ghost invariant = { λ unread. unread.at ≤ vec_len unread.bytes };
}

impl Unread {
    pub(crate) fn new(bytes: Vec<u8>) -> Unread
        ensures { result ≡ bytes.items }
    {
        Unread { bytes, at: 0 }
    }

    /// Puts as many bytes into the front of the buffer as it holds, and says how many.
    pub(crate) fn give(&mut self, buffer: &mut [u8]) -> usize
        ensures count { result ≡ min (length self.old) (length buffer.old) }
        ensures given { self.old ≡ take result buffer.new ++ self.new }
    {
        let left = &self.bytes[self.at..];
        let count = left.len().min(buffer.len());
        buffer[..count].copy_from_slice(&left[..count]);
        self.at += count;
        count
    }
}

/// Bytes that were taken in, and reserved room for more.
#[derive(Drop)]
pub(crate) struct Reserved {
    bytes: Vec<u8>,
    room: usize,
}

impl Model for Reserved {
    ghost use Rattle.std.specs.Prelude.{◌+◌, ◌≤◌, vec_len, vec_capacity};
    ghost use Rattle.memory_io.specs.Memory.{Filled};

    ghost Value = { Filled };

    ghost view = { λ held. record { bytes = held.bytes.items; room = held.room } };

    ghost invariant = { λ held. vec_len held.bytes + held.room ≤ vec_capacity held.bytes };
}

impl Reserved {
    pub(crate) fn new(alloc: Global, room: usize) -> Result<Reserved, OutOfMemory>
        ensures { IfOk result (λ held. held ≡ record { bytes = []; room = room }) }
    {
        let bytes = Vec::with_capacity(alloc, room)?;
        Ok(Reserved { bytes, room })
    }

    /// How many bytes still fit.
    pub(crate) fn room(&self) -> usize
        ensures { result ≡ self.now.room }
    {
        self.room
    }

    /// The bytes taken in.
    pub(crate) fn bytes(&self) -> &[u8]
        ensures { result.now ≡ self.now.bytes }
    {
        self.bytes.as_slice()
    }

    /// Takes in as many of the bytes as there is room for, and says how many.
    pub(crate) fn take_in(&mut self, bytes: &[u8]) -> usize
        ensures count { result ≡ min self.old.room (length bytes.now) }
        ensures appended { self.new.bytes ≡ self.old.bytes ++ take result bytes.now }
        ensures room { self.new.room + result ≡ self.old.room }
    {
        let count = self.room.min(bytes.len());
        self.bytes.extend_from_slice(&bytes[..count]).unwrap();
        self.room -= count;
        count
    }
}
