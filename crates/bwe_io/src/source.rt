//! What bytes are read from.

ghost use Rattle.std.specs.Prelude.{◌≡◌, ◌+◌, ◌<◌, ◌≤◌, ◌^◌, ℕ, List, Option, length, vec_len, IfOk, OnOk, OnErr, IsErrOf};
ghost use Rattle.std.specs.Io.KnownBytes.{ReadConsumes, Consumes, IsAtEnd};
ghost use Rattle.bwe_io.specs.declared.source.ReadError.TheVariants.{ReadFault, OutOfMemory};
ghost use Rattle.bwe_io.specs.Faults.{HasRisen};
ghost use Rattle.bwe_io.specs.Bytes.{Takes, TakesAtMost};

use crate::Failed;
use std::alloc::{AllocError, Global};

/// The most bytes that `read_all` asks for at once.
const CHUNK: usize = 65_536;

/// Something that gives bytes, and counts its faults.
pub trait Source {
    /// The bytes still to come, where the source tells them.
    ghost left: { Self → Option (List ℕ) };

    /// How often a read failed.
    ghost faults: { Self → ℕ };

    /// Puts the next bytes into the front of the buffer, and says how many.
    /// None into a buffer that isn't empty is the end of input.
    fn read(&mut self, buffer: &mut [u8]) -> Result<usize, Failed>
        ensures fits { IfOk result (λ count. count ≤ length buffer.new) }
        // On Ok these bytes are taken, all of them where there are none; a failed read takes
        // nothing.
        ensures bytes { ReadConsumes (left self.old) (left self.new) result buffer.new }
        ensures counted { faults self.old ≤ faults self.new }
        ensures failed { OnErr result (HasRisen (faults self.old) (faults self.new)) };
}

/// Why a source could not be read to its end.
#[derive(Clone, Copy, Debug, PartialEq, Eq, Drop)]
pub enum ReadError {
    /// A read failed.
    ReadFault,
    /// The source gave more bytes than the limit.
    TooLong,
    /// Memory ran out.
    OutOfMemory,
}

impl From<AllocError> for ReadError {
    ghost from_gives = { λ _ e. e ≡ OutOfMemory };

    fn from(_: AllocError) -> ReadError {
        ReadError::OutOfMemory
    }
}

impl From<Failed> for ReadError {
    ghost from_gives = { λ _ e. e ≡ ReadFault };

    fn from(_: Failed) -> ReadError {
        ReadError::ReadFault
    }
}

/// All bytes to the end of input, of which there may be `limit`.
///
/// It stops at the first byte above the limit. The bytes that were taken before a refusal are gone
/// from the source. It returns provided that the source's reads return: each gives a byte, or ends
/// the loop.
pub fn read_all<S: Source>(alloc: Global, source: &mut S, limit: u64) -> Result<Vec<u8>, ReadError>
    requires { limit < 18_446_744_073_709_551_615 }

    ensures whole { IfOk result (λ bytes.
        Consumes (S.left source.old) (S.left source.new) bytes.items) }
    ensures end { OnOk result (IsAtEnd (S.left source.new)) }
    ensures within { IfOk result (λ bytes. vec_len bytes ≤ limit) }

    // What is gone from the source after a refusal.
    ensures too_long { IsErrOf result ReadError.TooLong
        → Takes (limit + 1) (S.left source.old) (S.left source.new) }
    ensures fault_within { IsErrOf result ReadError.ReadFault
        → TakesAtMost limit (S.left source.old) (S.left source.new) }
    ensures memory_within { IsErrOf result ReadError.OutOfMemory
        → TakesAtMost (limit + 1) (S.left source.old) (S.left source.new) }

    ensures counted { S.faults source.old ≤ S.faults source.new }
    ensures fault { IsErrOf result ReadError.ReadFault
        → HasRisen (S.faults source.old) (S.faults source.new) }
{
    let mut chunk = zeros(alloc, CHUNK)?;
    let mut bytes = Vec::new(alloc);
    while bytes.len() as u64 <= limit {
        let room = limit + 1 - bytes.len() as u64;
        let count = read_part(source, &mut chunk, room)?;
        if count == 0 {
            return Ok(bytes);
        }
        bytes.extend_from_slice(&chunk[..count])?;
    }
    Err(ReadError::TooLong)
}

/// So many zero bytes, a chunk to read into.
pub fn zeros(alloc: Global, size: usize) -> Result<Vec<u8>, AllocError>
    ensures { IfOk result (λ chunk. vec_len chunk ≡ size) }
{
    vec![in alloc; 0u8; size]
}

// Reads into the front of the chunk, at most `room` bytes.
fn read_part<S: Source>(source: &mut S, chunk: &mut [u8], room: u64) -> Result<usize, Failed>
    requires some { 0 < room }
    requires space { 0 < length chunk.old }
    ensures fits { IfOk result (λ count. count ≤ length chunk.new) }
    ensures room { IfOk result (λ count. count ≤ room) }
    ensures bytes { ReadConsumes (S.left source.old) (S.left source.new) result chunk.new }
    ensures counted { S.faults source.old ≤ S.faults source.new }
    ensures failed { OnErr result (HasRisen (S.faults source.old) (S.faults source.new)) }
{
    let size = (chunk.len() as u64).min(room) as usize;
    source.read(&mut chunk[..size])
}
