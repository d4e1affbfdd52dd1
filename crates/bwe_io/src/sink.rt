//! What bytes are written to.

ghost use Rattle.std.specs.Prelude.{◌≡◌, ◌<◌, ◌≤◌, ℕ, List, Option, length, take, IfOk, OnOk, OnErr};
ghost use Rattle.std.specs.Io.KnownBytes.{WriteAppends, Appends};
ghost use Rattle.bwe_io.specs.Faults.{HasRisen};
ghost use Rattle.bwe_io.specs.Bytes.{AppendsPrefix};

use crate::Failed;

/// Something that takes bytes, and counts its faults.
pub trait Sink {
    /// The bytes written so far, where the sink tells them.
    ghost written: { Self → Option (List ℕ) };

    /// How often a write failed.
    ghost faults: { Self → ℕ };

    /// Appends bytes from the front of the piece, and says how many: at least one where there is
    /// one.
    fn write(&mut self, bytes: &[u8]) -> Result<usize, Failed>
        ensures fits { IfOk result (λ count. count ≤ length bytes.now) }
        ensures some { IfOk result (λ count. 0 < length bytes.now → 0 < count) }
        // A failed write appends nothing.
        ensures bytes { WriteAppends (written self.old) (written self.new) result bytes.now }
        ensures counted { faults self.old ≤ faults self.new }
        ensures failed { OnErr result (HasRisen (faults self.old) (faults self.new)) };
}

/// A write failed before all bytes were written.
#[derive(Clone, Copy, Debug, PartialEq, Eq, Drop)]
pub struct WriteFault;

/// Writes all bytes. After a fault a prefix of them was written.
///
/// It takes no memory of its own, and returns provided that the sink's writes return.
pub fn write_all<K: Sink>(sink: &mut K, bytes: &[u8]) -> Result<(), WriteFault>
    ensures whole { OnOk result (Appends (K.written sink.old) (K.written sink.new) bytes.now) }
    ensures prefix { OnErr result
        (AppendsPrefix (K.written sink.old) (K.written sink.new) bytes.now) }
    ensures counted { K.faults sink.old ≤ K.faults sink.new }
    ensures fault { OnErr result (HasRisen (K.faults sink.old) (K.faults sink.new)) }
{
    let mut rest = bytes;
    while !rest.is_empty() {
        match sink.write(rest) {
            Ok(count) => rest = &rest[count..],
            Err(Failed) => return Err(WriteFault),
        }
    }
    Ok(())
}
