//! One call: what it may read, what it writes, and its exit status.
//!
//! The top call reads by `read_input`, asks of an input above 67,108,864 bytes whether its document
//! is of version 4 (`document_is_too_long`, exact by `specs/Lengths.antt`), and ends by `finish` or
//! by `refuse_input`, or writes the usage line (`program_words`) by `write_text`; `Ending` says of a
//! whole call how it may end, for the command that its arguments are. `solve` alone may read a
//! document first, and ask for its length where that is refused. The whole text is made before its
//! first byte is written. Nothing is promised of which answer a command has, nor that memory is
//! there.
#![tactic(auto)]

mod lengths;

ghost use Rattle.std.specs.Prelude.{◌≡◌, ◌≢◌, ◌+◌, Err, true, false, IfOk, IsErrOf, MatchResult};
ghost use Rattle.bwe_io.specs.Bytes.{Takes};
ghost use Rattle.bwe_io.specs.Faults.{HasRisen};
ghost use Rattle.one_run.specs.Endings.{IsInput, IsSilent, Writes, far_too_long_line, max_long_input, too_long_line};

use bwe_io::{ReadError, Sink, Source, read_all, write_all};
use bwe_specs::{MAX_LONG_INPUT, OutOfMemory};
pub use lengths::document_is_too_long;
use std::alloc::Global;
use std::marker::Model;

/// The row for an input that has more bytes than one whose document is not of version 4 may have.
pub const TOO_LONG: &str = "refused input longer than 67108864 bytes\n";

/// The row for an input that has more bytes than any may have.
pub const FAR_TOO_LONG: &str = "refused input longer than 1073741824 bytes\n";

/// Why there is no input to answer.
#[derive(Clone, Copy, Debug, PartialEq, Eq, Drop)]
pub enum InputError {
    /// A read failed.
    ReadFault,
    /// The input has more than 67,108,864 bytes, and its document is not of version 4.
    TooLong,
    /// The input goes on after 1,073,741,824 bytes.
    FarTooLong,
    /// Memory ran out.
    OutOfMemory,
}

impl From<OutOfMemory> for InputError {
    ghost use Rattle.one_run.specs.declared.InputError.TheVariants.{OutOfMemory as wanting};

    ghost from_gives = { λ _ e. e ≡ wanting };

    fn from(_: OutOfMemory) -> InputError {
        InputError::OutOfMemory
    }
}

/// What a command has to write: a text, and the exit status to end with.
#[derive(Debug, Drop)]
pub struct Answer {
    pub status: u8,
    pub text: Vec<u8>,
}

impl Model for Answer {
    ghost use Rattle.one_run.specs.Endings.{Reply};

    ghost Value = { Reply };

    ghost view = { λ answer. record { status = answer.status; text = answer.text.items } };
}

/// The whole input, where there is one to read, and nothing else: up to 1,073,741,824 bytes, of
/// whatever version its document is.
///
/// It returns provided that the source returns. What was taken in before a fault is gone.
pub fn read_input<S: Source>(
    alloc: Global,
    reads: bool,
    source: &mut S,
) -> Result<Vec<u8>, InputError>
    ensures input { IfOk result (λ input. IsInput S.left source.old source.new reads input.items) }
    ensures untouched { reads ≡ false → source.new ≡ source.old }
    ensures fault { IsErrOf result InputError.ReadFault
        → (reads ≡ true) × HasRisen (S.faults source.old) (S.faults source.new) }
    ensures too_long { IsErrOf result InputError.FarTooLong
        → (reads ≡ true) × Takes (max_long_input + 1) (S.left source.old) (S.left source.new) }
    ensures not_judged { result ≢ Err InputError.TooLong }
{
    if !reads {
        return Ok(Vec::new(alloc));
    }
    match read_all(alloc, source, MAX_LONG_INPUT) {
        Ok(input) => Ok(input),
        Err(ReadError::ReadFault) => Err(InputError::ReadFault),
        Err(ReadError::TooLong) => Err(InputError::FarTooLong),
        Err(ReadError::OutOfMemory) => Err(InputError::OutOfMemory),
    }
}

/// Writes the answer and gives its exit status, or 5 where the sink fails; 6 where memory ran out
/// for the answer.
pub fn finish<K: Sink>(sink: &mut K, answer: Result<Answer, OutOfMemory>) -> u8
    ensures { MatchResult answer
        (λ answer. Writes answer.status answer.text (K.written sink.old) (K.written sink.new)
        (K.faults sink.old) (K.faults sink.new) result)
        (λ _. IsSilent 6 (K.written sink.old) (K.written sink.new) result) }
{
    match answer {
        Ok(answer) => write_text(sink, &answer.text, answer.status),
        Err(OutOfMemory) => 6,
    }
}

/// Ends a call that has no input to answer: 4 where the source failed, 6 where memory ran out, and
/// 8 with its row for an input that is too long.
pub fn refuse_input<K: Sink>(sink: &mut K, error: InputError) -> u8
    ensures fault { error ≡ InputError.ReadFault
        → IsSilent 4 (K.written sink.old) (K.written sink.new) result }
    ensures too_long { error ≡ InputError.TooLong
        → Writes 8 too_long_line (K.written sink.old) (K.written sink.new)
        (K.faults sink.old) (K.faults sink.new) result }
    ensures far_too_long { error ≡ InputError.FarTooLong
        → Writes 8 far_too_long_line (K.written sink.old) (K.written sink.new)
        (K.faults sink.old) (K.faults sink.new) result }
    ensures memory { error ≡ InputError.OutOfMemory
        → IsSilent 6 (K.written sink.old) (K.written sink.new) result }
{
    match error {
        InputError::ReadFault => 4,
        InputError::TooLong => write_text(sink, TOO_LONG.as_bytes(), 8),
        InputError::FarTooLong => write_text(sink, FAR_TOO_LONG.as_bytes(), 8),
        InputError::OutOfMemory => 6,
    }
}

/// Writes the text, and answers the exit status that it was due with, or 5 where the sink fails.
pub fn write_text<K: Sink>(sink: &mut K, text: &[u8], status: u8) -> u8
    ensures { Writes status text.now (K.written sink.old) (K.written sink.new)
        (K.faults sink.old) (K.faults sink.new) result }
{
    match write_all(sink, text) {
        Ok(()) => status,
        Err(_) => 5,
    }
}
