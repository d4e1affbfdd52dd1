//! The input of a command.

ghost use Rattle.std.specs.Prelude.{◌≡◌, ◌+◌, true, false, List, ℕ, IfOk, IsErrOf};
ghost use Rattle.bwe_io.specs.Bytes.{Takes};
ghost use Rattle.bwe_io.specs.Faults.{HasRisen};
ghost use Rattle.one_run.specs.Endings.{IsInput, max_long_input};
ghost use Rattle.top_call.specs.TopCall.{is_too_long, reads};

use bwe_io::Source;
use bwe_specs::OutOfMemory;
use command_line::CommandLine;
use one_run::{InputError, document_is_too_long, read_input};
use parted_input::parts_are_too_long;
use std::alloc::Global;

/// The whole input of a command that reads one, and nothing for another. An input is refused where
/// the source fails, where it is too long (above 67,108,864 bytes with a document that is not of
/// version 4, or above 1,073,741,824 bytes), and where memory runs out.
pub fn read_input_of<S: Source>(
    alloc: Global,
    line: CommandLine,
    source: &mut S,
) -> Result<Vec<u8>, InputError>
    ensures input { IfOk result (λ input.
        IsInput S.left source.old source.new (reads line) input.items) }
    ensures short { IfOk result (λ input. is_too_long line input.items ≡ false) }
    ensures untouched { reads line ≡ false → source.new ≡ source.old }
    ensures fault { IsErrOf result InputError.ReadFault
        → (reads line ≡ true) × HasRisen (S.faults source.old) (S.faults source.new) }
    ensures too_long { IsErrOf result InputError.TooLong
        → (input : List ℕ) × IsInput S.left source.old source.new (reads line) input
        × (is_too_long line input ≡ true) }
    ensures far_too_long { IsErrOf result InputError.FarTooLong → (reads line ≡ true)
        × Takes (max_long_input + 1) (S.left source.old) (S.left source.new) }
{
    let input = match read_input(alloc, has_input(line), source) {
        Ok(input) => input,
        Err(error) => return Err(error),
    };
    let long = match is_too_long(alloc, line, &input) {
        Ok(long) => long,
        Err(_) => return Err(InputError::OutOfMemory),
    };
    if long {
        return Err(InputError::TooLong);
    }
    Ok(input)
}

// Whether the command reads an input.
fn has_input(line: CommandLine) -> bool
    ensures { result ≡ reads line }
{
    !matches!(line, CommandLine::Make { .. } | CommandLine::Bulk { .. })
}

// Whether the input is too long for the command, by what stands in it as the document.
fn is_too_long(alloc: Global, line: CommandLine, input: &[u8]) -> Result<bool, OutOfMemory>
    ensures { IfOk result (λ is. is ≡ is_too_long line input.now) }
{
    match line {
        CommandLine::Solve => document_is_too_long(alloc, input),
        CommandLine::Check => document_is_too_long(alloc, input),
        CommandLine::Run { .. } => document_is_too_long(alloc, input),
        CommandLine::Levels { .. } => document_is_too_long(alloc, input),
        CommandLine::Make { .. } => Ok(false),
        CommandLine::Bulk { .. } => Ok(false),
        CommandLine::Audit => parts_are_too_long(alloc, input),
        CommandLine::Tiers => parts_are_too_long(alloc, input),
        CommandLine::Enforce => parts_are_too_long(alloc, input),
        CommandLine::Estimate { .. } => parts_are_too_long(alloc, input),
    }
}
