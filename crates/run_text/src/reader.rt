//! The rows of a reader.
ghost use Rattle.std.specs.Prelude.{◌≡◌, ◌+◌, ◌++◌, ◌<◌, ◌^◌, ℕ, flat_map, length, OnOk, string_bytes};
ghost use Rattle.std.specs.List.{All};
ghost use Rattle.doc_names.specs.NameTexts.{texts_of};
ghost use Rattle.run_text.specs.RunText.{final_line, numbered, read_line, reader_lines, shown};

use crate::report::push_beyond;
use crew_log::{ReadLine, ReaderLog};
use doc_names::Names;
use std::alloc::AllocError;

fn push_shown(text: &mut String, line: ReadLine) -> Result<(), AllocError>
    ensures { OnOk result (string_bytes text.new ≡ string_bytes text.old ++ shown line) }
{
    let ReadLine {
        floor,
        prefix,
        total,
    } = line;
    write!(text, "floor {floor} prefix {prefix} total {total}\n")
}

fn push_read(text: &mut String, line: ReadLine) -> Result<(), AllocError>
    ensures { OnOk result (string_bytes text.new ≡ string_bytes text.old ++ read_line line) }
{
    text.push_str("read ")?;
    push_shown(text, line)
}

fn push_final(text: &mut String, line: ReadLine) -> Result<(), AllocError>
    ensures { OnOk result (string_bytes text.new ≡ string_bytes text.old ++ final_line line) }
{
    text.push_str("final ")?;
    push_shown(text, line)
}

fn push_reads(text: &mut String, lines: &[ReadLine]) -> Result<(), AllocError>
    ensures { OnOk result
        (string_bytes text.new ≡ string_bytes text.old ++ flat_map read_line lines.now) }
{
    for line in lines {
        push_read(text, *line)?;
    }
    Ok(())
}

fn push_reader(
    text: &mut String,
    names: &Names,
    history: u64,
    number: u64,
    reader: &ReaderLog,
) -> Result<(), AllocError>
    requires places { history + length reader.now.beyond.items < 2 ^ 64 }
    ensures { OnOk result
        (string_bytes text.new
        ≡ string_bytes text.old
        ++ reader_lines (texts_of names.now) history number reader.now) }
{
    let length = reader.length;
    write!(text, "reader {number} length {length}\n")?;
    push_beyond(text, names, history, reader.beyond.as_slice())?;
    push_reads(text, reader.reads.as_slice())?;
    push_final(text, reader.last)
}

/// Puts the rows of each reader at the end of the text.
#[tactic(auto, using(crate::proofs::Numbered::numbered_more))]
pub(crate) fn push_readers(
    text: &mut String,
    names: &Names,
    history: u64,
    readers: &[ReaderLog],
) -> Result<(), AllocError>
    requires places { All (λ reader. history + length reader.beyond.items < 2 ^ 64) readers.now }
    ensures { OnOk result
        (string_bytes text.new
        ≡ string_bytes text.old
        ++ numbered (reader_lines (texts_of names.now) history) 0 readers.now) }
{
    for (number, reader) in readers.iter().enumerate() {
        push_reader(text, names, history, number as u64, reader)?;
    }
    Ok(())
}
