//! The text of a run, row by row.
ghost use Rattle.std.specs.Prelude.{◌≡◌, ◌+◌, ◌++◌, ◌<◌, ◌^◌, length, IfOk, OnOk, string_bytes};
ghost use Rattle.std.specs.List.{All};
ghost use Rattle.doc_names.specs.NameTexts.{texts_of};
ghost use Rattle.run_text.specs.RunText.{numbered, run_text_of, sent_line};

use crate::reader::push_readers;
use crate::report::push_history;
use bwe_specs::OutOfMemory;
use crew_log::CrewLog;
use doc_names::Names;
use limit_table::LimitTable;
use std::alloc::{AllocError, Global};
use table_text::{name_of, table_text};

/// The text of the run: its history, what each reporter sent, what each reader saw, and the table
/// of the history.
///
/// A number that has no name is printed as an empty text; the names of a document have one for each
/// number of its runs.
#[tactic(auto, unfolding(crate::specs::RunText::run_text_of))]
pub fn run_text(
    alloc: Global,
    log: &CrewLog<LimitTable>,
    names: &Names,
) -> Result<Vec<u8>, OutOfMemory>
    requires reporters { length log.now.sent.items < 2 ^ 32 }
    requires places { All
        (λ reader. length log.now.history.items + length reader.beyond.items < 2 ^ 64)
        log.now.readers.items }
    ensures { IfOk result (λ text. text.items ≡ run_text_of (texts_of names.now) log.now) }
{
    let mut text = String::new(alloc);
    let history = log.history.len() as u64;
    write!(text, "history {history}\n")?;
    push_history(&mut text, names, log.history.as_slice())?;
    push_sent(&mut text, names, log.sent.as_slice())?;
    push_readers(&mut text, names, history, log.readers.as_slice())?;
    let table = table_text(alloc, &log.table, names)?;
    let mut bytes = text.into_bytes();
    bytes.extend_from_slice(table.as_slice())?;
    Ok(bytes)
}

fn push_sent_by(text: &mut String, names: &Names, number: u32, sent: u64) -> Result<(), AllocError>
    ensures { OnOk result
        (string_bytes text.new
        ≡ string_bytes text.old ++ sent_line (texts_of names.now) number sent) }
{
    let reporter = name_of(&names.reporters, number);
    write!(text, "reporter {reporter} sent {sent}\n")
}

#[tactic(auto, using(crate::proofs::Numbered::numbered_more))]
fn push_sent(text: &mut String, names: &Names, sent: &[u64]) -> Result<(), AllocError>
    requires reporters { length sent.now < 2 ^ 32 }
    ensures { OnOk result
        (string_bytes text.new
        ≡ string_bytes text.old ++ numbered (sent_line (texts_of names.now)) 0 sent.now) }
{
    for (number, reports) in sent.iter().enumerate() {
        push_sent_by(text, names, number as u32, *reports)?;
    }
    Ok(())
}
