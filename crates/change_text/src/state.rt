//! The text of the reports that count.

ghost use Rattle.std.specs.Prelude.{◌≡◌, ◌++◌, IfOk, OnOk, flat_map, string_bytes};
ghost use Rattle.doc_names.specs.NameTexts.{texts_of};
ghost use Rattle.change_text.specs.StateText.{report_line, report_words, state_text_of};

use bwe_specs::{OutOfMemory, Report, Target};
use doc_names::Names;
use std::alloc::{AllocError, Global};
use table_text::{end_with_number, name_of};

/// A line for each report, in the form of a line of the input, and a last line with the number of
/// reports accepted.
///
/// A number that has no name is printed as an empty text; the names of a document have one for each
/// number of its reports.
#[tactic(auto, unfolding(crate::specs::StateText::state_text_of))]
pub fn state_text(
    alloc: Global,
    reports: &[Report],
    count: u64,
    names: &Names,
) -> Result<Vec<u8>, OutOfMemory>
    ensures { IfOk result
        (λ text. text.items ≡ state_text_of (texts_of names.now) reports.now count) }
{
    let mut text = String::new(alloc);
    push_reports(&mut text, names, reports)?;
    end_with_number(&mut text, "state ", count)?;
    Ok(text.into_bytes())
}

fn push_reports(text: &mut String, names: &Names, reports: &[Report]) -> Result<(), AllocError>
    ensures { OnOk result
        (string_bytes text.new
        ≡ string_bytes text.old ++ flat_map (report_line (texts_of names.now)) reports.now) }
{
    for report in reports {
        push_report(text, names, *report)?;
    }
    Ok(())
}

fn push_report(text: &mut String, names: &Names, report: Report) -> Result<(), AllocError>
    ensures { OnOk result
        (string_bytes text.new ≡ string_bytes text.old ++ report_line (texts_of names.now) report) }
{
    push_report_words(text, names, report.reporter, report.target)?;
    end_with_number(text, " ", report.amount)
}

#[tactic(auto, unfolding(crate::specs::StateText::report_words))]
fn push_report_words(
    text: &mut String,
    names: &Names,
    reporter: u32,
    target: Target,
) -> Result<(), AllocError>
    ensures { OnOk result
        (string_bytes text.new
        ≡ string_bytes text.old ++ report_words (texts_of names.now) reporter target) }
{
    let reporter = name_of(&names.reporters, reporter);
    match target {
        Target::Task { number } => {
            let task = name_of(&names.tasks, number);
            write!(text, "demand {reporter} {task}")
        }
        Target::Link { number } => {
            let link = name_of(&names.links, number);
            write!(text, "capacity {reporter} {link}")
        }
    }
}
