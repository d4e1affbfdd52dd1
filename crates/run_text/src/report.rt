//! The rows of reports.
ghost use Rattle.std.specs.Prelude.{◌≡◌, ◌+◌, ◌++◌, ◌<◌, ◌^◌, length, OnOk, string_bytes};
ghost use Rattle.doc_names.specs.NameTexts.{texts_of};
ghost use Rattle.run_text.specs.RunText.{beyond_line, beyond_word, numbered, report_line, report_word, target_name, told};

use bwe_specs::{Report, Target};
use doc_names::Names;
use std::alloc::AllocError;
use table_text::name_of;

#[tactic(auto, unfolding(crate::specs::RunText::target_name))]
fn name_of_target(names: &Names, target: Target) -> &str
    ensures { result.now ≡ target_name (texts_of names.now) target }
{
    match target {
        Target::Task { number } => name_of(&names.tasks, number),
        Target::Link { number } => name_of(&names.links, number),
    }
}

fn push_told(text: &mut String, names: &Names, place: u64, report: Report) -> Result<(), AllocError>
    ensures { OnOk result
        (string_bytes text.new ≡ string_bytes text.old ++ told (texts_of names.now) place report) }
{
    let reporter = name_of(&names.reporters, report.reporter);
    let target = name_of_target(names, report.target);
    let amount = report.amount;
    write!(text, "{place} {reporter} {target} {amount}\n")
}

#[tactic(auto, unfolding(crate::specs::RunText::report_word))]
fn push_report_word(text: &mut String, target: Target) -> Result<(), AllocError>
    ensures { OnOk result (string_bytes text.new ≡ string_bytes text.old ++ report_word target) }
{
    match target {
        Target::Task { .. } => text.push_str("report "),
        Target::Link { .. } => text.push_str("capacity "),
    }
}

#[tactic(auto, unfolding(crate::specs::RunText::beyond_word))]
fn push_beyond_word(text: &mut String, target: Target) -> Result<(), AllocError>
    ensures { OnOk result (string_bytes text.new ≡ string_bytes text.old ++ beyond_word target) }
{
    match target {
        Target::Task { .. } => text.push_str("beyond "),
        Target::Link { .. } => text.push_str("beyond capacity "),
    }
}

fn push_report(
    text: &mut String,
    names: &Names,
    place: u64,
    report: Report,
) -> Result<(), AllocError>
    ensures { OnOk result
        (string_bytes text.new
        ≡ string_bytes text.old ++ report_line (texts_of names.now) place report) }
{
    push_report_word(text, report.target)?;
    push_told(text, names, place, report)
}

fn push_report_beyond(
    text: &mut String,
    names: &Names,
    place: u64,
    report: Report,
) -> Result<(), AllocError>
    ensures { OnOk result
        (string_bytes text.new
        ≡ string_bytes text.old ++ beyond_line (texts_of names.now) place report) }
{
    push_beyond_word(text, report.target)?;
    push_told(text, names, place, report)
}

/// Puts a row for each report of the history at the end of the text.
#[tactic(auto, using(crate::proofs::Numbered::numbered_more))]
pub(crate) fn push_history(
    text: &mut String,
    names: &Names,
    history: &[Report],
) -> Result<(), AllocError>
    ensures { OnOk result
        (string_bytes text.new
        ≡ string_bytes text.old ++ numbered (report_line (texts_of names.now)) 0 history.now) }
{
    for (place, report) in history.iter().enumerate() {
        push_report(text, names, place as u64, *report)?;
    }
    Ok(())
}

/// Puts a row for each report beyond a history of this length at the end of the text.
#[tactic(auto, using(crate::proofs::Numbered::numbered_more))]
pub(crate) fn push_beyond(
    text: &mut String,
    names: &Names,
    history: u64,
    beyond: &[Report],
) -> Result<(), AllocError>
    requires places { history + length beyond.now < 2 ^ 64 }
    ensures { OnOk result
        (string_bytes text.new
        ≡ string_bytes text.old
        ++ numbered (beyond_line (texts_of names.now)) history beyond.now) }
{
    for (number, report) in beyond.iter().enumerate() {
        push_report_beyond(text, names, history + number as u64, *report)?;
    }
    Ok(())
}
