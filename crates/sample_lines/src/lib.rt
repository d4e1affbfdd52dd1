//! The second part of `estimate`: samples of what tasks sent, and the reports of their estimates.
//!
//! `estimate_reports` reads the part for the command `estimate`, which appends its reports to the
//! document's script and says for how many there is room; the row that `sample_refusal_line` makes
//! is printed for a part at fault. `exact` is the whole of it: the reports, or the first line at
//! fault (`specs/SampleLine.antt`, `SampleLines.antt` and `SampleReports.antt`). `few`, `fit` and
//! `owned` are the conditions of the calls that take reports. Lines, names and numbers are cut by
//! `text_scan`. Each name is hashed once, and once for each line; nothing is promised of time.
#![tactic(auto)]

ghost use Rattle.std.specs.Prelude.{◌≡◌, ◌≤◌, ℕ, All, IfOk, length};
ghost use Rattle.bwe_specs.specs.Fit.{IsFit};
ghost use Rattle.bwe_specs.specs.declared.limits.TheConstants.{MAX_WINDOW, MIN_HEADROOM, MAX_HEADROOM};
ghost use Rattle.sample_lines.specs.Held.{IsByOwner};
ghost use Rattle.sample_lines.specs.Known.{known_by};
ghost use Rattle.sample_lines.specs.SampleLines.{Answers};
ghost use Rattle.sample_lines.specs.SampleReports.{reports_in};

mod error;
mod lines;
mod refusal_line;
mod reports;
mod sample;

use crate::lines::read_samples;
use crate::reports::estimate_samples;
use crate::sample::Known;
use bwe_specs::Report;
use doc_names::Names;
pub use error::SampleError;
pub use refusal_line::sample_refusal_line;
pub use sample::Sample;
use std::alloc::Global;

/// The reports of the estimates of the part's samples, in order ("Two-part inputs",
/// docs/FORMAT.md), or the first line at fault.
///
/// `room` is how many reports there may be, and `task_owners` has the number of each task's owner.
/// Each task of which there is a sample has an estimator of its own, with memory for `window`
/// samples.
pub fn estimate_reports(
    alloc: Global,
    part: &[u8],
    names: &Names,
    task_owners: &[u32],
    room: u64,
    window: u32,
    headroom: u32,
) -> Result<Vec<Report>, SampleError>
    requires some_window { 1 ≤ window }
    requires window { window ≤ MAX_WINDOW }
    requires least { MIN_HEADROOM ≤ headroom }
    requires headroom { headroom ≤ MAX_HEADROOM }
    ensures exact { Answers (λ reports. reports.items) result
        (reports_in (known_by names.now task_owners.now) room window headroom part.now) }
    // There is room for the reports, and they may stand in a log.
    ensures few { IfOk result (λ reports. length reports.items ≤ room) }
    ensures fit { (links : ℕ)
        → IfOk result (λ reports. All (IsFit (length names.now.tasks) links) reports.items) }
    ensures owned { IfOk result (λ reports. All (IsByOwner task_owners.now) reports.items) }
{
    let known = Known::new(alloc, names, task_owners)?;
    let samples = read_samples(alloc, &known, room, part)?;
    let reports = estimate_samples(alloc, &samples, window, headroom)?;
    Ok(reports)
}
