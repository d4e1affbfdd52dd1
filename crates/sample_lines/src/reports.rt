//! The reports of the estimates of samples.

ghost use Rattle.std.specs.Prelude.{◌≡◌, ◌≤◌, ◌∷◌, ◌++◌, [], List, ℕ, All, IfOk, OnOk, None, nat_eq};
ghost use Rattle.std.specs.HashMap.{Updates, get};
ghost use Rattle.bwe_specs.specs.declared.limits.TheConstants.{MAX_AMOUNT};
ghost use Rattle.bwe_specs.specs.declared.limits.TheConstants.{MAX_WINDOW, MIN_HEADROOM, MAX_HEADROOM};
ghost use Rattle.sample_lines.specs.declared.sample.Sample.{Sample};
ghost use Rattle.sample_lines.specs.Estimators.{AreBehind, IsBehind, IsBehindIfAny};
ghost use Rattle.sample_lines.specs.SampleReports.{report_of, reports_of};

use crate::sample::Sample;
use bwe_specs::{OutOfMemory, Report, Target};
use demand_estimate::Estimator;
use std::alloc::Global;
use std::collections::HashMap;

/// The reports of the samples' estimates, in order. Each task with a sample has an estimator of its
/// own.
pub(crate) fn estimate_samples(
    alloc: Global,
    samples: &[Sample],
    window: u32,
    headroom: u32,
) -> Result<Vec<Report>, OutOfMemory>
    requires some_window { 1 ≤ window }
    requires window { window ≤ MAX_WINDOW }
    requires least { MIN_HEADROOM ≤ headroom }
    requires headroom { headroom ≤ MAX_HEADROOM }
    requires amounts { All (λ sample. sample.amount ≤ MAX_AMOUNT) samples.now }
    ensures { IfOk result (λ reports. reports.items ≡ reports_of window headroom samples.now) }
{
    let mut estimators = HashMap::new(alloc);
    let mut reports = Vec::with_capacity(alloc, samples.len())?;
    for sample in samples {
        let report = report(alloc, &mut estimators, window, headroom, *sample)?;
        reports.push(report)?;
    }
    Ok(reports)
}

// The report of the estimate with this sample. Other tasks' estimators stay.
fn report(
    alloc: Global,
    estimators: &mut HashMap<u32, Estimator>,
    window: u32,
    headroom: u32,
    sample: Sample,
) -> Result<Report, OutOfMemory>
    requires some_window { 1 ≤ window }
    requires window { window ≤ MAX_WINDOW }
    requires least { MIN_HEADROOM ≤ headroom }
    requires headroom { headroom ≤ MAX_HEADROOM }
    requires amount { sample.amount ≤ MAX_AMOUNT }
    ensures report { (before : List Sample) → AreBehind window headroom before estimators.old
        → IfOk result (λ report. report ≡ report_of window headroom before sample) }
    ensures behind { (before : List Sample) → AreBehind window headroom before estimators.old
        → OnOk result (AreBehind window headroom (before ++ sample ∷ []) estimators.new) }
{
    let mut estimator = taken(alloc, estimators, window, headroom, sample.task)?;
    let amount = estimator.sample(sample.amount);
    estimators.insert(sample.task, estimator)?;
    Ok(Report {
        reporter: sample.reporter,
        target: Target::Task {
            number: sample.task,
        },
        amount,
    })
}

// The task's estimator, taken out of its place; a new one where it has none.
fn taken(
    alloc: Global,
    estimators: &mut HashMap<u32, Estimator>,
    window: u32,
    headroom: u32,
    task: u32,
) -> Result<Estimator, OutOfMemory>
    requires some_window { 1 ≤ window }
    requires window { window ≤ MAX_WINDOW }
    requires least { MIN_HEADROOM ≤ headroom }
    requires headroom { headroom ≤ MAX_HEADROOM }
    ensures behind { (amounts : List ℕ)
        → IsBehindIfAny window headroom amounts (get nat_eq estimators.old task)
        → IfOk result (IsBehind window headroom amounts) }
    ensures others { Updates nat_eq estimators.old estimators.new task None }
{
    match estimators.remove(&task) {
        Some(estimator) => Ok(estimator),
        None => Estimator::new(alloc, window, headroom),
    }
}
