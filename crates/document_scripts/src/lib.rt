//! The script of a document, split by reporter.
//!
//! A run of a document and the audit of one call `scripts_of_document`. Nothing is promised of
//! documents that are refused.
#![tactic(auto)]

ghost use Rattle.std.specs.Prelude.{◌≡◌, ◌≤◌, length, IfOk};
ghost use Rattle.bwe_specs.specs.declared.limits.TheConstants.{MAX_REPORTERS, MAX_REPORTS};
ghost use Rattle.bwe_specs.specs.Reports.{reports_of};
ghost use Rattle.plan_doc.specs.Conditions.{IsUsable, link_count, reporter_count, tasks_in};
ghost use Rattle.crew_log.specs.Scripts.{AreOfReporters, reports_in};
ghost use Rattle.bwe_specs.specs.Lists.{lists_of};
ghost use Rattle.document_scripts.specs.Scripts.{scripts_of};

use bwe_specs::{OutOfMemory, Report};
use plan_doc::Document;
use std::alloc::Global;

/// The script of each reporter of an accepted document, in the order of their numbers.
pub fn scripts_of_document(
    alloc: Global,
    document: &Document,
) -> Result<Vec<Vec<Report>>, OutOfMemory>
    requires { IsUsable document.now }
    ensures split { IfOk result (λ scripts.
        lists_of scripts.items
        ≡ scripts_of (reporter_count document.now) document.now.script.items) }
    ensures few { IfOk result (λ scripts. length scripts.items ≤ MAX_REPORTERS) }
    ensures scripts { IfOk result (λ scripts.
        AreOfReporters (tasks_in document.now) (link_count document.now) scripts.items) }
    ensures room { IfOk result (λ scripts. reports_in scripts.items ≤ MAX_REPORTS) }
{
    let reporters = document.names.reporters.len() as u32;
    split_by_reporter(alloc, &document.script, reporters)
}

// The script of each reporter. It looks at the whole script once for each of them.
fn split_by_reporter(
    alloc: Global,
    script: &[Report],
    reporters: u32,
) -> Result<Vec<Vec<Report>>, OutOfMemory>
    ensures { IfOk result (λ scripts. lists_of scripts.items ≡ scripts_of reporters script.now) }
{
    let mut scripts = Vec::new(alloc);
    for reporter in 0..reporters {
        let reports = reports_by(alloc, script, reporter)?;
        scripts.push(reports)?;
    }
    Ok(scripts)
}

// The reports of one reporter, in the script's order.
fn reports_by(alloc: Global, script: &[Report], reporter: u32) -> Result<Vec<Report>, OutOfMemory>
    ensures { IfOk result (λ reports. reports.items ≡ reports_of reporter script.now) }
{
    let mut reports = Vec::new(alloc);
    for report in script {
        if report.reporter == reporter {
            reports.push(*report)?;
        }
    }
    Ok(reports)
}
