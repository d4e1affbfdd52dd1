//! The answer to what a line means.

ghost use Rattle.std.specs.Prelude.{◌≡◌, ◌<◌, length, IfOk, OnOk};
ghost use Rattle.bwe_specs.specs.Allocation.{allocation};
ghost use Rattle.bwe_specs.specs.Fit.{IsFit};
ghost use Rattle.last_reports.specs.Snapshot.{snapshot};
ghost use Rattle.live_lines.specs.Meaning.{IfNewReport};
ghost use Rattle.change_text.specs.ChangeText.{change_text_of};
ghost use Rattle.change_text.specs.StateText.{state_text_of};
ghost use Rattle.live_core.specs.Live.{links_of, plan_of, reports_of, tasks_of};
ghost use Rattle.live_session.specs.Standing.{Standing, after_line};
ghost use Rattle.live_session.specs.Answers.{answer_in};
ghost use Rattle.live_session.specs.Following.{Stands};

use bwe_specs::OutOfMemory;
use change_text::{change_text, refused_text, state_text};
use live_core::LiveCore;
use live_lines::{Known, LineMeaning};
use std::alloc::Global;

/// Does what the line of this number means, and answers it.
pub(crate) fn answer_meaning(
    alloc: Global,
    core: &mut LiveCore,
    known: &Known,
    number: u64,
    meaning: LineMeaning,
) -> Result<Vec<u8>, OutOfMemory>
    requires fit { IfNewReport meaning (IsFit (tasks_of core.old) (links_of core.old)) }
    requires room { reports_of core.old < u64.MAX }
    ensures plan { plan_of core.new ≡ plan_of core.old }
    ensures text { IfOk result (λ text. (standing : Standing) → Stands core.old standing
        → text.items ≡ answer_in known.now (plan_of core.old) standing number meaning) }
    ensures stands { OnOk result ((standing : Standing) → Stands core.old standing
        → Stands core.new (after_line standing meaning)) }
{
    match meaning {
        LineMeaning::NewReport { report } => {
            core.report(alloc, report)?;
            Ok(Vec::new(alloc))
        }
        LineMeaning::Post => Ok(post(alloc, core, known)?),
        LineMeaning::State => Ok(state(alloc, core, known)?),
        LineMeaning::Refused { cause } => Ok(refused_text(alloc, number, cause)?),
    }
}

// Writes the table of all reports, and says what has changed since the one before.
fn post(alloc: Global, core: &mut LiveCore, known: &Known) -> Result<Vec<u8>, OutOfMemory>
    ensures plan { plan_of core.new ≡ plan_of core.old }
    ensures text { IfOk result (λ text. (standing : Standing) → Stands core.old standing
        → text.items
        ≡ change_text_of known.now.names (allocation (plan_of core.old) standing.written)
        (allocation (plan_of core.old) standing.accepted)) }
    ensures stands { OnOk result ((standing : Standing) → Stands core.old standing
        → Stands core.new (record standing { written = standing.accepted })) }
{
    let earlier = core.post(alloc)?;
    let text = change_text(alloc, &earlier, core.table(), known.names())?;
    Ok(text)
}

// Says which reports count.
fn state(alloc: Global, core: &LiveCore, known: &Known) -> Result<Vec<u8>, OutOfMemory>
    ensures { IfOk result (λ text. (standing : Standing) → Stands core.now standing
        → text.items
        ≡ state_text_of known.now.names
        (snapshot (tasks_of core.now) (links_of core.now) standing.accepted)
        (length standing.accepted)) }
{
    let reports = core.state(alloc)?;
    let text = state_text(alloc, &reports, core.reports(), known.names())?;
    Ok(text)
}
